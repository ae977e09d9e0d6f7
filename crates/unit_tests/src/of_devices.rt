// Devices of small layouts: layer 0 is crossed, layer 1 is the gate's.
use devices::devices;
use devices::reading::Found;
use layout::refusal::{Fault, Refusal};
use std::alloc::{AllocError, Global};
use std::test::Fail;

const TWO_LAYERS: [u64; 6] = [2, 0, 1, 0, 1, 1];

const STRIP: [[u64; 5]; 2] = [[0, 0, 2, 9, 3], [1, 4, 0, 1, 7]];

// The nodes of boxes, all together.
fn layout_of(heap: Global, boxes: &[[u64; 5]]) -> Result<Vec<u64>, AllocError> {
    let mut nodes = Vec::new(heap);
    let mut all = 0;
    for numbers in boxes {
        let node = (nodes.len() / 6) as u64;
        nodes.push(1)?;
        nodes.extend_from_slice(numbers)?;
        if node > 0 {
            nodes.extend_from_slice(&[2, all, node, 0, 0, 0])?;
            all = node.wrapping_add(1);
        }
    }
    Ok(nodes)
}

// The devices of boxes, read into the room.
fn read(
    heap: Global,
    boxes: &[[u64; 5]],
    technology: &[u64],
    room: &mut [u64],
) -> Result<Found<u64>, Fault> {
    let layout = layout_of(heap, boxes)?;
    devices(heap, &layout, technology, room)
}

#[test]
fn a_strip_that_is_crossed(rt: HostRuntime) -> Result<(), Fail> {
    let mut room = [9; 8];
    let found = read(rt.alloc(), &STRIP, &TWO_LAYERS, &mut room)?;
    assert_eq!(rt; found, Found::Devices(1));
    assert_eq!(rt; room, [4, 2, 3, 2, 5, 2, 9, 9]);
    Ok(())
}

#[test]
fn too_little_room(rt: HostRuntime) -> Result<(), Fail> {
    let mut room = [9; 5];
    let found = read(rt.alloc(), &STRIP, &TWO_LAYERS, &mut room);
    assert_eq!(rt; found, Err(Fault::Refused(Refusal::Room(5))));
    assert_eq!(rt; room, [9; 5]);
    Ok(())
}

#[test]
fn a_gate_that_ends_inside(rt: HostRuntime) -> Result<(), Fail> {
    let mut room = [9; 6];
    let boxes = [[0, 0, 0, 5, 3], [1, 2, 0, 1, 2]];
    let found = read(rt.alloc(), &boxes, &TWO_LAYERS, &mut room)?;
    assert_eq!(rt; found, Found::Devices(1));
    assert_eq!(rt; room, [2, 0, 1, 0, 1, 0]);
    Ok(())
}

// Pieces on the left, on the right and below; layer 3 joins the first two to layer 2.
#[test]
fn three_pieces(rt: HostRuntime) -> Result<(), Fail> {
    let mut room = [9; 6];
    let boxes = [
        [0, 0, 2, 5, 1],
        [0, 2, 3, 1, 2],
        [1, 2, 2, 1, 1],
        [2, 0, 2, 5, 1],
        [3, 0, 2, 1, 1],
        [3, 4, 2, 1, 1],
    ];
    let apart = read(rt.alloc(), &boxes, &[3, 0, 1, 0, 1, 1, 1], &mut room)?;
    assert_eq!(rt; apart, Found::Odd(2, 2));
    assert_eq!(rt; room, [9; 6]);
    let joined = read(
        rt.alloc(),
        &boxes,
        &[3, 1, 1, 0, 1, 1, 1, 3, 0, 2],
        &mut room,
    )?;
    assert_eq!(rt; joined, Found::Devices(1));
    assert_eq!(rt; room, [2, 2, 1, 2, 2, 3]);
    Ok(())
}

// Both the channels and the ends of each touch in corners only.
#[test]
fn corners(rt: HostRuntime) -> Result<(), Fail> {
    let mut room = [9; 12];
    let boxes = [
        [0, 1, 0, 1, 2],
        [0, 0, 1, 1, 1],
        [0, 2, 2, 2, 1],
        [0, 2, 3, 1, 1],
        [1, 1, 1, 1, 1],
        [1, 2, 2, 1, 1],
    ];
    let found = read(rt.alloc(), &boxes, &TWO_LAYERS, &mut room)?;
    assert_eq!(rt; found, Found::Devices(2));
    assert_eq!(rt; room, [1, 1, 1, 0, 0, 1, 2, 2, 3, 2, 2, 3]);
    Ok(())
}

#[test]
fn a_ring(rt: HostRuntime) -> Result<(), Fail> {
    let mut room = [9; 6];
    let boxes = [
        [0, 0, 0, 5, 5],
        [1, 1, 1, 3, 1],
        [1, 1, 2, 1, 1],
        [1, 3, 2, 1, 1],
        [1, 1, 3, 3, 1],
    ];
    let found = read(rt.alloc(), &boxes, &TWO_LAYERS, &mut room)?;
    assert_eq!(rt; found, Found::Devices(1));
    assert_eq!(rt; room, [1, 1, 1, 0, 2, 2]);
    Ok(())
}

// An island, shown before too little room is turned away; and a gate's layer that is the crossed one.
#[test]
fn odd_channels(rt: HostRuntime) -> Result<(), Fail> {
    let mut room = [9; 1];
    let boxes = [
        [0, 3, 4, 2, 2],
        [1, 2, 3, 4, 4],
        [0, 0, 9, 3, 1],
        [1, 1, 9, 1, 1],
    ];
    let island = read(rt.alloc(), &boxes, &TWO_LAYERS, &mut room)?;
    assert_eq!(rt; island, Found::Odd(3, 4));
    let same = read(rt.alloc(), &STRIP, &[1, 0, 0, 0, 1], &mut room)?;
    assert_eq!(rt; same, Found::Odd(0, 2));
    assert_eq!(rt; room, [9]);
    Ok(())
}
