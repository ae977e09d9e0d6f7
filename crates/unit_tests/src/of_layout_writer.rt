// Layouts that are written, and read back.
use layout::layout_boxes;
use layout::refusal::{Fault, Refusal};
use layout_writer::write_layout;
use std::alloc::Global;
use std::process::Abort;
use std::test::Fail;
use text::layout_text::read_layout;

/// Nothing and a box, together and moved; the box turned and mirrored, in a row and a column; all of it in a row, moved.
const ALL_KINDS: [u64; 72] = [
    0, 0, 0, 0, 0, 0, 1, 7, 1, 2, 3, 4, 2, 0, 1, 0, 0, 0, 3, 30, 40, 2, 0, 0, 4, 9, 1, 0, 0, 0, 5,
    8, 1, 0, 0, 0, 6, 3, 10, 4, 0, 0, 7, 2, 20, 5, 0, 0, 2, 3, 6, 0, 0, 0, 2, 8, 7, 0, 0, 0, 6, 2,
    100, 9, 0, 0, 3, 0, 5, 10, 0, 0,
];

const ITS_TEXT: &str =
    "cell n1 {\n    box 7 1 2 3 4\n}\ncell n2 {\n    put n1 at 0 0\n}\ncell n4 {\n    put n1 at 0 0 turned 9\n}\ncell n5 {\n    put n1 at 0 0 mirrored 8\n}\ncell n9 {\n    put n2 at 30 40\n    row 3 10 n4\n    column 2 20 n5\n}\ncell n10 {\n    row 2 100 n9\n}\nput n10 at 0 5\n";

#[test]
fn all_kinds(rt: HostRuntime) -> Result<(), Fail> {
    let heap = rt.alloc();
    let text = write_layout(heap, &ALL_KINDS)?;
    assert!(rt; text.as_str() == ITS_TEXT);
    let read = read_layout(heap, text.as_bytes())?;
    let boxes = layout_boxes(heap, &ALL_KINDS)?;
    let again = layout_boxes(heap, read.nodes.as_slice())?;
    assert!(rt; boxes.len() == 12);
    assert!(rt; again.as_slice() == boxes.as_slice());
    assert!(rt; read.nodes.len() == 6 * 13);
    Ok(())
}

// What was read from statements alone is written as them again.
#[test]
fn same_nodes(rt: HostRuntime) -> Result<(), Fail> {
    let heap = rt.alloc();
    let said = "cell n0 {\n    box 3 0 0 2 2\n}\nbox 0 0 0 5 3\nput n0 at 6 0\nrow 2 4 n0\n";
    let read = read_layout(heap, said.as_bytes())?;
    let text = write_layout(heap, read.nodes.as_slice())?;
    assert!(rt; text.as_str() == said);
    Ok(())
}

/// That a layout is turned away.
fn fails(rt: &impl Abort, heap: Global, layout: &[u64], refusal: Refusal) -> Result<(), Fail> {
    match write_layout(heap, layout) {
        Ok(_) => {
            assert!(rt; false);
            Ok(())
        },
        Err(fault) => {
            assert_eq!(rt; fault, Fault::Refused(refusal));
            Ok(())
        },
    }
}

#[test]
fn refusals(rt: HostRuntime) -> Result<(), Fail> {
    let heap = rt.alloc();
    fails(&rt, heap, &[], Refusal::Nodes(0))?;
    fails(&rt, heap, &[1, 65536, 0, 0, 0, 0], Refusal::Number(1))?;
    fails(&rt, heap, &[6, 1, 1, 0, 0, 0], Refusal::Node(0))
}

// A node that stands in two places is written once, so that the text stays short. It has too many boxes, and is written all the same.
#[test]
fn doubled(rt: HostRuntime) -> Result<(), Fail> {
    let heap = rt.alloc();
    let mut nodes = [1, 0, 0, 0, 1, 1].to_vec(heap)?;
    for n in 0..255u64 {
        nodes.extend_from_slice(&[2, n, n, 0, 0, 0])?;
    }
    let text = write_layout(heap, nodes.as_slice())?;
    assert!(rt; text.len() < 255 * 64);
    let read = read_layout(heap, text.as_bytes())?;
    assert!(rt; read.nodes.len() == 6 * (1 + 255 * 3));
    Ok(())
}
