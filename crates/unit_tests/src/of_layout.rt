// Examples of layouts that are taken, turned away and written out.
use layout::rect::Rect;
use layout::refusal::Refusal;
use layout::{check_layout, layout_boxes};
use std::alloc::{AllocError, Global};
use std::test::Fail;

const SQUARE: [u64; 6] = [1, 0, 0, 0, 1, 1];

/// A first node, and after it nodes of a kind that name the one before twice.
fn chain(heap: Global, first: &[u64], many: u64, kind: u64) -> Result<Vec<u64>, AllocError> {
    let mut nodes = first.to_vec(heap)?;
    for n in 0..many {
        nodes.extend_from_slice(&[kind, n, n, 0, 0, 0])?;
    }
    Ok(nodes)
}

/// A first node, and after it rows of rows.
fn rows(heap: Global, first: &[u64], many: u64, nested: u64) -> Result<Vec<u64>, AllocError> {
    let mut nodes = first.to_vec(heap)?;
    for n in 0..nested {
        nodes.extend_from_slice(&[6, many, 1, n, 0, 0])?;
    }
    Ok(nodes)
}

#[test]
fn takes_the_most_boxes(rt: HostRuntime) -> Result<(), Fail> {
    let most = rows(rt.alloc(), &SQUARE, 1024, 1)?;
    assert_eq!(rt; check_layout(&most), Ok(1024));
    assert_eq!(rt; layout_boxes(rt.alloc(), &most)?.len(), 1024);
    let more = rows(rt.alloc(), &SQUARE, 1025, 1)?;
    assert_eq!(rt; check_layout(&more), Err(Refusal::Boxes(1)));
    Ok(())
}

#[test]
fn turns_away_with_the_place(rt: HostRuntime) -> Result<(), Fail> {
    assert_eq!(rt; check_layout(&[]), Err(Refusal::Nodes(0)));
    assert_eq!(rt; check_layout(&[0; 7]), Err(Refusal::Nodes(7)));
    let long = chain(rt.alloc(), &SQUARE, 256, 0)?;
    assert_eq!(rt; check_layout(&long), Err(Refusal::Nodes(1542)));
    let large = [8, 0, 0, 0, 0, 0, 0, 0, 0, 0, 0, 65536];
    assert_eq!(rt; check_layout(&large), Err(Refusal::Number(11)));
    assert_eq!(rt;
        check_layout(&[8, 0, 0, 0, 0, 65535]),
        Err(Refusal::Node(0))
    );
    let itself = [0, 0, 0, 0, 0, 0, 3, 1, 1, 1, 0, 0];
    assert_eq!(rt; check_layout(&itself), Err(Refusal::Node(1)));
    Ok(())
}

#[test]
fn ends_quickly(rt: HostRuntime) -> Result<(), Fail> {
    let doubled = chain(rt.alloc(), &[0; 6], 255, 2)?;
    assert_eq!(rt; layout_boxes(rt.alloc(), &doubled)?.len(), 0);
    let empty = rows(rt.alloc(), &[0; 6], 65535, 255)?;
    assert_eq!(rt; layout_boxes(rt.alloc(), &empty)?.len(), 0);
    let nested = rows(rt.alloc(), &SQUARE, 2, 10)?;
    assert_eq!(rt; layout_boxes(rt.alloc(), &nested)?.len(), 1024);
    let huge = chain(rt.alloc(), &SQUARE, 200, 2)?;
    assert_eq!(rt; check_layout(&huge), Err(Refusal::Boxes(200)));
    Ok(())
}

// A cell of side 4 is turned about its square: what lay at its upper edge comes to lie at its right edge.
#[test]
fn turns_within_the_square(rt: HostRuntime) -> Result<(), Fail> {
    let nodes = [1, 9, 0, 0, 2, 1, 4, 4, 0, 0, 0, 0];
    let boxes = layout_boxes(rt.alloc(), &nodes)?;
    assert!(rt; boxes.len() == 1);
    let turned = Rect {
        layer: 9,
        x: 3,
        y: 0,
        across: 1,
        down: 2,
    };
    assert_eq!(rt; boxes[0], turned);
    Ok(())
}
