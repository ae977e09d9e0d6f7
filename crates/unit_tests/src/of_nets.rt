// Nets of small layouts.
use layout::refusal::{Fault, Refusal};
use nets::nets;

// A strip of layer 0 that a strip of layer 1 crosses.
const CROSSED: [u64; 18] = [1, 0, 0, 2, 9, 3, 1, 1, 4, 0, 1, 7, 2, 0, 1, 0, 0, 0];

#[test]
fn a_gate_cuts_what_it_crosses(rt: HostRuntime) {
    let spots = [0, 0, 2, 0, 8, 2, 1, 4, 0, 0, 4, 2, 0, 1, 4];
    let mut numbers = [9; 5];
    let answer = nets(
        rt.alloc(),
        &CROSSED,
        &[2, 0, 1, 0, 1, 1],
        &spots,
        &mut numbers,
    );
    assert_eq!(rt; answer, Ok(()));
    assert_eq!(rt; numbers, [1, 2, 3, 0, 1]);
}

#[test]
fn nothing_joins_under_a_gate(rt: HostRuntime) {
    let layout = [
        1, 0, 0, 2, 9, 3, 1, 1, 4, 0, 1, 7, 1, 2, 4, 3, 1, 1, 2, 0, 1, 0, 0, 0, 2, 2, 3, 0, 0, 0,
    ];
    let spots = [0, 0, 2, 0, 8, 2, 1, 4, 0, 0, 4, 2, 0, 1, 4];
    let mut numbers = [9; 5];
    let answer = nets(
        rt.alloc(),
        &layout,
        &[2, 1, 1, 0, 1, 1, 2, 0, 1],
        &spots,
        &mut numbers,
    );
    assert_eq!(rt; answer, Ok(()));
    assert_eq!(rt; numbers, [1, 2, 3, 0, 1]);
}

#[test]
fn corners_are_two_nets(rt: HostRuntime) {
    let layout = [1, 0, 0, 0, 2, 2, 1, 0, 2, 2, 2, 2, 2, 0, 1, 0, 0, 0];
    let spots = [0, 1, 1, 0, 2, 2];
    let mut numbers = [9; 2];
    let answer = nets(rt.alloc(), &layout, &[1, 0, 0, 1, 1], &spots, &mut numbers);
    assert_eq!(rt; answer, Ok(()));
    assert_eq!(rt; numbers, [1, 2]);
}

// Two wires of layer 0, and one of layer 1 over both; layer 2 joins the two layers.
#[test]
fn a_wire_above_bridges_two(rt: HostRuntime) {
    let layout = [
        1, 0, 0, 0, 2, 2, 1, 0, 4, 0, 2, 2, 1, 1, 0, 0, 6, 1, 1, 2, 1, 0, 4, 1, 2, 0, 1, 0, 0, 0,
        2, 2, 3, 0, 0, 0, 2, 4, 5, 0, 0, 0,
    ];
    let spots = [0, 0, 1, 0, 5, 1, 1, 3, 0, 0, 3, 0];
    let mut numbers = [9; 4];
    let joined = nets(
        rt.alloc(),
        &layout,
        &[2, 1, 0, 5, 1, 1, 2, 0, 1],
        &spots,
        &mut numbers,
    );
    assert_eq!(rt; joined, Ok(()));
    assert_eq!(rt; numbers, [1, 1, 1, 0]);
    let apart = nets(
        rt.alloc(),
        &layout,
        &[2, 0, 0, 5, 1, 1],
        &spots,
        &mut numbers,
    );
    assert_eq!(rt; apart, Ok(()));
    assert_eq!(rt; numbers, [1, 2, 3, 0]);
}

#[test]
fn refusals_leave_the_numbers(rt: HostRuntime) {
    let mut numbers = [9; 1];
    let short = nets(rt.alloc(), &CROSSED, &[2, 0, 1], &[0, 0, 2], &mut numbers);
    assert_eq!(rt; short, Err(Fault::Refused(Refusal::Technology(3))));
    let large = nets(
        rt.alloc(),
        &CROSSED,
        &[2, 0, 1, 0, 1, 1],
        &[0, 1_073_741_825, 2],
        &mut numbers,
    );
    assert_eq!(rt; large, Err(Fault::Refused(Refusal::Spots(1))));
    assert_eq!(rt; numbers, [9]);
}
