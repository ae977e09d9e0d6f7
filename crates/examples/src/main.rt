// examples: prints the worked examples, which are held to the file stdout beside src/.
#![tactic(auto)]

use layout::refusal::Fault;
use nets::nets;
use rules::judge::Verdict;
use rules::judges::judge;

// Two boxes of layer 0: five by three from 0, 0, and one by three from 6, 0.
const TWO_BOXES: [u64; 18] = [1, 0, 0, 0, 5, 3, 1, 0, 6, 0, 1, 3, 2, 0, 1, 0, 0, 0];

// Two boxes of layer 0, two by two, that touch in a corner.
const CORNER: [u64; 18] = [1, 0, 0, 0, 2, 2, 1, 0, 2, 2, 2, 2, 2, 0, 1, 0, 0, 0];

// Two boxes of layer 0 side by side, each one square wide: together they are two wide.
const SIDE_BY_SIDE: [u64; 18] = [1, 0, 3, 3, 1, 4, 1, 0, 4, 3, 1, 4, 2, 0, 1, 0, 0, 0];

// Layer 0, nine by three from 0, 2, under layer 1, one by seven from 4, 0.
const CROSSING: [u64; 18] = [1, 0, 0, 2, 9, 3, 1, 1, 4, 0, 1, 7, 2, 0, 1, 0, 0, 0];

// A box two wide, and that cell mirrored within a side of three beside it: the gap between the two is one square.
const MIRRORED: [u64; 30] = [
    1, 0, 0, 0, 2, 4, 5, 3, 0, 0, 0, 0, 3, 2, 0, 1, 0, 0, 2, 0, 2, 0, 0, 0, 3, 1, 1, 3, 0, 0,
];

// A narrow box below and before a narrow one above: the first square goes by rows, not by boxes.
const LOWER_FIRST: [u64; 18] = [1, 0, 0, 9, 1, 5, 1, 0, 7, 2, 1, 5, 2, 0, 1, 0, 0, 0];

// A cell of two boxes that touch in a corner, turned within its side, three hundred times in a row.
const TURNED: [u64; 30] = [
    1, 0, 0, 0, 3, 3, 1, 0, 3, 3, 1, 1, 2, 0, 1, 0, 0, 0, 4, 4, 2, 0, 0, 0, 6, 300, 10, 3, 0, 0,
];

// Wire on two layers, and a box of layer 2, which joins them, beside both.
const BESIDE: [u64; 30] = [
    1, 0, 0, 0, 2, 2, 1, 1, 0, 0, 2, 2, 1, 2, 2, 0, 1, 1, 2, 0, 1, 0, 0, 0, 2, 2, 3, 0, 0, 0,
];

// A box of layer 2 that lies over layer 0 in one place and over layer 1 in another.
const APART: [u64; 30] = [
    1, 0, 0, 0, 2, 1, 1, 1, 2, 0, 2, 1, 1, 2, 0, 0, 4, 1, 2, 0, 1, 0, 0, 0, 2, 2, 3, 0, 0, 0,
];

// The same, but for one square of both layers under it.
const OVER: [u64; 30] = [
    1, 0, 0, 0, 3, 1, 1, 1, 2, 0, 2, 1, 1, 2, 0, 0, 4, 1, 2, 0, 1, 0, 0, 0, 2, 2, 3, 0, 0, 0,
];

// Two layers carry, and layer 2 joins them; no layer is crossed.
const JOINED: [u64; 9] = [2, 1, 1, 9, 1, 1, 2, 0, 1];

fn show(rt: &HostRuntime, name: &str, verdict: Result<Verdict, Fault>) -> anyhow::Result<()> {
    match verdict {
        Ok(Verdict::Clean) => println!(rt; "{name}: clean")?,
        Ok(Verdict::Broken(x, y)) => println!(rt; "{name}: {x} {y}")?,
        Err(fault) => println!(rt; "{name}: {fault}")?,
    }
    Ok(())
}

fn rules_of_two_boxes(rt: &HostRuntime) -> anyhow::Result<()> {
    let heap = rt.alloc();
    let layer = [0, 0, 0];
    let grown = [0, 0, 0, 0, 0, 0, 4, 1, 0];
    let ring = [0, 0, 0, 4, 1, 0, 3, 1, 0];
    show(rt, "wide 2", judge(heap, &TWO_BOXES, &layer, 0, 2))?;
    show(rt, "wide 3", judge(heap, &TWO_BOXES, &layer, 0, 3))?;
    show(rt, "apart 2", judge(heap, &TWO_BOXES, &layer, 1, 2))?;
    show(rt, "apart 1", judge(heap, &TWO_BOXES, &layer, 1, 1))?;
    show(
        rt,
        "inside its growth, 1",
        judge(heap, &TWO_BOXES, &grown, 2, 1),
    )?;
    show(
        rt,
        "never the ring around",
        judge(heap, &TWO_BOXES, &ring, 3, 0),
    )?;
    show(rt, "wide 0", judge(heap, &TWO_BOXES, &layer, 0, 0))?;
    show(rt, "a cut layout", judge(heap, &[1, 0, 0], &layer, 0, 2))
}

// What programs that only look right get wrong.
fn rules_of_others(rt: &HostRuntime) -> anyhow::Result<()> {
    let heap = rt.alloc();
    let layer = [0, 0, 0];
    show(rt, "corner wide 2", judge(heap, &CORNER, &layer, 0, 2))?;
    show(rt, "corner apart 2", judge(heap, &CORNER, &layer, 1, 2))?;
    show(
        rt,
        "side by side wide 2",
        judge(heap, &SIDE_BY_SIDE, &layer, 0, 2),
    )?;
    show(
        rt,
        "gap at the edge apart 4",
        judge(heap, &SIDE_BY_SIDE, &layer, 1, 4),
    )?;
    show(rt, "mirrored apart 2", judge(heap, &MIRRORED, &layer, 1, 2))?;
    show(
        rt,
        "lower first wide 2",
        judge(heap, &LOWER_FIRST, &layer, 0, 2),
    )?;
    show(rt, "turned wide 2", judge(heap, &TURNED, &layer, 0, 2))
}

fn show_nets(
    rt: &HostRuntime,
    name: &str,
    layout: &[u64],
    technology: &[u64],
    spots: &[u64],
) -> anyhow::Result<()> {
    let mut numbers = vec![in rt.alloc(); 0; spots.len() / 3]?;
    match nets(rt.alloc(), layout, technology, spots, &mut numbers) {
        Ok(()) => println!(rt; "{name}: {numbers:?}")?,
        Err(fault) => println!(rt; "{name}: {fault}")?,
    }
    Ok(())
}

fn nets_of_joins(rt: &HostRuntime) -> anyhow::Result<()> {
    show_nets(rt, "join beside", &BESIDE, &JOINED, &[0, 0, 0, 1, 0, 0])?;
    show_nets(
        rt,
        "join over each apart",
        &APART,
        &JOINED,
        &[0, 0, 0, 1, 2, 0],
    )?;
    show_nets(rt, "join over both", &OVER, &JOINED, &[0, 0, 0, 1, 3, 0])
}

fn main(rt: HostRuntime) -> anyhow::Result<()> {
    rules_of_two_boxes(&rt)?;
    rules_of_others(&rt)?;
    let crossed = [2, 0, 1, 0, 1, 1];
    let plain = [2, 0, 1, 9, 1, 1];
    show_nets(
        &rt,
        "crossing",
        &CROSSING,
        &crossed,
        &[0, 0, 2, 0, 8, 2, 1, 4, 0, 0, 4, 2, 0, 1, 4],
    )?;
    show_nets(&rt, "corner", &CORNER, &plain, &[0, 0, 0, 0, 3, 3, 0, 1, 1])?;
    show_nets(
        &rt,
        "turned",
        &TURNED,
        &plain,
        &[0, 2990, 3, 0, 2991, 2, 0, 0, 3],
    )?;
    nets_of_joins(&rt)?;
    show_nets(
        &rt,
        "a gate that doesn't carry",
        &CORNER,
        &[1, 0, 1, 0, 1],
        &[0, 0, 0],
    )
}
