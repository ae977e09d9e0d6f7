// text_examples: prints the worked examples as texts, which are held to the file stdout beside src/.
#![tactic(auto)]

use anyhow::anyhow;
use area::area;
use circuit_text::read_circuit;
use circuits::{Comparison, compare};
use deck::fault::DeckFault;
use deck::judge_deck;
use devices::devices;
use devices::reading::Found;
use layout::refusal::Fault;
use nets::nets;
use region::regions::Region;
use rule_text::read_rules;
use rules::judge::Verdict;
use rules::judges::judge;
use std::alloc::Global;
use text::layout_text::read_layout;

// A box five by three, and one by three after a free column.
const TWO_BOXES: &str = "box 0 0 0 5 3  box 0 6 0 1 3";

// Two boxes, two by two, that touch in a corner.
const CORNER: &str = "box 0 0 0 2 2  box 0 2 2 2 2";

// Two boxes side by side, each one square wide: together they are two wide.
const SIDE_BY_SIDE: &str = "box 0 3 3 1 4  box 0 4 3 1 4";

// A box two wide, and that cell mirrored within a side of three beside it: the gap between the two is one square.
const MIRRORED: &str =
    "cell a { box 0 0 0 2 4 }  cell b { put a at 0 0  put a at 2 0 mirrored 3 }  put b at 1 1";

// A narrow box below and before a narrow one above: the first square goes by rows, not by boxes.
const LOWER_FIRST: &str = "box 0 0 9 1 5  box 0 7 2 1 5";

// A cell of two boxes that touch in a corner, turned within its side, three hundred times in a row.
const TURNED: &str =
    "cell a { box 0 0 0 3 3  box 0 3 3 1 1 }  cell b { put a at 0 0 turned 4 }  row 300 10 b";

// Layer 0, nine by three, under layer 1, one by seven.
const CROSSING: &str = "box 0 0 2 9 3  box 1 4 0 1 7";

// The same with a box of layer 2, which joins the two, under the gate.
const JOINED_UNDER: &str = "box 0 0 2 9 3  box 1 4 0 1 7  box 2 4 3 1 1";

// Wire on two layers, and a box of layer 2, which joins them, beside both.
const BESIDE: &str = "box 0 0 0 2 2  box 1 0 0 2 2  box 2 2 0 1 1";

// A box of layer 2 that lies over layer 0 in one place and over layer 1 in another.
const APART: &str = "box 0 0 0 2 1  box 1 2 0 2 1  box 2 0 0 4 1";

// The same, but for one square of both layers under it.
const OVER: &str = "box 0 0 0 3 1  box 1 2 0 2 1  box 2 0 0 4 1";

// A box of layer 2 over two wires of layer 0: they stay two, since it joins layer 0 with layer 1 only.
const BRIDGE: &str = "box 0 0 0 2 2  box 0 4 0 2 2  box 2 0 0 6 2";

// Two layers carry, and layer 2 joins them; no layer is crossed.
const JOINED: [u64; 9] = [2, 1, 1, 9, 1, 1, 2, 0, 1];

// Layer 0 carries, and layer 2 joins it with itself: at one square, which is no way to another.
const SELF_JOINED: [u64; 9] = [2, 1, 1, 9, 1, 1, 2, 0, 0];

// Two devices that share a gate, from the pin p over q to a net without a name; and the same in other words and another order.
const PAIR: &str = "pins p q\ndevice g p q\ndevice g q r";

const RENAMED: &str = "pins p q  # the same\n\ndevice b a q\ndevice b p q";

const OTHER_GATE: &str = "pins p q\ndevice g p q\ndevice r q r";

// The nodes of a layout text.
fn nodes_of(rt: &HostRuntime, text: &str) -> anyhow::Result<Vec<u64>> {
    let Ok(layout) = read_layout(rt.alloc(), text.as_bytes()) else {
        return Err(anyhow!("a layout text that can't be read"));
    };
    let nodes = layout.nodes.to_vec(rt.alloc())?;
    Ok(nodes)
}

// The first square that breaks a rule, and how many do.
fn show_broken(rt: &HostRuntime, name: &str, broken: &Region) -> anyhow::Result<()> {
    match (broken.first(), area(broken)) {
        (Some((x, y)), Some(squares)) => println!(rt; "{name}: {x} {y}, {squares} in all")?,
        (Some((x, y)), None) => println!(rt; "{name}: {x} {y}")?,
        (None, _) => println!(rt; "{name}: clean")?,
    }
    Ok(())
}

fn show(rt: &HostRuntime, name: &str, layout: &str, rules: &str) -> anyhow::Result<()> {
    let nodes = nodes_of(rt, layout)?;
    let deck = match read_rules(rt.alloc(), rules.as_bytes()) {
        Ok(deck) => deck,
        Err(Fault::Memory) => return Err(anyhow!("no memory")),
        Err(fault) => {
            println!(rt; "{name}: {fault}")?;
            return Ok(());
        }
    };
    match judge_deck(rt.alloc(), &nodes, &deck) {
        Ok(regions) => {
            for broken in &regions {
                show_broken(rt, name, broken)?;
            }
        }
        Err(DeckFault::Memory) => return Err(anyhow!("no memory")),
        Err(fault) => println!(rt; "{name}: {fault}")?,
    }
    Ok(())
}

fn rules_of_two_boxes(rt: &HostRuntime) -> anyhow::Result<()> {
    show(rt, "wide 2", TWO_BOXES, "wide 0 2")?;
    show(rt, "wide 3", TWO_BOXES, "wide 0 3")?;
    show(rt, "apart 2", TWO_BOXES, "apart 0 2")?;
    show(rt, "apart 1", TWO_BOXES, "apart 0 1")?;
    show(
        rt,
        "inside its growth, 1",
        TWO_BOXES,
        "inside 0 (0 grown 1) 1",
    )?;
    show(
        rt,
        "never the ring around",
        TWO_BOXES,
        "never ((0 grown 1) without 0)",
    )?;
    show(rt, "wide 0", TWO_BOXES, "wide 0 0")?;
    show(rt, "an unknown rule", TWO_BOXES, "wide 0 1\nwidth 0 2")
}

// The entry for one rule in numbers.
fn judge_numbers(rt: &HostRuntime, name: &str, layout: &[u64]) -> anyhow::Result<()> {
    match judge(rt.alloc(), layout, &[0, 0, 0], 0, 2) {
        Ok(Verdict::Clean) => println!(rt; "{name}: clean")?,
        Ok(Verdict::Broken(x, y)) => println!(rt; "{name}: {x} {y}")?,
        Err(fault) => println!(rt; "{name}: {fault}")?,
    }
    Ok(())
}

// What programs that only look right get wrong.
fn rules_of_others(rt: &HostRuntime) -> anyhow::Result<()> {
    show(rt, "corner wide 2", CORNER, "wide 0 2")?;
    show(rt, "corner apart 2", CORNER, "apart 0 2")?;
    show(rt, "side by side wide 2", SIDE_BY_SIDE, "wide 0 2")?;
    show(rt, "gap at the edge apart 4", SIDE_BY_SIDE, "apart 0 4")?;
    show(rt, "mirrored apart 2", MIRRORED, "apart 0 2")?;
    show(rt, "lower first wide 2", LOWER_FIRST, "wide 0 2")?;
    show(rt, "turned wide 2", TURNED, "wide 0 2")
}

fn show_nets(
    rt: &HostRuntime,
    name: &str,
    layout: &str,
    technology: &[u64],
    spots: &[u64],
) -> anyhow::Result<()> {
    let nodes = nodes_of(rt, layout)?;
    let mut numbers = vec![in rt.alloc(); 0; spots.len() / 3]?;
    match nets(rt.alloc(), &nodes, technology, spots, &mut numbers) {
        Ok(()) => println!(rt; "{name}: {numbers:?}")?,
        Err(fault) => println!(rt; "{name}: {fault}")?,
    }
    Ok(())
}

fn nets_of_joins(rt: &HostRuntime) -> anyhow::Result<()> {
    show_nets(rt, "join beside", BESIDE, &JOINED, &[0, 0, 0, 1, 0, 0])?;
    show_nets(
        rt,
        "join over each apart",
        APART,
        &JOINED,
        &[0, 0, 0, 1, 2, 0],
    )?;
    show_nets(rt, "join over both", OVER, &JOINED, &[0, 0, 0, 1, 3, 0])?;
    let two_wires = [0, 0, 0, 0, 5, 1, 0, 1, 1];
    show_nets(
        rt,
        "join over two wires of a layer",
        BRIDGE,
        &JOINED,
        &two_wires,
    )?;
    show_nets(
        rt,
        "join of a layer with itself",
        BRIDGE,
        &SELF_JOINED,
        &two_wires,
    )
}

fn nets_of_others(rt: &HostRuntime) -> anyhow::Result<()> {
    let crossed = [2, 0, 1, 0, 1, 1];
    let joined = [2, 1, 1, 0, 1, 1, 2, 0, 1];
    let plain = [2, 0, 1, 9, 1, 1];
    let spots = [0, 0, 2, 0, 8, 2, 1, 4, 0, 0, 4, 2, 0, 1, 4];
    show_nets(rt, "crossing", CROSSING, &crossed, &spots)?;
    show_nets(rt, "joined under a gate", JOINED_UNDER, &joined, &spots)?;
    show_nets(rt, "corner", CORNER, &plain, &[0, 0, 0, 0, 3, 3, 0, 1, 1])?;
    show_nets(
        rt,
        "turned",
        TURNED,
        &plain,
        &[0, 2990, 3, 0, 2991, 2, 0, 0, 3],
    )?;
    show_nets(
        rt,
        "a gate that doesn't carry",
        CORNER,
        &[1, 0, 1, 0, 1],
        &[0, 0, 0],
    )
}

fn show_devices(
    rt: &HostRuntime,
    name: &str,
    layout: &str,
    technology: &[u64],
    room: usize,
) -> anyhow::Result<()> {
    let nodes = nodes_of(rt, layout)?;
    let mut numbers = vec![in rt.alloc(); 0; room]?;
    match devices(rt.alloc(), &nodes, technology, &mut numbers) {
        Ok(Found::Devices(count)) => println!(rt; "{name}: {count}, {numbers:?}")?,
        Ok(Found::Odd(x, y)) => println!(rt; "{name}: no device at {x} {y}")?,
        Err(fault) => println!(rt; "{name}: {fault}")?,
    }
    Ok(())
}

fn devices_of_crossing(rt: &HostRuntime) -> anyhow::Result<()> {
    let crossed = [2, 0, 1, 0, 1, 1];
    show_devices(rt, "device", CROSSING, &crossed, 7)?;
    show_devices(rt, "device, too little room", CROSSING, &crossed, 5)?;
    show_devices(
        rt,
        "gate across its own layer",
        CROSSING,
        &[1, 0, 0, 0, 1],
        6,
    )
}

// A device with the numbers of its nets: its ends are asked for, and then its gate, at its channel's spot.
fn nets_of_device(rt: &HostRuntime) -> anyhow::Result<()> {
    let heap = rt.alloc();
    let nodes = nodes_of(rt, CROSSING)?;
    let technology = [2, 0, 1, 0, 1, 1];
    let mut room = [0; 6];
    // Without memory the room and the numbers are as they were, and 0 is shown.
    let _found = devices(heap, &nodes, &technology, &mut room);
    let [x, y, one_x, one_y, other_x, other_y] = room;
    let spots = [0, one_x, one_y, 0, other_x, other_y, 1, x, y];
    let mut numbers = [0; 3];
    let _numbered = nets(heap, &nodes, &technology, &spots, &mut numbers);
    let [one, other, gate] = numbers;
    println!(rt; "device {x} {y} gate {gate} ends {one} {other}")?;
    Ok(())
}

// Whether two circuit texts mean circuits that are the same.
fn compare_texts(heap: Global, first: &str, second: &str) -> Result<Comparison, Fault> {
    let a = read_circuit(heap, first.as_bytes())?;
    let b = read_circuit(heap, second.as_bytes())?;
    let named = a.pins.map_or(0, |pins| pins.many as u64);
    let nets_a = a.names.len() as u64;
    let nets_b = b.names.len() as u64;
    let comparison = compare(nets_a, nets_b, named, &a.devices, &b.devices)?;
    Ok(comparison)
}

fn show_circuits(rt: &HostRuntime, name: &str, first: &str, second: &str) -> anyhow::Result<()> {
    match compare_texts(rt.alloc(), first, second) {
        Ok(Comparison::Equal) => println!(rt; "{name}: same")?,
        Ok(Comparison::Unequal) => println!(rt; "{name}: not the same")?,
        Err(Fault::Memory) => return Err(anyhow!("no memory")),
        Err(fault) => println!(rt; "{name}: {fault}")?,
    }
    Ok(())
}

fn circuits_of_texts(rt: &HostRuntime) -> anyhow::Result<()> {
    show_circuits(rt, "a pair, renamed", PAIR, RENAMED)?;
    show_circuits(rt, "a pair, another gate", PAIR, OTHER_GATE)?;
    show_circuits(rt, "no net", "pins", "pins")?;
    show_circuits(rt, "no pins", PAIR, "# nothing\n\n")?;
    show_circuits(rt, "a device before the pins", "device g p q\npins p", PAIR)?;
    show_circuits(rt, "a pin twice", "pins p q p", PAIR)?;
    show_circuits(rt, "pins twice", "pins p\npins q", PAIR)?;
    show_circuits(rt, "a device of two nets", "pins p q\n\ndevice p q", PAIR)?;
    show_circuits(rt, "an unknown word", "pins p q\nresistor p q p", PAIR)
}

fn main(rt: HostRuntime) -> anyhow::Result<()> {
    rules_of_two_boxes(&rt)?;
    judge_numbers(
        &rt,
        "two boxes in numbers, wide 2",
        &[1, 0, 0, 0, 5, 3, 1, 0, 6, 0, 1, 3, 2, 0, 1, 0, 0, 0],
    )?;
    judge_numbers(&rt, "a cut layout", &[1, 0, 0])?;
    rules_of_others(&rt)?;
    nets_of_others(&rt)?;
    nets_of_joins(&rt)?;
    devices_of_crossing(&rt)?;
    nets_of_device(&rt)?;
    circuits_of_texts(&rt)
}
