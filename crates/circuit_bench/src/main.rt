// circuit_bench: compares circuits that are hard to tell apart, the second of each pair shuffled. Answers go to standard output, times to standard error.
#![tactic(auto)]

use circuits::{Comparison, compare};
use families::{anywhere, cycles, inverters, memory, side_by_side, torus, with_moved_gate};
use graph::Graph;
use netlist::Netlist;
use random::Random;
use std::time::Instant;

mod families;
mod graph;
mod netlist;
mod random;

fn show(rt: &HostRuntime, name: &str, a: &Netlist, b: &Netlist, named: u64) -> anyhow::Result<()> {
    let mut random = Random::new(b.nets);
    let other = b.shuffled(rt.alloc(), named, &mut random)?;
    let start = Instant::now(rt)?;
    let answer = compare(
        a.nets,
        other.nets,
        named,
        a.devices.as_slice(),
        other.devices.as_slice(),
    );
    let micros = start.elapsed(rt)?.as_micros();
    match answer {
        Ok(Comparison::Equal) => println!(rt; "{name}: the same")?,
        Ok(Comparison::Unequal) => println!(rt; "{name}: not the same")?,
        Err(refusal) => {
            let place = refusal.place();
            println!(rt; "{name}: refused at {place}")?;
        }
    }
    eprintln!(rt; "{name}: {micros} us")?;
    Ok(())
}

fn show_random(rt: &HostRuntime) -> anyhow::Result<()> {
    let mut random = Random::new(1);
    let circuit = anywhere(rt.alloc(), 256, 256, &mut random)?;
    show(rt, "random, itself", &circuit, &circuit, 0)?;
    show_moved(rt, "random, a gate moved", &circuit, 300, 0)
}

// The gate at a place is moved to another net.
fn show_moved(
    rt: &HostRuntime,
    name: &str,
    circuit: &Netlist,
    place: usize,
    named: u64,
) -> anyhow::Result<()> {
    let gate = circuit.devices.get(place).copied().unwrap_or(0);
    let moved = with_moved_gate(rt.alloc(), circuit, place as u64, gate ^ 1)?;
    show(rt, name, circuit, &moved, named)
}

fn show_rings(
    rt: &HostRuntime,
    name: &str,
    first: &[u64],
    second: &[u64],
    named: u64,
) -> anyhow::Result<()> {
    let a = inverters(rt.alloc(), first)?;
    let b = inverters(rt.alloc(), second)?;
    show(rt, name, &a, &b, named)
}

fn show_inverters(rt: &HostRuntime, named: u64) -> anyhow::Result<()> {
    let rings = [40, 20, 20, 48];
    show_rings(rt, "128 inverters, themselves", &[128], &[128], named)?;
    show_rings(
        rt,
        "128 inverters, two rings of 64",
        &[128],
        &[64, 64],
        named,
    )?;
    show_rings(
        rt,
        "rings of 40 20 20 48, themselves",
        &rings,
        &rings,
        named,
    )?;
    show_rings(
        rt,
        "rings of 40 20 20 48, of 40 20 24 44",
        &rings,
        &[40, 20, 24, 44],
        named,
    )?;
    show_rings(
        rt,
        "20 rings of 6 inverters, themselves",
        &[6; 20],
        &[6; 20],
        named,
    )?;
    let with_threes = [
        6, 6, 6, 6, 6, 6, 6, 6, 6, 6, 6, 6, 6, 6, 6, 6, 6, 6, 6, 3, 3,
    ];
    show_rings(
        rt,
        "20 rings of 6 inverters, 19 and two of 3",
        &[6; 20],
        &with_threes,
        named,
    )
}

fn show_memory(rt: &HostRuntime) -> anyhow::Result<()> {
    let array = memory(rt.alloc(), 6, 7)?;
    show(rt, "6 by 7 memory cells, themselves", &array, &array, 2)?;
    // The fifth device of a cell in the middle: its row becomes another.
    show_moved(rt, "6 by 7 memory cells, one access moved", &array, 372, 2)
}

fn show_torus(rt: &HostRuntime, name: &str, twist: u64) -> anyhow::Result<()> {
    let plain = torus(rt.alloc(), 16, 8, 0)?;
    let other = torus(rt.alloc(), 16, 8, twist)?;
    show(rt, name, &plain, &other, 0)
}

// So many six-cycles and three-cycles against so many others.
fn show_cycles(
    rt: &HostRuntime,
    name: &str,
    first: (u64, u64),
    second: (u64, u64),
) -> anyhow::Result<()> {
    let a = cycles(rt.alloc(), first.0, first.1)?;
    let b = cycles(rt.alloc(), second.0, second.1)?;
    show(rt, name, &a, &b, 0)
}

fn show_plain(rt: &HostRuntime) -> anyhow::Result<()> {
    let wide = side_by_side(rt.alloc(), 256)?;
    show(rt, "256 devices side by side, themselves", &wide, &wide, 0)?;
    let bare = Netlist::new(rt.alloc(), 256);
    show(rt, "256 nets without a device, themselves", &bare, &bare, 0)
}

fn show_graph(rt: &HostRuntime, name: &str, n: u64, k: u64, twisted: bool) -> anyhow::Result<()> {
    let graph = Graph::ring_and_star(rt.alloc(), n, k)?;
    let straight = graph.circuit(rt.alloc(), false)?;
    let other = graph.circuit(rt.alloc(), twisted)?;
    show(rt, name, &straight, &other, 0)
}

fn show_graphs(rt: &HostRuntime) -> anyhow::Result<()> {
    show_graph(rt, "over the cube, itself", 4, 1, false)?;
    show_graph(rt, "over the cube, twisted", 4, 1, true)?;
    show_graph(rt, "over Petersen's graph, itself", 5, 2, false)?;
    show_graph(rt, "over Petersen's graph, twisted", 5, 2, true)?;
    show_graph(rt, "over Möbius and Kantor's graph, itself", 8, 3, false)?;
    show_graph(rt, "over Möbius and Kantor's graph, twisted", 8, 3, true)
}

fn main(rt: HostRuntime) -> anyhow::Result<()> {
    show_random(&rt)?;
    println!(rt; "Rails with names:")?;
    show_inverters(&rt, 2)?;
    println!(rt; "Rails without:")?;
    show_inverters(&rt, 0)?;
    show_memory(&rt)?;
    show_torus(&rt, "a torus of 16 by 8, itself", 0)?;
    show_torus(&rt, "a torus of 16 by 8, twisted", 2)?;
    show_cycles(
        &rt,
        "20 six-cycles and 40 three-cycles, themselves",
        (20, 40),
        (20, 40),
    )?;
    show_cycles(
        &rt,
        "20 six-cycles and 40 three-cycles, 21 and 38",
        (20, 40),
        (21, 38),
    )?;
    show_cycles(
        &rt,
        "20 rings of six, 19 and two of three",
        (20, 0),
        (19, 2),
    )?;
    show_plain(&rt)?;
    println!(rt; "Cai, Fürer and Immerman:")?;
    show_graphs(&rt)
}
