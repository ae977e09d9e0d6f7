// Families of circuits that tools find hard.
use super::netlist::Netlist;
use super::random::Random;
use std::alloc::{AllocError, Global};

/// Devices anywhere.
pub fn anywhere(
    heap: Global,
    nets: u64,
    devices: u64,
    random: &mut Random,
) -> Result<Netlist, AllocError> {
    let mut out = Netlist::new(heap, nets);
    for _ in 0..devices {
        let gate = random.below(nets);
        let one = random.below(nets);
        let other = random.below(nets);
        out.add(gate, one, other)?;
    }
    Ok(out)
}

/// A circuit with the gate of one device moved.
pub fn with_moved_gate(
    heap: Global,
    circuit: &Netlist,
    place: u64,
    net: u64,
) -> Result<Netlist, AllocError> {
    let mut out = Netlist::new(heap, circuit.nets);
    for (i, old) in circuit.devices.as_slice().iter().enumerate() {
        let kept = i as u64 != place;
        out.devices.push(if kept { *old } else { net })?;
    }
    Ok(out)
}

/// Rings of inverters, two devices each, between the rails 0 and 1.
pub fn inverters(heap: Global, sizes: &[u64]) -> Result<Netlist, AllocError> {
    let mut out = Netlist::new(heap, 2);
    for size in sizes {
        let first = out.nets;
        for i in 0..*size {
            let from = first.saturating_add(i);
            let to = first.saturating_add(i.saturating_add(1) % *size);
            out.add(from, 0, to)?;
            out.add(from, 1, to)?;
        }
        out.nets = first.saturating_add(*size);
    }
    Ok(out)
}

// One more cycle of devices that share the gate 0.
fn add_cycle(out: &mut Netlist, size: u64) -> Result<(), AllocError> {
    let first = out.nets;
    for i in 0..size {
        let from = first.saturating_add(i);
        let to = first.saturating_add(i.saturating_add(1) % size);
        out.add(0, from, to)?;
    }
    out.nets = first.saturating_add(size);
    Ok(())
}

/// So many six-cycles and so many three-cycles of devices that share a gate.
pub fn cycles(heap: Global, sixes: u64, threes: u64) -> Result<Netlist, AllocError> {
    let mut out = Netlist::new(heap, 1);
    for _ in 0..sixes {
        add_cycle(&mut out, 6)?;
    }
    for _ in 0..threes {
        add_cycle(&mut out, 3)?;
    }
    Ok(out)
}

// A memory cell of six devices between the rails 0 and 1.
fn memory_cell(out: &mut Netlist, select: u64, bit: u64, inverse: u64) -> Result<(), AllocError> {
    let one = out.nets;
    let other = one.saturating_add(1);
    out.add(one, 0, other)?;
    out.add(one, 1, other)?;
    out.add(other, 0, one)?;
    out.add(other, 1, one)?;
    out.add(select, bit, one)?;
    out.add(select, inverse, other)?;
    out.nets = one.saturating_add(2);
    Ok(())
}

/// An array of memory cells.
pub fn memory(heap: Global, rows: u64, columns: u64) -> Result<Netlist, AllocError> {
    let mut out = Netlist::new(
        heap,
        rows.saturating_add(columns.saturating_mul(2))
            .saturating_add(2),
    );
    for row in 0..rows {
        for column in 0..columns {
            let bit = rows
                .saturating_add(column.saturating_mul(2))
                .saturating_add(2);
            memory_cell(&mut out, row.saturating_add(2), bit, bit.saturating_add(1))?;
        }
    }
    Ok(out)
}

/// A torus, each net joined with the next of its row and of its column; the last row is shifted by a twist.
pub fn torus(heap: Global, across: u64, down: u64, twist: u64) -> Result<Netlist, AllocError> {
    let mut out = Netlist::new(heap, across.saturating_mul(down).saturating_add(1));
    if across == 0 {
        return Ok(out);
    }
    for y in 0..down {
        let row = y.saturating_mul(across).saturating_add(1);
        let last = y.saturating_add(1) == down;
        let below = if last { 1 } else { row.saturating_add(across) };
        for x in 0..across {
            let here = row.saturating_add(x);
            let under = if last {
                x.saturating_add(twist) % across
            } else {
                x
            };
            out.add(0, here, row.saturating_add(x.saturating_add(1) % across))?;
            out.add(0, here, below.saturating_add(under))?;
        }
    }
    Ok(out)
}

/// Devices side by side between the same nets.
pub fn side_by_side(heap: Global, many: u64) -> Result<Netlist, AllocError> {
    let mut out = Netlist::new(heap, 3);
    for _ in 0..many {
        out.add(2, 0, 1)?;
    }
    Ok(out)
}
