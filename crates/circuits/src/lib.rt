// Two circuits compared: the same, if their nets and devices can be paired.
#![tactic(auto)]

ghost use Rattle.circuits.specs.Comparisons.{ComparisonSays};

pub mod colour;
pub mod component;
pub mod law;
pub mod memo;
pub mod netlist;
pub mod pairing;
pub mod search;
mod table;
mod tally;

use layout::refusal::Refusal;
use netlist::{Circuit, is_circuit, read};
use pairing::{Pairing, own_partners};
use search::pairable_from;

/// What a comparison answers.
#[derive(Clone, Copy, Debug, PartialEq, Eq)]
pub enum Comparison {
    Equal,
    Unequal,
}

/// Compares two circuits, each given by how many nets it has and its devices in threes: the gate's net, then the nets of the two ends, in either order.
/// A circuit has 1 to 256 nets and up to 256 devices. Nets and devices are paired one to one; the nets below `named` have names and go with themselves.
pub fn compare(
    nets_a: u64,
    nets_b: u64,
    named: u64,
    a: &[u64],
    b: &[u64],
) -> Result<Comparison, Refusal>
    ensures { ComparisonSays nets_a nets_b named a.now b.now result }
{
    if !is_circuit(nets_a, a) {
        return Err(Refusal::Circuit(0));
    }
    if !is_circuit(nets_b, b) {
        return Err(Refusal::Circuit(1));
    }
    if named > nets_a.min(nets_b) {
        return Err(Refusal::Circuit(2));
    }
    let (room_a, room_b) = (read(a), read(b));
    let first = Circuit::new(nets_a, a, &room_a);
    let second = Circuit::new(nets_b, b, &room_b);
    let own = own_partners(named as usize);
    if pairable_from(first, second, Pairing { to: own, back: own }) {
        Ok(Comparison::Equal)
    } else {
        Ok(Comparison::Unequal)
    }
}
