// Netlists as they are made to be compared.
use super::random::Random;
use std::alloc::{AllocError, Global};

/// Devices in threes, the gate first, over so many nets.
#[derive(Drop)]
pub struct Netlist {
    pub nets: u64,
    pub devices: Vec<u64>,
}

// The numbers below n in an order of their own, those below `fixed` in place.
fn permutation(
    heap: Global,
    n: u64,
    fixed: u64,
    random: &mut Random,
) -> Result<Vec<u64>, AllocError> {
    let mut out: Vec<u64> = (0..n).collect(heap)?;
    for i in fixed..n {
        let j = fixed.saturating_add(random.below((i - fixed).saturating_add(1)));
        let (at, with) = (i as usize, j as usize);
        if (at < out.len()) & (with < out.len()) {
            out.swap(at, with);
        }
    }
    Ok(out)
}

impl Netlist {
    pub fn new(heap: Global, nets: u64) -> Netlist {
        Netlist {
            nets,
            devices: Vec::new(heap),
        }
    }

    pub fn add(&mut self, gate: u64, one: u64, other: u64) -> Result<(), AllocError> {
        self.devices.push(gate)?;
        self.devices.push(one)?;
        self.devices.push(other)?;
        Ok(())
    }

    // The net of a device at a place, by its new name.
    fn renamed(&self, names: &[u64], place: u64) -> u64 {
        let net = self.devices.get(place as usize).copied().unwrap_or(0);
        names.get(net as usize).copied().unwrap_or(0)
    }

    /// The same circuit, with other numbers for nets without names, its devices in another order, and ends swapped.
    pub fn shuffled(
        &self,
        heap: Global,
        named: u64,
        random: &mut Random,
    ) -> Result<Netlist, AllocError> {
        let names = permutation(heap, self.nets, named, random)?;
        let order = permutation(heap, self.devices.len() as u64 / 3, 0, random)?;
        let mut out = Netlist::new(heap, self.nets);
        for device in order.as_slice() {
            let first = device.saturating_mul(3);
            let gate = self.renamed(names.as_slice(), first);
            let one = self.renamed(names.as_slice(), first.saturating_add(1));
            let other = self.renamed(names.as_slice(), first.saturating_add(2));
            if random.below(2) == 0 {
                out.add(gate, one, other)?;
            } else {
                out.add(gate, other, one)?;
            }
        }
        Ok(out)
    }
}
