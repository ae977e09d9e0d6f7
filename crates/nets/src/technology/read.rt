// Technologies read from numbers, and decoded.
ghost use Rattle.std.specs.Prelude.{◌≡◌, ◌+◌, ◌*◌, ◌≤◌, length, IfOk};
ghost use Rattle.nets.specs.Technologies.{technology_in, technology_ok};
ghost use Rattle.nets.specs.Processes.{marks_of, joins_of, technology_of, TechnologyRead};

use super::Technology;
use crate::limit::{MAX_JOINS, MAX_LAYERS};
use crate::process::{Join, Process};
use layout::number::first_above;
use layout::refusal::Refusal;
use std::alloc::{AllocError, Global};

// Whether a technology in numbers is taken.
fn is_sound(numbers: &[u64]) -> bool
    ensures { result ≡ technology_ok numbers.now }
{
    if numbers.len() < 4 {
        return false;
    }
    let layers = numbers[0];
    let joins = numbers[1];
    let gate = numbers[2];
    if layers > MAX_LAYERS {
        return false;
    }
    if joins > MAX_JOINS {
        return false;
    }
    if numbers.len() as u64 != 4 + layers + 3 * joins {
        return false;
    }
    if gate >= layers {
        return false;
    }
    if numbers[4 + gate as usize] != 1 {
        return false;
    }
    first_above(&numbers[4..4 + layers as usize], 1).is_none()
}

// Which layers are marked.
fn read_marks(heap: Global, numbers: &[u64], layers: usize) -> Result<Vec<bool>, AllocError>
    requires { 4 + layers ≤ length numbers.now }
    ensures { IfOk result (λ v. v.items ≡ marks_of numbers.now layers) }
{
    let mut marks = Vec::new(heap);
    for layer in 0..layers {
        marks.push(numbers[4 + layer] == 1)?;
    }
    Ok(marks)
}

// The joins, which stand in threes.
fn read_joins(
    heap: Global,
    numbers: &[u64],
    from: usize,
    count: usize,
) -> Result<Vec<Join>, AllocError>
    requires { from + 3 * count ≤ length numbers.now }
    ensures { IfOk result (λ v. v.items ≡ joins_of numbers.now from count) }
{
    let mut joins = Vec::new(heap);
    for n in 0..count {
        let at = from + 3 * n;
        joins.push(Join {
            by: numbers[at],
            one: numbers[at + 1],
            other: numbers[at + 2],
        })?;
    }
    Ok(joins)
}

impl<'a> Technology<'a> {
    /// The technology of numbers, or the refusal where they are none.
    pub fn read(numbers: &'a [u64]) -> Result<Technology<'a>, Refusal>
        ensures { TechnologyRead numbers.now result }
    {
        if !is_sound(numbers) {
            return Err(Refusal::Technology(numbers.len()));
        }
        Ok(Technology { numbers })
    }

    /// Decoded.
    pub fn process(&self, heap: Global) -> Result<Process, AllocError>
        ensures { IfOk result (λ p. technology_of p ≡ technology_in self.now.numbers.now) }
    {
        let layers = self.numbers[0] as usize;
        let carries = read_marks(heap, self.numbers, layers)?;
        let joins = read_joins(heap, self.numbers, 4 + layers, self.numbers[1] as usize)?;
        Ok(Process {
            carries,
            joins,
            gate: self.numbers[2],
            crossed: self.numbers[3],
        })
    }
}
