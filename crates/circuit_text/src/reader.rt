// Circuit texts: one statement to a line.
ghost use Rattle.circuit_text.specs.CircuitTexts.{LinesRead, CircuitRead};

use super::circuit::CircuitText;
use layout::refusal::{Fault, Refusal};
use std::alloc::Global;
use words::line::{Lines, last_line};
use words::name::Names;

// All lines, one after another.
fn read_lines(heap: Global, text: &[u8]) -> Result<CircuitText, Fault>
    ensures { LinesRead text.now result }
{
    let mut circuit = CircuitText {
        names: Names::new(heap),
        pins: None,
        devices: Vec::new(heap),
    };
    for (line, row) in Lines::of(text).enumerate() {
        circuit.read_line(heap, row, line)?;
    }
    Ok(circuit)
}

/// Reads a circuit text. One that never names its pins ends too early.
pub fn read_circuit(heap: Global, text: &[u8]) -> Result<CircuitText, Fault>
    ensures { CircuitRead text.now result }
{
    let circuit = read_lines(heap, text)?;
    if circuit.pins.is_none() {
        return Err(Fault::Refused(Refusal::Text(last_line(text))));
    }
    Ok(circuit)
}
