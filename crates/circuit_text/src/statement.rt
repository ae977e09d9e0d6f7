// The statements of a circuit text.
ghost use Rattle.std.specs.Prelude.{◌≡◌, map, IfOk, OnOk};
ghost use Rattle.layout.specs.Refusals.{Follows};
ghost use Rattle.circuit_text.specs.Circuits.{circuit_of, net_of, with_net, named_by, spelled};
ghost use Rattle.circuit_text.specs.Statements.{pinned, joined, stated};

use super::circuit::{CircuitText, Pins};
use layout::refusal::{Fault, Refusal};
use std::alloc::{AllocError, Global};
use words::word::{Marks, Word, split};

impl CircuitText {
    // The net of a name, a new one where it is new.
    fn net(&mut self, heap: Global, name: &[u8]) -> Result<u64, AllocError>
        ensures number { IfOk result (λ n. n ≡ net_of self.old.names name.now) }
        ensures after { OnOk result (circuit_of self.new ≡ named_by (circuit_of self.old) (with_net self.old.names name.now)) }
    {
        if let Some(net) = self.names.find(name) {
            return Ok(net as u64);
        }
        let net = self.names.len();
        self.names.add(heap, name)?;
        Ok(net as u64)
    }

    // The pins: once, and each name once.
    fn read_pins(&mut self, heap: Global, words: &[Word], line: usize) -> Result<(), Fault>
        ensures { Follows (pinned line (circuit_of self.old) (spelled words.now)) (circuit_of self.new) result }
    {
        if self.pins.is_some() {
            return Err(Fault::Refused(Refusal::Text(line)));
        }
        for word in words {
            let name = word.bytes;
            if self.names.find(name).is_some() {
                return Err(Fault::Refused(Refusal::Text(line)));
            }
            self.names.add(heap, name)?;
        }
        self.pins = Some(Pins {
            many: words.len(),
            line,
        });
        Ok(())
    }

    // A device, after the pins: three nets by name.
    fn read_device(&mut self, heap: Global, words: &[Word], line: usize) -> Result<(), Fault>
        ensures { Follows (joined line (circuit_of self.old) (spelled words.now)) (circuit_of self.new) result }
    {
        if self.pins.is_none() {
            return Err(Fault::Refused(Refusal::Text(line)));
        }
        let [gate, one, other] = words else {
            return Err(Fault::Refused(Refusal::Text(line)));
        };
        let gate = self.net(heap, gate.bytes)?;
        let one = self.net(heap, one.bytes)?;
        let other = self.net(heap, other.bytes)?;
        self.devices.extend_from_slice(&[gate, one, other])?;
        Ok(())
    }

    /// One line, which may say nothing.
    pub fn read_line(&mut self, heap: Global, text: &[u8], line: usize) -> Result<(), Fault>
        ensures { Follows (stated line (circuit_of self.old) text.now) (circuit_of self.new) result }
    {
        let words = split(heap, text, Marks::Plain)?;
        let Some((keyword, rest)) = words.split_first() else {
            return Ok(());
        };
        match keyword.bytes {
            b"pins" => self.read_pins(heap, rest, line),
            b"device" => self.read_device(heap, rest, line),
            _ => Err(Fault::Refused(Refusal::Text(line))),
        }
    }
}
