// Layout texts, read into the numbers that the layout entries take.
ghost use Rattle.std.specs.Prelude.{◌≡◌, IfOk};
ghost use Rattle.text.specs.LayoutTexts.{LayoutRead, meaning_of, pin_named};
ghost use Rattle.text.specs.Scenes.{Draws};

use super::plan::{Pin, Plan, draw_all};
use super::reader::{Reader, read_statements};
use super::sheet::Sheet;
use layout::refusal::Fault;
use std::alloc::Global;
use words::name::Names;

/// What a layout text means: nodes of six numbers, the line of each node's statement where it has one, and the pins in their order, with their names.
#[derive(Drop)]
pub struct LayoutText {
    // Apart, since the layout entries take the numbers of all nodes as one slice.
    pub nodes: Vec<u64>,
    pub lines: Vec<Option<usize>>,
    // A pin's place is the number of its name in the table that the reader made: a map beside it would only copy that table.
    pub pins: Vec<Pin>,
    pub names: Names,
}

impl LayoutText {
    /// The pin of a name.
    pub fn pin(&self, name: &[u8]) -> Option<Pin>
        ensures { result ≡ pin_named (meaning_of self.now) name.now }
    {
        self.pins.get(self.names.find(name)?).copied()
    }
}

/// Reads a layout text.
pub fn read_layout(heap: Global, text: &[u8]) -> Result<LayoutText, Fault>
    ensures read { LayoutRead text.now result }
    ensures draws { IfOk result (λ t. Draws text.now t.nodes.items) }
{
    let reader = read_statements(heap, text)?;
    let plan = draw_all(heap, reader.said.as_slice())?;
    let Reader { pins: names, .. } = reader;
    let Plan { sheet, pins, .. } = plan;
    let Sheet { nodes, lines } = sheet;
    Ok(LayoutText {
        nodes,
        lines,
        pins,
        names,
    })
}
