// Nodes of a layout, added one after another.
ghost use Rattle.std.specs.Prelude.{◌≡◌, length, IfOk, OnOk};
ghost use Rattle.text.specs.Sheets.{added, joined, sheet_of};

use layout::node::Node;
use std::alloc::AllocError;

/// Six numbers for each node, and the line of its statement, where it has one.
#[derive(Drop)]
pub(crate) struct Sheet {
    // Apart, since the layout entries take the numbers of all nodes as one slice.
    pub(crate) nodes: Vec<u64>,
    pub(crate) lines: Vec<Option<usize>>,
}

impl Sheet {
    /// Adds a node, and says which it is.
    pub(crate) fn add(&mut self, node: Node, line: Option<usize>) -> Result<usize, AllocError>
        ensures number { IfOk result (λ n. n ≡ length (sheet_of self.old).lines) }
        ensures after { OnOk result (sheet_of self.new ≡ added (sheet_of self.old) node line) }
    {
        let number = self.lines.len();
        self.nodes.extend_from_slice(&node.numbers())?;
        self.lines.push(line)?;
        Ok(number)
    }

    /// Puts parts together, two at a time, and says which node that is.
    pub(crate) fn join(&mut self, parts: &[usize], line: Option<usize>) -> Result<usize, AllocError>
        ensures { IfOk result (λ n. joined (sheet_of self.old) parts.now line ≡ record { sheet = sheet_of self.new; node = n }) }
    {
        let Some((first, others)) = parts.split_first() else {
            return self.add(Node::Nothing, line);
        };
        let mut node = *first;
        for part in others {
            node = self.add(Node::Both(node, *part), line)?;
        }
        Ok(node)
    }
}
