// A layout in numbers written as a text: the cells, and the statements of the last node.
ghost use Rattle.std.specs.Prelude.{◌≡◌, ℕ, ◌<◌, not, ◌&&◌, ◌++◌, IfOk, if◌then◌else◌, string_bytes, OnOk};
ghost use Rattle.layout.specs.Numbers.{sixes};
ghost use Rattle.layout_writer.specs.Cells.{has_cell};
ghost use Rattle.layout_writer.specs.Texts.{put_line, statements, cell_text, layout_text, Written};

use super::cell::has_cell;
use super::line::{box_line, change_line, copies_line, open_line, put_line};
use layout::node::Node;
use layout::nodes::Nodes;
use layout::refusal::Fault;
use std::alloc::{AllocError, Global};

/// Adds a line after a margin.
fn add_line(text: &mut String, margin: &str, line: &str) -> Result<(), AllocError>
    ensures { OnOk result (string_bytes text.new ≡ string_bytes text.old ++ (margin.now ++ line.now)) }
{
    text.push_str(margin)?;
    text.push_str(line)?;
    Ok(())
}

/// Adds the statements of a node. Where it is a part and has a cell, it is put.
fn add_node(
    heap: Global,
    text: &mut String,
    nodes: &Nodes<'_>,
    margin: &str,
    n: usize,
    part: bool,
) -> Result<(), AllocError>
    requires { n < sixes nodes.now.numbers.now }
    ensures { OnOk result ((l : ℕ) → n < l → string_bytes text.new ≡ string_bytes text.old ++ (if part && has_cell nodes.now.numbers.now n then put_line margin.now n else statements nodes.now.numbers.now margin.now l n)) }
{
    if part && has_cell(nodes, n) {
        let line = put_line(heap, n)?;
        add_line(text, margin, &line)?;
        return Ok(());
    }
    let line = match nodes.node(n) {
        Node::Nothing => return Ok(()),
        Node::Both(a, b) => {
            add_node(heap, text, nodes, margin, a, true)?;
            add_node(heap, text, nodes, margin, b, true)?;
            return Ok(());
        }
        Node::One(rect) => box_line(heap, rect)?,
        Node::Changed { by, of } => change_line(heap, by, of)?,
        Node::Row { many, far, of } => copies_line(heap, "row", many, far, of)?,
        Node::Column { many, far, of } => copies_line(heap, "column", many, far, of)?,
    };
    add_line(text, margin, &line)?;
    Ok(())
}

/// Adds the cell of a node.
fn add_cell(heap: Global, text: &mut String, nodes: &Nodes<'_>, n: usize) -> Result<(), AllocError>
    requires { n < sixes nodes.now.numbers.now }
    ensures { OnOk result (string_bytes text.new ≡ string_bytes text.old ++ cell_text nodes.now.numbers.now n) }
{
    let line = open_line(heap, n)?;
    text.push_str(&line)?;
    add_node(heap, text, nodes, "    ", n, false)?;
    text.push_str("}\n")?;
    Ok(())
}

/// The text of nodes in order, however many boxes they are.
fn text_of(heap: Global, nodes: &Nodes<'_>) -> Result<String, AllocError>
    ensures { IfOk result (λ s. string_bytes s ≡ layout_text nodes.now.numbers.now) }
{
    let many = nodes.len();
    let mut text = String::new(heap);
    for n in 0..many {
        if has_cell(nodes, n) {
            add_cell(heap, &mut text, nodes, n)?;
        }
    }
    add_node(heap, &mut text, nodes, "", many - 1, false)?;
    Ok(text)
}

/// Writes a layout as a text that reads back as the same drawing.
pub fn write_layout(heap: Global, layout: &[u64]) -> Result<String, Fault>
    ensures { Written layout.now result }
{
    let nodes = Nodes::read(layout)?;
    let text = text_of(heap, &nodes)?;
    Ok(text)
}
