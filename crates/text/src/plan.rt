// Statements drawn as nodes.
ghost use Rattle.std.specs.Prelude.{◌≡◌, IfOk, OnOk, slice_index};
ghost use Rattle.text.specs.Plans.{blank, placed, drawn, moved_on, turned, closed, begun, said, all_said, last, finished, plan_of};

use super::sheet::Sheet;
use super::statement::{Said, Statement};
use layout::change::Change;
use layout::node::Node;
use layout::rect::Rect;
use std::alloc::{AllocError, Global};

/// A pin: a square of a layer that names its net.
#[derive(Clone, Copy, Debug, PartialEq)]
pub struct Pin {
    pub layer: u64,
    pub x: u64,
    pub y: u64,
}

/// A put whose turns may still follow: it is moved after them.
#[derive(Clone, Copy)]
pub(crate) struct Put {
    pub(crate) node: usize,
    pub(crate) x: u64,
    pub(crate) y: u64,
    pub(crate) line: usize,
}

/// What has been drawn so far.
#[derive(Drop)]
pub(crate) struct Plan {
    pub(crate) sheet: Sheet,
    /// The node of each cell that has ended.
    pub(crate) cells: Vec<usize>,
    /// The nodes of the text's statements.
    pub(crate) outer: Vec<usize>,
    /// The nodes of the open cell's statements, and its line. They outlive the cell, as in `Scene`, so no struct holds both.
    pub(crate) inner: Vec<usize>,
    pub(crate) within: Option<usize>,
    pub(crate) put: Option<Put>,
    pub(crate) pins: Vec<Pin>,
}

impl Plan {
    pub(crate) fn new(heap: Global) -> Plan
        ensures { plan_of result ≡ blank }
    {
        Plan {
            sheet: Sheet {
                nodes: Vec::new(heap),
                lines: Vec::new(heap),
            },
            cells: Vec::new(heap),
            outer: Vec::new(heap),
            inner: Vec::new(heap),
            within: None,
            put: None,
            pins: Vec::new(heap),
        }
    }

    /// Counts a node as a statement's, of the cell that is open or of the text.
    fn place(&mut self, node: usize) -> Result<(), AllocError>
        ensures { OnOk result (plan_of self.new ≡ placed (plan_of self.old) node) }
    {
        match self.within {
            Some(_) => self.inner.push(node)?,
            None => self.outer.push(node)?,
        }
        Ok(())
    }

    /// Adds the node of a statement.
    fn draw(&mut self, node: Node, line: usize) -> Result<(), AllocError>
        ensures { OnOk result (plan_of self.new ≡ drawn (plan_of self.old) node line) }
    {
        let number = self.sheet.add(node, Some(line))?;
        self.place(number)
    }

    /// Moves the put that waited for turns.
    fn move_on(&mut self) -> Result<(), AllocError>
        ensures { OnOk result (plan_of self.new ≡ moved_on (plan_of self.old)) }
    {
        match self.put.take() {
            Some(p) => {
                let by = Change::Move {
                    right: p.x,
                    below: p.y,
                };
                self.draw(Node::Changed { by, of: p.node }, p.line)
            }
            None => Ok(()),
        }
    }

    /// Turns or mirrors the put that waits.
    fn turn(&mut self, by: Change) -> Result<(), AllocError>
        ensures { OnOk result (plan_of self.new ≡ turned (plan_of self.old) by) }
    {
        if let Some(p) = self.put {
            let node = self
                .sheet
                .add(Node::Changed { by, of: p.node }, Some(p.line))?;
            self.put = Some(Put { node, ..p });
        }
        Ok(())
    }

    /// Ends the cell that is open.
    fn close(&mut self) -> Result<(), AllocError>
        ensures { OnOk result (plan_of self.new ≡ closed (plan_of self.old)) }
    {
        let node = self.sheet.join(self.inner.as_slice(), self.within)?;
        self.cells.push(node)?;
        self.within = None;
        Ok(())
    }

    /// The node of a cell.
    fn node_of(&self, cell: u64) -> usize
        ensures { result ≡ slice_index (plan_of self.now).cells cell }
    {
        self.cells.get(cell as usize).copied().unwrap_or(0)
    }

    /// Draws a statement.
    fn say(&mut self, statement: Statement, line: usize) -> Result<(), AllocError>
        ensures { OnOk result (plan_of self.new ≡ said (plan_of self.old) statement line) }
    {
        match statement {
            Statement::Turned { side } => self.turn(Change::Turn { side }),
            Statement::Mirrored { side } => self.turn(Change::Mirror { side }),
            _ => {
                self.move_on()?;
                self.begin(statement, line)
            }
        }
    }

    /// Draws a statement that is no turn.
    fn begin(&mut self, statement: Statement, line: usize) -> Result<(), AllocError>
        ensures { OnOk result (plan_of self.new ≡ begun (plan_of self.old) statement line) }
    {
        match statement {
            Statement::Box {
                layer,
                x,
                y,
                across,
                down,
            } => {
                let rect = Rect {
                    layer,
                    x,
                    y,
                    across,
                    down,
                };
                self.draw(Node::One(rect), line)
            }
            Statement::Cell => {
                self.inner.clear();
                self.within = Some(line);
                Ok(())
            }
            Statement::Close => self.close(),
            Statement::Put { cell, x, y } => {
                let node = self.node_of(cell);
                self.put = Some(Put { node, x, y, line });
                Ok(())
            }
            Statement::Row { many, far, cell } => {
                let of = self.node_of(cell);
                self.draw(Node::Row { many, far, of }, line)
            }
            Statement::Column { many, far, cell } => {
                let of = self.node_of(cell);
                self.draw(Node::Column { many, far, of }, line)
            }
            Statement::Pin { layer, x, y } => {
                self.pins.push(Pin { layer, x, y })?;
                Ok(())
            }
            Statement::Turned { .. } | Statement::Mirrored { .. } => Ok(()),
        }
    }

    /// Ends the text: its statements are put together, as the last node.
    fn finish(&mut self) -> Result<(), AllocError>
        ensures { OnOk result (plan_of self.new ≡ finished (plan_of self.old)) }
    {
        self.move_on()?;
        let node = self.sheet.join(self.outer.as_slice(), None)?;
        self.come_last(node)
    }

    /// The last node is the layout: a text's only statement may stand before a cell that is never put, and is then moved by nothing.
    fn come_last(&mut self, node: usize) -> Result<(), AllocError>
        ensures { OnOk result (plan_of self.new ≡ last (plan_of self.old) node) }
    {
        if node.checked_add(1) == Some(self.sheet.lines.len()) {
            return Ok(());
        }
        let by = Change::Move { right: 0, below: 0 };
        let _last = self.sheet.add(Node::Changed { by, of: node }, None)?;
        Ok(())
    }
}

/// Draws statements.
pub(crate) fn draw_all(heap: Global, said: &[Said]) -> Result<Plan, AllocError>
    ensures { IfOk result (λ v. plan_of v ≡ finished (all_said blank said.now)) }
{
    let mut plan = Plan::new(heap);
    for s in said {
        plan.say(s.statement, s.line)?;
    }
    plan.finish()?;
    Ok(plan)
}
