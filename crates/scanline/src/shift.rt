// Lines moved to the right, where edges may pass the last column, and to the left, where they may fall together.
ghost use Rattle.std.specs.Prelude.{◌≡◌, IfOk, OnOk};
ghost use Rattle.scanline.specs.Lines.{MovedRight, MovedLeft, ends_in, Toggled};

use super::lines::Line;
use std::alloc::{AllocError, Global};

// Whether `edge` is the last one.
fn ends_in(edges: &[u64], edge: u64) -> bool
    ensures { result ≡ ends_in edge edges.now }
{
    match edges {
        [.., last] => *last == edge,
        [] => false,
    }
}

// An edge more at the end, or one fewer where it is the last already: the line turns twice there.
fn toggle(edges: &mut Vec<u64>, edge: u64) -> Result<(), AllocError>
    ensures { OnOk result (Toggled edge edges.old.items edges.new.items) }
{
    if ends_in(edges, edge) {
        let _ = edges.pop();
        return Ok(());
    }
    edges.push(edge)?;
    Ok(())
}

impl Line {
    // Each column `by` to the right; edges that no u64 names are left out.
    pub fn shift_right(&self, heap: Global, by: u64) -> Result<Line, AllocError>
        ensures { IfOk result (λ v. MovedRight by self.now.edges.items v.edges.items) }
    {
        let mut edges = Vec::with_capacity(heap, self.edges.len())?;
        for edge in &self.edges {
            let Some(moved) = edge.checked_add(by) else {
                return Ok(Line { edges });
            };
            edges.push(moved)?;
        }
        Ok(Line { edges })
    }

    // Each column `by` to the left, without those that would lie past the first: two edges that meet there are none.
    pub fn shift_left(&self, heap: Global, by: u64) -> Result<Line, AllocError>
        ensures { IfOk result (λ v. MovedLeft by self.now.edges.items v.edges.items) }
    {
        let mut edges = Vec::with_capacity(heap, self.edges.len())?;
        for edge in &self.edges {
            toggle(&mut edges, edge.saturating_sub(by))?;
        }
        Ok(Line { edges })
    }
}
