// A set of numbers, as the edges at which it begins and ends.
ghost use Rattle.std.specs.Prelude.{◌≡◌, ℕ, ◌<◌, not, List, [], ◌∷◌, IfOk};
ghost use Rattle.scanline.specs.Lines.{inside, Sorted, toggled};

use std::alloc::{AllocError, Global};

#[derive(Debug, Drop, PartialEq, Eq)]
pub struct Line {
    pub(crate) edges: Vec<u64>,
    ghost sorted: { Sorted edges.items },
}

impl Clone for Line {
    ghost is_clone = { λ a b. b.edges.items ≡ a.edges.items };

    fn clone(&self) -> Result<Line, AllocError> {
        let edges = self.edges.clone()?;
        Ok(Line { edges })
    }
}

impl Line {
    pub fn empty(heap: Global) -> Line
        ensures { result.edges.items ≡ [] }
    {
        Line {
            edges: Vec::new(heap),
        }
    }

    pub fn interval(heap: Global, from: u64, to: u64) -> Result<Line, AllocError>
        requires { from < to }
        ensures { IfOk result (λ v. v.edges.items ≡ from ∷ to ∷ []) }
    {
        let edges = vec![in heap; from, to]?;
        Ok(Line { edges })
    }

    // All columns from one on.
    pub fn ray(heap: Global, from: u64) -> Result<Line, AllocError>
        ensures { IfOk result (λ v. v.edges.items ≡ from ∷ []) }
    {
        let edges = vec![in heap; from]?;
        Ok(Line { edges })
    }

    // The set that begins and ends at strictly increasing edges.
    pub fn of_edges(edges: Vec<u64>) -> Line
        requires { Sorted edges.items }
        ensures { result.edges.items ≡ edges.items }
    {
        Line { edges }
    }

    pub fn edges(&self) -> &[u64]
        ensures { result.now ≡ self.now.edges.items }
    {
        self.edges.as_slice()
    }

    pub fn contains(&self, x: u64) -> bool
        ensures { result ≡ inside self.now.edges.items x }
    {
        self.edges.partition_point(|edge| *edge <= x) % 2 == 1
    }

    // All that is not in the line.
    pub fn complement(&self, heap: Global) -> Result<Line, AllocError>
        ensures { IfOk result (λ v. (x : ℕ) → inside v.edges.items x ≡ not (inside self.now.edges.items x)) }
    {
        let edges = toggle_first(heap, self.edges.as_slice())?;
        Ok(Line { edges })
    }
}

// The edges with one at 0 more, or one at 0 fewer.
fn toggle_first(heap: Global, edges: &[u64]) -> Result<Vec<u64>, AllocError>
    ensures { IfOk result (λ v. v.items ≡ toggled edges.now) }
{
    if let [0, rest @ ..] = edges {
        return Vec::from_slice(heap, rest);
    }
    let mut out = Vec::new(heap);
    out.push(0)?;
    out.extend_from_slice(edges)?;
    Ok(out)
}
