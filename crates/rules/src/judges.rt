// Rules judged.
ghost use Rattle.std.specs.Prelude.{ℕ, length, IfOk};
ghost use Rattle.layout.specs.Layout.{Drawing};
ghost use Rattle.region.specs.Firsts.{FirstOf};
ghost use Rattle.rules.specs.Rules.{breaks};
ghost use Rattle.rules.specs.Tests.{terms_of};
ghost use Rattle.rules.specs.Values.{Shown, held_rule};
ghost use Rattle.rules.specs.Judged.{LayersMarked, Judges};

use super::judge::Verdict;
use super::layers::Layers;
use super::read::read_rule;
use super::rule::Rule;
use super::term::Term;
use layout::boxes::Boxes;
use layout::layout::Layout;
use layout::refusal::Fault;
use std::alloc::{AllocError, Global};

/// How many layers a rule can name: their numbers are at most 255.
pub const LAYERS: usize = 256;

impl Rule {
    /// Marks the layers that it names.
    pub fn mark_layers(&self, wanted: &mut [bool; LAYERS])
        ensures { LayersMarked self.now wanted.old wanted.new }
    {
        for term in self.terms().iter() {
            if let Term::Layer(layer) = *term {
                wanted[layer as usize] = true;
            }
        }
    }

    /// The first square that breaks it, on layers that are swept.
    pub fn first_broken(
        &self,
        heap: Global,
        layers: &Layers,
    ) -> Result<Option<(u64, u64)>, AllocError>
        ensures { IfOk result (λ o. (d : Drawing) (m : ℕ) → Shown d m layers.now (terms_of self.now) (length (terms_of self.now)) → FirstOf (breaks d (held_rule self.now)) o) }
    {
        let region = self.broken(heap, layers)?;
        Ok(region.first())
    }
}

/// Judges a layout, in numbers, by a rule in numbers: the rule's regions, its kind and its number.
pub fn judge(
    heap: Global,
    layout: &[u64],
    regions: &[u64],
    kind: u64,
    number: u64,
) -> Result<Verdict, Fault>
    ensures { Judges layout.now regions.now kind number result }
{
    let rects = Layout::read(layout)?.boxes(heap)?;
    let rule = read_rule(regions, kind, number)?;
    let mut wanted = [false; LAYERS];
    rule.mark_layers(&mut wanted);
    let boxes = Boxes { rects: &rects };
    let layers = Layers::sweep(heap, &boxes, &wanted)?;
    match rule.first_broken(heap, &layers)? {
        Some((x, y)) => Ok(Verdict::Broken(x, y)),
        None => Ok(Verdict::Clean),
    }
}
