// The terms of a rule evaluated, each once.
ghost use Rattle.std.specs.Prelude.{◌≡◌, ℕ, true, length, IfOk, vec_len};
ghost use Rattle.layout.specs.Layout.{Drawing};
ghost use Rattle.rules.specs.Terms.{Names};
ghost use Rattle.rules.specs.Tests.{terms_of};
ghost use Rattle.rules.specs.Values.{Needed, Shown, Evaluated, TermDone, Breaking};

use super::broken::{close, narrow, shallow};
use super::layers::Layers;
use super::rule::{MAX_REGIONS, Rule, Test};
use super::term::Term;
use blocks::grow;
use region::regions::Region;
use scanline::Op;
use std::alloc::{AllocError, Global};

// The region of a term, from those of the terms that it names.
fn evaluate_term(
    heap: Global,
    layers: &Layers,
    done: &[Region],
    term: Term,
) -> Result<Region, AllocError>
    requires { Names (length done.now) term }
    ensures { IfOk result (λ v. TermDone layers.now done.now term v) }
{
    match term {
        Term::Layer(layer) => layers.region(heap, layer),
        Term::And(a, b) => done[a].combine(heap, Op::And, &done[b]),
        Term::Or(a, b) => done[a].combine(heap, Op::Or, &done[b]),
        Term::Without(a, b) => done[a].combine(heap, Op::Without, &done[b]),
        Term::Grown { by, of } => grow(heap, &done[of], by),
    }
}

// The region of a term. One that is not needed stays empty: no term that is needed names it.
fn evaluate_needed(
    heap: Global,
    layers: &Layers,
    done: &[Region],
    term: Term,
    need: bool,
) -> Result<Region, AllocError>
    requires { Names (length done.now) term }
    ensures { IfOk result (λ v. need ≡ true → TermDone layers.now done.now term v) }
{
    if need {
        evaluate_term(heap, layers, done, term)
    } else {
        Ok(Region::empty(heap))
    }
}

impl Rule {
    // The regions of the terms in their order, those that are not needed left empty.
    fn evaluate_terms(
        &self,
        heap: Global,
        layers: &Layers,
        need: &[bool; MAX_REGIONS],
    ) -> Result<Vec<Region>, AllocError>
        requires { Needed self.now need.now }
        ensures long { IfOk result (λ v. vec_len v ≡ length (terms_of self.now)) }
        ensures values { IfOk result (λ v. (d : Drawing) (m : ℕ) → Shown d m layers.now (terms_of self.now) (length (terms_of self.now)) → Evaluated d (terms_of self.now) need.now (length (terms_of self.now)) v.items) }
    {
        let mut done = Vec::new(heap);
        for (n, term) in self.terms().iter().enumerate() {
            let region = evaluate_needed(heap, layers, done.as_slice(), *term, need[n])?;
            done.push(region)?;
        }
        Ok(done)
    }

    // The squares that break it.
    pub fn broken(&self, heap: Global, layers: &Layers) -> Result<Region, AllocError>
        ensures { IfOk result (Breaking layers.now self.now) }
    {
        let need = self.needed();
        let done = self.evaluate_terms(heap, layers, &need)?;
        let last = &done[done.len() - 1];
        match self.test {
            Test::Wide(side) => narrow(heap, last, side),
            Test::Apart(side) => close(heap, last, side),
            Test::Inside(by) => shallow(heap, &done[done.len() - 2], last, by),
            Test::Never => last.clone(),
        }
    }
}
