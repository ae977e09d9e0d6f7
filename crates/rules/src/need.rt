// Which terms of a rule the meant ones need.
ghost use Rattle.std.specs.Prelude.{◌≡◌, ℕ, ◌<◌, ◌≤◌, length};
ghost use Rattle.rules.specs.Terms.{Names};
ghost use Rattle.rules.specs.Values.{Marked, Needed};

use super::rule::{MAX_REGIONS, Rule, Test};
use super::term::Term;

// Marks the terms that a term names.
fn mark(need: &mut [bool], term: Term, n: usize)
    requires names { Names n term }
    requires within { n ≤ length need.old }
    ensures { Marked n term need.old need.new }
{
    match term {
        Term::Layer(_) => {}
        Term::And(a, b) | Term::Or(a, b) | Term::Without(a, b) => {
            need[a] = true;
            need[b] = true;
        }
        Term::Grown { by: _, of } => need[of] = true,
    }
}

impl Rule {
    // The terms that have to be evaluated: from the last on, what a needed term names is needed too.
    pub fn needed(&self) -> [bool; MAX_REGIONS]
        ensures { Needed self.now result }
    {
        let mut need = [false; MAX_REGIONS];
        let terms = self.terms();
        let len = terms.len();
        need[len - 1] = true;
        if let Test::Inside(_) = self.test {
            need[len - 2] = true;
        }
        for n in (0..len).rev() {
            if need[n] {
                mark(&mut need, terms[n], n);
            }
        }
        need
    }
}
