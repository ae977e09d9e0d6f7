// Rules read from numbers, or turned away.
ghost use Rattle.std.specs.Prelude.{◌≡◌, ◌*◌, ◌≤◌, length};
ghost use Rattle.rules.specs.Tests.{Side, Tests, Terms, RulesRead};

pub use super::rule::MAX_REGIONS;
use super::rule::{Rule, Test};
use super::term::Term;
use super::terms::{MAX_NUMBER, read_term, under};
use layout::refusal::Refusal;

// A number that may not be 0.
fn side(number: u64, place: usize) -> Result<u64, Refusal>
    ensures { Side number place result }
{
    if number == 0 {
        return Err(Refusal::Region(place));
    }
    under(MAX_NUMBER + 1, number, place)
}

// The test of a rule's kind and number, which stand at a place and after it.
fn read_test(kind: u64, number: u64, at: usize) -> Result<Test, Refusal>
    requires { at ≤ 48 }
    ensures { Tests kind number at result }
{
    match kind {
        0 => Ok(Test::Wide(side(number, at + 1)?)),
        1 => Ok(Test::Apart(side(number, at + 1)?)),
        2 => Ok(Test::Inside(under(MAX_NUMBER + 1, number, at + 1)?)),
        3 => {
            under(MAX_NUMBER + 1, number, at + 1)?;
            Ok(Test::Never)
        }
        _ => Err(Refusal::Region(at)),
    }
}

// The terms of the regions.
fn read_terms(regions: &[u64], len: usize) -> Result<[Term; MAX_REGIONS], Refusal>
    requires len { length regions.now ≡ 3 * len }
    requires few { len ≤ 16 }
    ensures { Terms regions.now len result }
{
    let mut terms = [Term::default(); MAX_REGIONS];
    for n in 0..len {
        let term = read_term(n, regions[3 * n], regions[3 * n + 1], regions[3 * n + 2])?;
        terms[n] = term;
    }
    Ok(terms)
}

/// A rule of its numbers, or why they are turned away.
pub fn read_rule(regions: &[u64], kind: u64, number: u64) -> Result<Rule, Refusal>
    ensures { RulesRead regions.now kind number result }
{
    let count = regions.len();
    let least = if kind == 2 { 2 } else { 1 };
    let len = count / 3;
    if (count % 3 != 0) | (len < least) | (len > MAX_REGIONS) {
        return Err(Refusal::Regions(count));
    }
    let terms = read_terms(regions, len)?;
    let test = read_test(kind, number, 3 * len)?;
    Ok(Rule { terms, len, test })
}
