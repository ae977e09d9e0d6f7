// Terms read from numbers.
ghost use Rattle.std.specs.Prelude.{◌≡◌, ◌+◌, ◌*◌, ◌<◌, ◌≤◌};
ghost use Rattle.rules.specs.Terms.{Reads, TwoEarlier, Under};

use super::term::Term;
use layout::refusal::Refusal;

/// The largest number of a rule, and of a region of it.
pub const MAX_NUMBER: u64 = 255;

// A number that has to lie under a limit; its place is where it stands among the rule's numbers.
pub(crate) fn under(limit: u64, number: u64, place: usize) -> Result<u64, Refusal>
    ensures { Under limit number place result }
{
    if number >= limit {
        return Err(Refusal::Region(place));
    }
    Ok(number)
}

// Two terms before term `n`.
fn two_earlier(n: usize, first: u64, second: u64) -> Result<(usize, usize), Refusal>
    requires { n ≤ 16 }
    ensures { TwoEarlier n first second result }
{
    let a = under(n as u64, first, 3 * n + 1)?;
    let b = under(n as u64, second, 3 * n + 2)?;
    Ok((a as usize, b as usize))
}

// The term of the three numbers of region `n`, or the first of them that can't stand there.
pub fn read_term(n: usize, kind: u64, first: u64, second: u64) -> Result<Term, Refusal>
    requires { n ≤ 16 }
    ensures { Reads n kind first second result }
{
    match kind {
        0 => {
            let layer = under(MAX_NUMBER + 1, first, 3 * n + 1)?;
            under(MAX_NUMBER + 1, second, 3 * n + 2)?;
            Ok(Term::Layer(layer))
        }
        1 => {
            let (a, b) = two_earlier(n, first, second)?;
            Ok(Term::And(a, b))
        }
        2 => {
            let (a, b) = two_earlier(n, first, second)?;
            Ok(Term::Or(a, b))
        }
        3 => {
            let (a, b) = two_earlier(n, first, second)?;
            Ok(Term::Without(a, b))
        }
        4 => {
            let by = under(MAX_NUMBER + 1, first, 3 * n + 1)?;
            let of = under(n as u64, second, 3 * n + 2)?;
            Ok(Term::Grown {
                by,
                of: of as usize,
            })
        }
        _ => Err(Refusal::Region(3 * n)),
    }
}
