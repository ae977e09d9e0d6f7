// Numbers held against a limit.
ghost use Rattle.std.specs.Prelude.{◌≡◌, true, MatchOption};
ghost use Rattle.layout.specs.Checks.{FirstAbove};
ghost use Rattle.layout.specs.Numbers.{all_at_most};

/// The index of the first number above a limit.
pub fn first_above(numbers: &[u64], limit: u64) -> Option<usize>
    ensures { MatchOption result (all_at_most limit numbers.now ≡ true) (FirstAbove limit numbers.now) }
{
    numbers.iter().position(|x| *x > limit)
}
