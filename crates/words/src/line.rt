// The lines of a text.
ghost use Rattle.std.specs.Prelude.{◌≡◌, ◌+◌, ◌^◌, ◌<◌, not, length, drop, ◌==◌};
ghost use Rattle.std.specs.Iterator.{YieldsFirstRef, item_count};
ghost use Rattle.std.specs.List.{take_while};
ghost use Rattle.words.specs.Lines.{lines_of, last_line};
ghost use Rattle.words.specs.LinesLeft.{lines_left};

/// The lines of a text that are left.
#[derive(Drop)]
pub struct Lines<'a> {
    rest: Option<&'a [u8]>,
}

impl<'a> Lines<'a> {
    /// The lines of a text, without their newlines: one more than there are newlines.
    pub fn of(text: &'a [u8]) -> Lines<'a>
        ensures lines { lines_left result ≡ lines_of text.now }
        ensures few { length (lines_left result) < 2 ^ 64 }
    {
        Lines { rest: Some(text) }
    }
}

// A loop over std's `split` at a closure has no lemma that says which parts it gives.
impl<'a> Iterator for Lines<'a> {
    type Item = &'a [u8];

    ghost next_gives = { YieldsFirstRef lines_left };

    ghost remaining = { item_count lines_left };

    fn next(&mut self) -> Option<&'a [u8]> {
        let rest = self.rest?;
        let (line, after) = rest.split_at(line_length(rest));
        self.rest = match after.split_first() {
            Some((_newline, next)) => Some(next),
            None => None,
        };
        Some(line)
    }
}

/// How many bytes come before the first newline.
pub(crate) fn line_length(text: &[u8]) -> usize
    ensures { result ≡ length (take_while (λ b. not (b == 10)) text.now) }
{
    text.iter().take_while(|byte| **byte != b'\n').count()
}

/// Where the line of a place ends: at its newline, or at the text's end.
pub fn line_end(text: &[u8], from: usize) -> usize
    ensures { result ≡ from + length (take_while (λ b. not (b == 10)) (drop from text.now)) }
{
    match text.get(from..) {
        Some(rest) => from + line_length(rest),
        None => from,
    }
}

/// The number, from 0, of the last line: a newline at the very end begins no further line.
pub fn last_line(text: &[u8]) -> usize
    ensures { result ≡ last_line text.now }
{
    match text {
        [before @ .., _] => before.iter().filter(|b| **b == b'\n').count(),
        [] => 0,
    }
}
