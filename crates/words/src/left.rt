// The words of a text, one after another.
ghost use Rattle.std.specs.Prelude.{◌≡◌, ◌-◌, ◌≤◌, length, drop};

use crate::line::line_length;
use crate::word::{Kind, Marks, Word, kind_of, letters_count};

/// The words of a text that are left.
#[derive(Drop)]
pub struct Words<'a> {
    text: &'a [u8],
    rest: &'a [u8],
    marks: Marks,
    line: usize,
    ghost long: { length rest.now ≤ length text.now },
    ghost suffix: { rest.now ≡ drop (length text.now - length rest.now) text.now },
    ghost lines: { line ≤ length text.now - length rest.now },
}

impl<'a> Words<'a> {
    ghost use Rattle.words.specs.Words.{words_of};
    ghost use Rattle.words.specs.WordsLeft.{words_left, Skips};

    /// The words of a text, in their order.
    pub fn of(text: &'a [u8], marks: Marks) -> Words<'a>
        ensures words { words_left result ≡ words_of marks text.now }
        ensures text { result.text.now ≡ text.now }
    {
        Words {
            text,
            rest: text,
            marks,
            line: 0,
        }
    }

    /// Goes past what comes before the next word.
    fn skip(&mut self)
        ensures { Skips self.old self.new }
    {
        while let Some((byte, after)) = self.rest.split_first() {
            match kind_of(self.marks, *byte) {
                Kind::Newline => {
                    self.line += 1;
                    self.rest = after;
                }
                Kind::Blank => self.rest = after,
                Kind::Comment => {
                    let (_, after) = self.rest.split_at(line_length(self.rest));
                    self.rest = after;
                }
                Kind::Mark | Kind::Letter => return,
            }
        }
    }
}

impl<'a> Iterator for Words<'a> {
    ghost use Rattle.std.specs.Iterator.{item_count};
    ghost use Rattle.words.specs.WordsLeft.{words_left, Gives};

    type Item = Word<'a>;

    ghost next_gives = { Gives };

    ghost remaining = { item_count words_left };

    fn next(&mut self) -> Option<Word<'a>> {
        self.skip();
        let (first, _) = self.rest.split_first()?;
        let length = if kind_of(self.marks, *first).is_letter() {
            letters_count(self.rest, self.marks)
        } else {
            1
        };
        let (bytes, after) = self.rest.split_at(length);
        let start = self.text.len() - self.rest.len();
        self.rest = after;
        Some(Word {
            bytes,
            start,
            line: self.line,
        })
    }
}
