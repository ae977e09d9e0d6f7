// A text cut into words.
ghost use Rattle.std.specs.Prelude.{◌≡◌, length, IfOk};
ghost use Rattle.std.specs.List.{take_while};
ghost use Rattle.words.specs.Words.{is_mark, is_letter, kind_of, Cut};

use crate::left::Words;
pub use crate::line::line_end;
use std::alloc::{AllocError, Global};

/// A word: its bytes, the place of the first of them in the text, and its line, counted from 0.
#[derive(Clone, Copy, Debug, PartialEq)]
pub struct Word<'a> {
    pub bytes: &'a [u8],
    pub start: usize,
    pub line: usize,
}

/// Which bytes are words of their own, with or without blanks around them.
#[derive(Clone, Copy)]
pub enum Marks {
    Plain,
    Braces,
    Parentheses,
}

/// What a byte is for.
#[derive(Clone, Copy)]
pub(crate) enum Kind {
    Newline,
    Blank,
    Comment,
    Mark,
    Letter,
}

impl Kind {
    pub(crate) fn is_letter(self) -> bool
        ensures { result ≡ is_letter self }
    {
        matches!(self, Kind::Letter)
    }
}

fn marked(marks: Marks, byte: u8) -> bool
    ensures { result ≡ is_mark marks byte }
{
    match marks {
        Marks::Plain => false,
        Marks::Braces => matches!(byte, b'{' | b'}'),
        Marks::Parentheses => matches!(byte, b'(' | b')'),
    }
}

pub(crate) fn kind_of(marks: Marks, byte: u8) -> Kind
    ensures { result ≡ kind_of marks byte }
{
    match byte {
        b'\n' => Kind::Newline,
        b' ' | b'\t' | b'\r' => Kind::Blank,
        b'#' => Kind::Comment,
        _ if marked(marks, byte) => Kind::Mark,
        _ => Kind::Letter,
    }
}

/// How many letters a text begins with.
pub(crate) fn letters_count(text: &[u8], marks: Marks) -> usize
    ensures { result ≡ length (take_while (λ b. is_letter (kind_of marks b)) text.now) }
{
    text.iter()
        .take_while(|byte| kind_of(marks, **byte).is_letter())
        .count()
}

/// The words of a text, in their order.
pub fn split<'a>(heap: Global, text: &'a [u8], marks: Marks) -> Result<Vec<Word<'a>>, AllocError>
    ensures { IfOk result (λ v. Cut marks text.now v.items) }
{
    let mut words = Vec::new(heap);
    for word in Words::of(text, marks) {
        words.push(word)?;
    }
    Ok(words)
}
