// Reads the words of a layout text, one after another, into statements.
ghost use Rattle.std.specs.Prelude.{◌≡◌, OnOk};
ghost use Rattle.layout.specs.Refusals.{Follows};
ghost use Rattle.words.specs.WordsLeft.{words_left};
ghost use Rattle.text.specs.Readings.{start, inside, may_begin, new_name, value_of, closed_by, settled, begin, noted, go_on, accept, read, said_in, started, state_of, Read};

use super::keyword::{Keyword, Slot, keyword_of};
use super::statement::Said;
use arrayvec::ArrayVec;
use layout::refusal::{Fault, Refusal};
use std::alloc::{AllocError, Global};
use words::left::Words;
use words::line::last_line;
use words::name::Names;
use words::number::number;
use words::word::Marks;

/// The most words that follow the first of a statement.
const MOST: usize = 5;

/// A statement that has begun: its first word with its line, and one value for each word after it so far.
#[derive(Drop)]
pub(crate) struct Begun {
    pub(crate) keyword: Keyword,
    pub(crate) line: usize,
    pub(crate) values: ArrayVec<u64, MOST>,
}

/// What has been read so far: the statements, the names, and the statement that has begun.
#[derive(Drop)]
pub(crate) struct Reader {
    pub(crate) said: Vec<Said>,
    pub(crate) cells: Names,
    pub(crate) pins: Names,
    /// How many of the cells have ended.
    pub(crate) closed: usize,
    /// Whether a turn may follow.
    pub(crate) turning: bool,
    pub(crate) begun: Option<Begun>,
}

impl Reader {
    fn new(heap: Global) -> Reader
        ensures { state_of result ≡ start }
    {
        Reader {
            said: Vec::new(heap),
            cells: Names::new(heap),
            pins: Names::new(heap),
            closed: 0,
            turning: false,
            begun: None,
        }
    }

    /// Whether the words are inside a cell.
    fn inside(&self) -> bool
        ensures { result ≡ inside (state_of self.now) }
    {
        self.closed < self.cells.len()
    }

    /// Whether a statement may begin so.
    fn may_begin(&self, keyword: Keyword) -> bool
        ensures { result ≡ may_begin (state_of self.now) keyword }
    {
        match keyword {
            Keyword::Cell | Keyword::Pin => !self.inside(),
            Keyword::Close => self.inside(),
            Keyword::Turned | Keyword::Mirrored => self.turning,
            Keyword::Box | Keyword::Put | Keyword::Row | Keyword::Column => true,
        }
    }

    /// The value of a word that can stand in a slot: of a number itself, of a cell its number, else 0.
    fn value(&self, slot: Slot, word: &[u8]) -> Option<u64>
        ensures { result ≡ value_of (state_of self.now) slot word.now }
    {
        match slot {
            Slot::Number => number(word),
            Slot::Cell => self.ended_cell(word),
            Slot::NewCell => new_name(&self.cells, word),
            Slot::NewPin => new_name(&self.pins, word),
            Slot::At => (word == b"at".as_slice()).then_some(0),
            Slot::Open => (word == b"{".as_slice()).then_some(0),
        }
    }

    /// The number of a cell that has ended.
    fn ended_cell(&self, word: &[u8]) -> Option<u64>
        ensures { result ≡ value_of (state_of self.now) Slot.Cell word.now }
    {
        let k = self.cells.find(word)?;
        if k < self.closed {
            Some(k as u64)
        } else {
            None
        }
    }

    /// How many cells have ended after a statement.
    fn closed_by(&self, keyword: Keyword) -> usize
        ensures { result ≡ closed_by (state_of self.now) keyword }
    {
        match keyword {
            Keyword::Close if self.closed < self.cells.len() => self.closed + 1,
            _ => self.closed,
        }
    }

    /// Adds a statement that has begun, once each of its words has a value.
    fn settle(&mut self, begun: Begun) -> Result<(), AllocError>
        ensures { OnOk result (state_of self.new ≡ settled (state_of self.old) (started begun)) }
    {
        if begun.values.len() < begun.keyword.slots().len() {
            self.begun = Some(begun);
            return Ok(());
        }
        let statement = begun.keyword.statement(begun.values.as_slice());
        self.said.push(Said {
            statement,
            line: begun.line,
        })?;
        self.closed = self.closed_by(begun.keyword);
        self.turning = begun.keyword.turns();
        self.begun = None;
        Ok(())
    }

    /// Begins a statement.
    fn begin(&mut self, word: &[u8], line: usize) -> Result<(), Fault>
        ensures { Follows (begin (state_of self.old) word.now line) (state_of self.new) result }
    {
        let Some(keyword) = keyword_of(word) else {
            return Err(Fault::Refused(Refusal::Text(line)));
        };
        if !self.may_begin(keyword) {
            return Err(Fault::Refused(Refusal::Text(line)));
        }
        self.settle(Begun {
            keyword,
            line,
            values: ArrayVec::new(),
        })?;
        Ok(())
    }

    /// Keeps a new name.
    fn note(&mut self, heap: Global, slot: Slot, word: &[u8]) -> Result<(), AllocError>
        ensures { OnOk result (state_of self.new ≡ noted (state_of self.old) slot word.now) }
    {
        match slot {
            Slot::NewCell => self.cells.add(heap, word),
            Slot::NewPin => self.pins.add(heap, word),
            _ => Ok(()),
        }
    }

    /// Goes on with a statement that has begun.
    fn go_on(
        &mut self,
        heap: Global,
        mut begun: Begun,
        word: &[u8],
        line: usize,
    ) -> Result<(), Fault>
        ensures { Follows (go_on (state_of self.old) (started begun) word.now line) (state_of self.new) result }
    {
        let Some(slot) = begun.keyword.slot(begun.values.len()) else {
            return Err(Fault::Refused(Refusal::Text(line)));
        };
        let Some(value) = self.value(slot, word) else {
            return Err(Fault::Refused(Refusal::Text(line)));
        };
        self.note(heap, slot, word)?;
        begun.values.push(value);
        self.settle(begun)?;
        Ok(())
    }

    /// Takes one word more, or says that it can't stand here.
    fn accept(&mut self, heap: Global, word: &[u8], line: usize) -> Result<(), Fault>
        ensures { Follows (accept (state_of self.old) word.now line) (state_of self.new) result }
    {
        match self.begun.take() {
            None => self.begin(word, line),
            Some(begun) => self.go_on(heap, begun, word, line),
        }
    }
}

/// Reads the words of a text, one after another: a list of them would take more memory than the text.
fn read(heap: Global, words: Words<'_>) -> Result<Reader, Fault>
    ensures { Read (read start (words_left words.entry)) result }
{
    let mut reader = Reader::new(heap);
    for word in words {
        reader.accept(heap, word.bytes, word.line)?;
    }
    Ok(reader)
}

/// Reads a text to its end.
pub(crate) fn read_statements(heap: Global, text: &[u8]) -> Result<Reader, Fault>
    ensures { Read (said_in text.now) result }
{
    let reader = read(heap, Words::of(text, Marks::Braces))?;
    if reader.begun.is_some() | reader.inside() {
        return Err(Fault::Refused(Refusal::Text(last_line(text))));
    }
    Ok(reader)
}

/// 0 for a name that is new.
fn new_name(names: &Names, word: &[u8]) -> Option<u64>
    ensures { result ≡ new_name names.now word.now }
{
    match word {
        b"{" | b"}" => None,
        _ => match names.find(word) {
            Some(_) => None,
            None => Some(0),
        },
    }
}
