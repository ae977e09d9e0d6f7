// Rules as they are written, one to a line.
ghost use Rattle.std.specs.Prelude.{◌≡◌, map};
ghost use Rattle.words.specs.Words.{token_of};
ghost use Rattle.rule_text.specs.Expressions.{RegionRead};
ghost use Rattle.rule_text.specs.Faults.{Reads};
ghost use Rattle.rule_text.specs.Rules.{operands, root, inside_in, regions_in, number_first, number_after, message_of, after_kind, rule_in, rule_of, NumberRead};

use super::expression::{Region, read_region};
use super::operator::{RuleKind, rule_kind_of};
use super::stop::Stop;
use std::alloc::Global;
use words::number::number;
use words::word::Word;

/// A rule: its kind, its regions as nodes of three numbers, its number, its message and its line.
#[derive(Drop)]
pub struct RuleText {
    pub kind: RuleKind,
    // Flat, as the entries of the rules take them.
    pub regions: Vec<u64>,
    pub number: u64,
    pub message: Vec<u8>,
    pub line: usize,
}

/// The two regions of an inside rule: the operands of the second come first, and the second itself last.
fn read_inside<'w, 'a>(heap: Global, words: &'w [Word<'a>]) -> Result<Region<'w, 'a>, Stop>
    ensures { RegionRead (inside_in (map token_of words.now)) result }
{
    let first = read_region(heap, words, Vec::new(heap))?;
    let second = read_region(heap, first.rest, Vec::new(heap))?;
    let (operands, root) = split_root(second.nodes.as_slice());
    let mut both = read_region(heap, words, operands.to_vec(heap)?)?;
    both.nodes.extend_from_slice(root)?;
    both.rest = second.rest;
    Ok(both)
}

/// All nodes but the last, and the last.
fn split_root(nodes: &[u64]) -> (&[u64], &[u64])
    ensures operands { result.0.now ≡ operands nodes.now }
    ensures root { result.1.now ≡ root nodes.now }
{
    nodes.split_at(nodes.len().saturating_sub(3))
}

/// The regions of a rule.
fn read_regions<'w, 'a>(
    heap: Global,
    words: &'w [Word<'a>],
    kind: RuleKind,
) -> Result<Region<'w, 'a>, Stop>
    ensures { RegionRead (regions_in kind (map token_of words.now)) result }
{
    match kind {
        RuleKind::Inside => read_inside(heap, words),
        _ => read_region(heap, words, Vec::new(heap)),
    }
}

/// A number of a rule, and the words after it.
#[derive(Clone, Copy)]
pub(crate) struct Number<'w, 'a> {
    pub(crate) value: u64,
    pub(crate) rest: &'w [Word<'a>],
}

/// The number of a rule: none for a never, which has 0.
fn read_number<'w, 'a>(words: &'w [Word<'a>], kind: RuleKind) -> Option<Number<'w, 'a>>
    ensures { NumberRead (number_after kind (map token_of words.now)) result }
{
    match kind {
        RuleKind::Never => Some(Number {
            value: 0,
            rest: words,
        }),
        _ => first_number(words),
    }
}

fn first_number<'w, 'a>(words: &'w [Word<'a>]) -> Option<Number<'w, 'a>>
    ensures { NumberRead (number_first (map token_of words.now)) result }
{
    let (first, rest) = words.split_first()?;
    let value = number(first.bytes)?;
    Some(Number { value, rest })
}

/// From the first of some words to the end of the last: the message.
fn message_of<'a>(text: &'a [u8], words: &[Word]) -> &'a [u8]
    ensures { result.now ≡ message_of text.now (map token_of words.now) }
{
    let (Some((first, _)), Some((last, _))) = (words.split_first(), words.split_last()) else {
        return &[];
    };
    let end = last.start.saturating_add(last.bytes.len()).min(text.len());
    let start = first.start.min(end);
    &text[start..end]
}

/// Reads what follows the first word of a rule.
fn read_after(
    heap: Global,
    text: &[u8],
    words: &[Word],
    line: usize,
    kind: RuleKind,
) -> Result<RuleText, Stop>
    ensures { Reads (after_kind text.now (map token_of words.now) line kind) rule_of result }
{
    let Region { nodes, rest } = read_regions(heap, words, kind)?;
    let Some(number) = read_number(rest, kind) else {
        return Err(Stop::Unreadable);
    };
    let message = message_of(text, number.rest).to_vec(heap)?;
    Ok(RuleText {
        kind,
        regions: nodes,
        number: number.value,
        message,
        line,
    })
}

/// Reads the rule that the words of a line are.
pub(crate) fn read_rule(
    heap: Global,
    text: &[u8],
    words: &[Word],
    line: usize,
) -> Result<RuleText, Stop>
    ensures { Reads (rule_in text.now (map token_of words.now) line) rule_of result }
{
    let Some((first, rest)) = words.split_first() else {
        return Err(Stop::Unreadable);
    };
    match rule_kind_of(first.bytes) {
        Some(kind) => read_after(heap, text, rest, line, kind),
        None => Err(Stop::Unreadable),
    }
}
