// Regions as they are written, read word by word into nodes of three numbers.
ghost use Rattle.std.specs.Prelude.{◌≡◌, map, OnOk};
ghost use Rattle.words.specs.Words.{token_of};
ghost use Rattle.rule_text.specs.Expressions.{last_node, after_operand, added, operand, operated, grew, ended, further, accept, is_done, region_in, expression_of, Takes, RegionRead};

use super::operator::{Operator, operator_of};
use super::stop::Stop;
use std::alloc::{AllocError, Global};
use words::number::number;
use words::word::Word;

/// An open parenthesis, and what is known of its region.
#[derive(Clone, Copy)]
pub(crate) enum Frame {
    /// The left operand is to come, or its operator.
    Open,
    /// The right operand is to come, or the closing parenthesis.
    Two { operator: Operator, left: u64 },
    /// The closing parenthesis is to come.
    Grown { by: u64, of: u64 },
}

/// What the next word has to be.
#[derive(Clone, Copy)]
pub(crate) enum Awaits {
    Operand,
    /// How far the region grows.
    Growth,
    /// What follows an operand inside parentheses.
    Further,
    /// Nothing: the region is at its end.
    Nothing,
}

/// A region that is being read.
#[derive(Drop)]
pub(crate) struct Expression {
    pub(crate) nodes: Vec<u64>,
    pub(crate) frames: Vec<Frame>,
    pub(crate) awaits: Awaits,
}

impl Expression {
    /// The number of the last node.
    fn last_node(&self) -> u64
        ensures { result ≡ last_node (expression_of self.now) }
    {
        let count = (self.nodes.len() / 3) as u64;
        count.saturating_sub(1)
    }

    /// Adds the node of an operand that is read to its end.
    fn add(&mut self, node: [u64; 3]) -> Result<(), AllocError>
        ensures { OnOk result (expression_of self.new ≡ added (expression_of self.old) node) }
    {
        self.nodes.extend_from_slice(&node)?;
        self.awaits = self.after_operand();
        Ok(())
    }

    fn after_operand(&self) -> Awaits
        ensures { result ≡ after_operand (expression_of self.now) }
    {
        if self.frames.is_empty() {
            Awaits::Nothing
        } else {
            Awaits::Further
        }
    }

    /// An operand: a layer, or an opening parenthesis.
    fn operand(&mut self, word: &[u8]) -> Result<(), Stop>
        ensures { Takes (operand (expression_of self.old) word.now) (expression_of self.new) result }
    {
        if word == b"(".as_slice() {
            self.frames.push(Frame::Open)?;
            return Ok(());
        }
        let Some(layer) = number(word) else {
            return Err(Stop::Unreadable);
        };
        self.add([0, layer, 0])?;
        Ok(())
    }

    /// How far the region before grows.
    fn growth(&mut self, word: &[u8]) -> Result<(), Stop>
        ensures { Takes (grew (expression_of self.old) word.now) (expression_of self.new) result }
    {
        let Some(by) = number(word) else {
            return Err(Stop::Unreadable);
        };
        let of = self.last_node();
        self.frames.push(Frame::Grown { by, of })?;
        self.awaits = Awaits::Further;
        Ok(())
    }

    /// An operator after its left operand, whose parenthesis has been taken off.
    fn operator(&mut self, word: &[u8]) -> Result<(), Stop>
        ensures { Takes (operated (expression_of self.old) word.now) (expression_of self.new) result }
    {
        match operator_of(word) {
            None => Err(Stop::Unreadable),
            Some(Operator::Grown) => {
                self.awaits = Awaits::Growth;
                Ok(())
            }
            Some(operator) => {
                let left = self.last_node();
                self.frames.push(Frame::Two { operator, left })?;
                self.awaits = Awaits::Operand;
                Ok(())
            }
        }
    }

    /// The end of a parenthesis that has been taken off: its node.
    fn end(&mut self, word: &[u8], node: [u64; 3]) -> Result<(), Stop>
        ensures { Takes (ended (expression_of self.old) word.now node) (expression_of self.new) result }
    {
        if word != b")".as_slice() {
            return Err(Stop::Unreadable);
        }
        self.add(node)?;
        Ok(())
    }

    /// What follows an operand inside parentheses.
    fn further(&mut self, word: &[u8]) -> Result<(), Stop>
        ensures { Takes (further (expression_of self.old) word.now) (expression_of self.new) result }
    {
        match self.frames.pop() {
            None => Err(Stop::Unreadable),
            Some(Frame::Open) => self.operator(word),
            Some(Frame::Two { operator, left }) => {
                let right = self.last_node();
                self.end(word, [operator.number(), left, right])
            }
            Some(Frame::Grown { by, of }) => self.end(word, [Operator::Grown.number(), by, of]),
        }
    }

    /// Takes one word more, unless it can't stand here.
    fn accept(&mut self, word: &[u8]) -> Result<(), Stop>
        ensures { Takes (accept (expression_of self.old) word.now) (expression_of self.new) result }
    {
        match self.awaits {
            Awaits::Operand => self.operand(word),
            Awaits::Growth => self.growth(word),
            Awaits::Further => self.further(word),
            Awaits::Nothing => Err(Stop::Unreadable),
        }
    }

    fn is_done(&self) -> bool
        ensures { result ≡ is_done (expression_of self.now) }
    {
        matches!(self.awaits, Awaits::Nothing)
    }
}

/// The nodes of a region, and the words after it.
#[derive(Drop)]
pub(crate) struct Region<'w, 'a> {
    pub(crate) nodes: Vec<u64>,
    pub(crate) rest: &'w [Word<'a>],
}

/// Reads the region that words begin with, its nodes after others.
pub(crate) fn read_region<'w, 'a>(
    heap: Global,
    words: &'w [Word<'a>],
    nodes: Vec<u64>,
) -> Result<Region<'w, 'a>, Stop>
    ensures { RegionRead (region_in nodes.items (map token_of words.now)) result }
{
    let mut expression = Expression {
        nodes,
        frames: Vec::new(heap),
        awaits: Awaits::Operand,
    };
    for (at, word) in words.iter().enumerate() {
        expression.accept(word.bytes)?;
        if expression.is_done() {
            let Expression { nodes, .. } = expression;
            let (_, rest) = words.split_at(at + 1);
            return Ok(Region { nodes, rest });
        }
    }
    Err(Stop::Unreadable)
}
