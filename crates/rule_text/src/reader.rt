// Rule texts: one rule to a line.
ghost use Rattle.std.specs.Prelude.{map};
ghost use Rattle.layout.specs.Refusals.{Follows};
ghost use Rattle.rule_text.specs.Rules.{rule_of};
ghost use Rattle.rule_text.specs.RuleTexts.{lined, RulesRead};

use super::rule::{RuleText, read_rule};
use layout::refusal::Fault;
use std::alloc::Global;
use words::line::Lines;
use words::word::{Marks, split};

/// Reads one line, which may hold no rule.
fn read_line(heap: Global, text: &[u8], line: usize, rules: &mut Vec<RuleText>) -> Result<(), Fault>
    ensures { Follows (lined line (map rule_of rules.old.items) text.now) (map rule_of rules.new.items) result }
{
    let words = split(heap, text, Marks::Parentheses)?;
    if words.is_empty() {
        return Ok(());
    }
    match read_rule(heap, text, words.as_slice(), line) {
        Ok(rule) => rules.push(rule)?,
        Err(stop) => return Err(stop.at(line)),
    }
    Ok(())
}

/// The rules of a text, in their order.
pub fn read_rules(heap: Global, text: &[u8]) -> Result<Vec<RuleText>, Fault>
    ensures { RulesRead text.now result }
{
    let mut rules = Vec::new(heap);
    for (line, row) in Lines::of(text).enumerate() {
        read_line(heap, row, line, &mut rules)?;
    }
    Ok(rules)
}
