// The rules of a deck, read from the numbers that its lines say.
ghost use Rattle.std.specs.Prelude.{map};
ghost use Rattle.rule_text.specs.Rules.{rule_of};
ghost use Rattle.deck.specs.Readings.{DeckRead, AllMarked};

use super::fault::DeckFault;
use rule_text::rule::RuleText;
use rules::judges::LAYERS;
use rules::read::read_rule;
use rules::rule::Rule;
use std::alloc::Global;

// The rules in their order, or the first that is turned away.
pub(crate) fn read_deck(heap: Global, deck: &[RuleText]) -> Result<Vec<Rule>, DeckFault>
    ensures { DeckRead (map rule_of deck.now) result }
{
    let mut rules = Vec::new(heap);
    for (place, text) in deck.iter().enumerate() {
        match read_rule(&text.regions, text.kind.number(), text.number) {
            Ok(rule) => rules.push(rule)?,
            Err(refusal) => return Err(DeckFault::Rule(place, refusal)),
        }
    }
    Ok(rules)
}

// Marks the layers that the rules name.
pub(crate) fn mark_deck(rules: &[Rule], wanted: &mut [bool; LAYERS])
    ensures { AllMarked rules.now wanted.new }
{
    for rule in rules {
        rule.mark_layers(wanted);
    }
}
