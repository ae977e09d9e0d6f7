// A layout judged by a deck.
ghost use Rattle.std.specs.Prelude.{map, IfOk};
ghost use Rattle.rule_text.specs.Rules.{rule_of};
ghost use Rattle.deck.specs.Decks.{DeckJudged};
ghost use Rattle.deck.specs.Readings.{AllBreaking};

use super::fault::DeckFault;
use super::read::{mark_deck, read_deck};
use layout::boxes::Boxes;
use layout::layout::Layout;
use region::regions::Region;
use rule_text::rule::RuleText;
use rules::judges::LAYERS;
use rules::layers::Layers;
use rules::rule::Rule;
use std::alloc::{AllocError, Global};

// The squares that break each rule, on layers that are swept.
fn judge_layers(heap: Global, layers: &Layers, rules: &[Rule]) -> Result<Vec<Region>, AllocError>
    ensures { IfOk result (λ v. AllBreaking layers.now rules.now v.items) }
{
    let mut regions = Vec::new(heap);
    for rule in rules {
        let region = rule.broken(heap, layers)?;
        regions.push(region)?;
    }
    Ok(regions)
}

/// For each rule of a deck the squares of a layout that break it.
pub fn judge_deck(heap: Global, layout: &[u64], deck: &[RuleText]) -> Result<Vec<Region>, DeckFault>
    ensures { DeckJudged layout.now (map rule_of deck.now) result }
{
    let layout = Layout::read(layout).map_err(DeckFault::Layout)?;
    let rects = layout.boxes(heap)?;
    let rules = read_deck(heap, deck)?;
    let mut wanted = [false; LAYERS];
    mark_deck(&rules, &mut wanted);
    let boxes = Boxes { rects: &rects };
    let layers = Layers::sweep(heap, &boxes, &wanted)?;
    let regions = judge_layers(heap, &layers, &rules)?;
    Ok(regions)
}
