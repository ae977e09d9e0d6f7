// drc LAYOUT RULES: says where a layout breaks each rule first, or that it is clean.
#![tactic(auto)]

use deck::fault::DeckFault;
use deck::judge_deck;
use layout::refusal::{Fault, Refusal};
use region::regions::Region;
use report::line::add_broken;
use report::sentence::sentence;
use rule_text::read_rules;
use rule_text::rule::RuleText;
use std::alloc::{AllocError, Global};
use std::io::Write;
use std::process::ExitCode;
use std::{env, fs};
use text::layout_text::{LayoutText, read_layout};

// What stands in the way of an answer.
#[derive(Drop)]
enum Stop {
    // A file, a line of it where there is one, and the refusal.
    Refused(File, Option<usize>, Refusal),
    Memory,
}

#[derive(Clone, Copy)]
enum File {
    Layout,
    Rules,
}

impl From<AllocError> for Stop {
    fn from(_e: AllocError) -> Stop {
        Stop::Memory
    }
}

// The line of the statement that a refused node comes from, where there is one.
fn line_of(text: &LayoutText, refusal: Refusal) -> Option<usize> {
    let node = match refusal {
        Refusal::Number(place) => place / 6,
        Refusal::Node(node) => node,
        Refusal::Boxes(node) => node,
        _ => return None,
    };
    text.lines.get(node).copied().unwrap_or(None)
}

// A text that can't be read stops at its line.
fn stop_at(file: File, fault: Fault) -> Stop {
    match fault {
        Fault::Refused(refusal) => Stop::Refused(file, Some(refusal.place()), refusal),
        Fault::Memory => Stop::Memory,
    }
}

// A refusal stops at the line of the statement or the rule that it is about, where there is one.
fn stop_deck(text: &LayoutText, deck: &[RuleText], fault: DeckFault) -> Stop {
    match fault {
        DeckFault::Layout(refusal) => Stop::Refused(File::Layout, line_of(text, refusal), refusal),
        DeckFault::Rule(place, refusal) => match deck.get(place) {
            Some(rule) => Stop::Refused(File::Rules, Some(rule.line), refusal),
            None => Stop::Refused(File::Rules, None, refusal),
        },
        DeckFault::Memory => Stop::Memory,
    }
}

// The lines of the rules that are broken, in their order.
fn broken_lines(heap: Global, deck: &[RuleText], broken: &[Region]) -> Result<Vec<u8>, AllocError> {
    let mut out = Vec::new(heap);
    for (rule, region) in deck.iter().zip(broken.iter()) {
        if let Some((x, y)) = region.first() {
            add_broken(heap, &mut out, &rule.message, x, y)?;
        }
    }
    Ok(out)
}

// The lines of the broken rules.
fn judge_texts(heap: Global, layout: &[u8], rules: &[u8]) -> Result<Vec<u8>, Stop> {
    let text = read_layout(heap, layout).map_err(|fault| stop_at(File::Layout, fault))?;
    let deck = read_rules(heap, rules).map_err(|fault| stop_at(File::Rules, fault))?;
    let broken = judge_deck(heap, &text.nodes, &deck).map_err(|fault| stop_deck(
        &text, &deck, fault,
    ))?;
    let out = broken_lines(heap, &deck, &broken)?;
    Ok(out)
}

// A file's bytes, or a message.
fn read_file(rt: &HostRuntime, path: &str) -> anyhow::Result<Option<Vec<u8>>> {
    match fs::read(rt, path) {
        Ok(bytes) => Ok(Some(bytes)),
        Err(_) => {
            eprintln!(rt; "{path}: this file can't be read")?;
            Ok(None)
        }
    }
}

fn refuse(
    rt: &HostRuntime,
    path: &str,
    line: Option<usize>,
    refusal: Refusal,
) -> anyhow::Result<ExitCode> {
    let what = sentence(refusal);
    match line {
        Some(line) => {
            let shown = line.saturating_add(1);
            eprintln!(rt; "{path}:{shown}: {what} ({refusal})")?;
        }
        None => eprintln!(rt; "{path}: {what} ({refusal})")?,
    }
    Ok(ExitCode::FAILURE)
}

fn run(rt: &HostRuntime, layout: &str, rules: &str) -> anyhow::Result<ExitCode> {
    let Some(layout_bytes) = read_file(rt, layout)? else {
        return Ok(ExitCode::FAILURE);
    };
    let Some(rule_bytes) = read_file(rt, rules)? else {
        return Ok(ExitCode::FAILURE);
    };
    match judge_texts(rt.alloc(), &layout_bytes, &rule_bytes) {
        Ok(out) => {
            if out.is_empty() {
                println!(rt; "clean")?;
                return Ok(ExitCode::SUCCESS);
            }
            rt.stdout().write_all(&out)?;
            Ok(ExitCode::FAILURE)
        }
        Err(Stop::Refused(File::Layout, line, refusal)) => refuse(rt, layout, line, refusal),
        Err(Stop::Refused(File::Rules, line, refusal)) => refuse(rt, rules, line, refusal),
        Err(Stop::Memory) => {
            eprintln!(rt; "drc: there is too little memory")?;
            Ok(ExitCode::FAILURE)
        }
    }
}

// What follows the program's name.
fn main(rt: HostRuntime) -> anyhow::Result<ExitCode> {
    let mut words = env::args(&rt)?;
    let _program = words.next();
    let layout = words.next();
    let rules = words.next();
    let more = words.next();
    match (layout, rules, more) {
        (Some(layout), Some(rules), None) => run(&rt, &layout, &rules),
        _ => {
            eprintln!(rt; "usage: drc LAYOUT RULES")?;
            Ok(ExitCode::FAILURE)
        }
    }
}
