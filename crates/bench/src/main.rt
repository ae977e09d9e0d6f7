// bench: reads boxes from standard input, one `LAYER X Y ACROSS DOWN` to a line, and times the sweep, each rule and the
// nets. Counts go to standard output, times to standard error.
#![tactic(auto)]

ghost use Rattle.std.specs.Prelude.{◌^◌, ◌<◌, IfSome};
ghost use Rattle.std.specs.List.{AllByRecursion};
ghost use Rattle.layout.specs.Rects.{Within};

use layout::boxes::Boxes;
use layout::rect::Rect;
use nets::mask::Mask;
use nets::process::Process;
use region::regions::Region;
use rules::broken::{close, narrow, shallow};
use std::alloc::{AllocError, Global};
use std::io::{BufRead, BufReader};
use std::process::ExitCode;
use std::time::Instant;

// Coordinates and sizes up to 2^39: far beyond any mask, and no sum of two passes 2^40.
const FAR: u64 = 549755813888;

// The layers that are swept.
const LAYERS: u64 = 6;

// The box of a line, if it is one.
fn parse_box(line: &str) -> Option<Rect>
    ensures { IfSome result (Within (2 ^ 40)) }
{
    let mut words = line.split_whitespace();
    let layer = words.next()?.parse::<u64>().ok()?;
    let x = words.next()?.parse::<u64>().ok()?;
    let y = words.next()?.parse::<u64>().ok()?;
    let across = words.next()?.parse::<u64>().ok()?;
    let down = words.next()?.parse::<u64>().ok()?;
    if x > FAR || y > FAR || across > FAR || down > FAR {
        return None;
    }
    Some(Rect {
        layer,
        x,
        y,
        across,
        down,
    })
}

// One box more; false where the line is none.
fn add_box(rects: &mut Vec<Rect>, line: &str) -> Result<bool, AllocError>
    requires { AllByRecursion (Within (2 ^ 40)) rects.old.items }
    ensures { AllByRecursion (Within (2 ^ 40)) rects.new.items }
{
    match parse_box(line) {
        Some(rect) => {
            rects.push(rect)?;
            Ok(true)
        }
        None => Ok(false),
    }
}

// How many intervals the bands of a region have.
fn intervals(region: &Region) -> u64 {
    let mut count = 0u64;
    for band in region.bands() {
        count = count.saturating_add(band.line.edges().len() as u64 / 2);
    }
    count
}

// The layer's region, timed.
fn sweep_layer(rt: &HostRuntime, boxes: &Boxes<'_>, layer: u64) -> anyhow::Result<Region> {
    let start = Instant::now(rt)?;
    let region = Region::from_boxes(rt.alloc(), boxes.rects, layer)?;
    let micros = start.elapsed(rt)?.as_micros();
    let bands = region.bands().len();
    let count = intervals(&region);
    println!(rt; "layer {layer}: {bands} bands, {count} intervals")?;
    eprintln!(rt; "sweep layer {layer}: {micros} us")?;
    Ok(region)
}

// What breaks a rule, timed.
fn time_rule<F: Fn() -> Result<Region, AllocError>>(
    rt: &HostRuntime,
    name: &str,
    rule: F,
) -> anyhow::Result<()>
    requires { F.IsAlwaysCallable rule }
{
    let start = Instant::now(rt)?;
    let broken = rule()?;
    let micros = start.elapsed(rt)?.as_micros();
    let count = intervals(&broken);
    println!(rt; "{name}: {count} intervals broken")?;
    eprintln!(rt; "{name}: {micros} us")?;
    Ok(())
}

// Four wide, four apart and three inside over six layers.
fn time_rules(rt: &HostRuntime, boxes: &Boxes<'_>) -> anyhow::Result<()> {
    let zero = sweep_layer(rt, boxes, 0)?;
    let one = sweep_layer(rt, boxes, 1)?;
    let two = sweep_layer(rt, boxes, 2)?;
    let three = sweep_layer(rt, boxes, 3)?;
    let four = sweep_layer(rt, boxes, 4)?;
    let five = sweep_layer(rt, boxes, 5)?;
    let heap = rt.alloc();
    time_rule(rt, "wide 0 4", || narrow(heap, &zero, 4))?;
    time_rule(rt, "wide 1 2", || narrow(heap, &one, 2))?;
    time_rule(rt, "wide 3 3", || narrow(heap, &three, 3))?;
    time_rule(rt, "wide 5 3", || narrow(heap, &five, 3))?;
    time_rule(rt, "apart 0 3", || close(heap, &zero, 3))?;
    time_rule(rt, "apart 1 3", || close(heap, &one, 3))?;
    time_rule(rt, "apart 3 3", || close(heap, &three, 3))?;
    time_rule(rt, "apart 5 3", || close(heap, &five, 3))?;
    time_rule(rt, "inside 2 3 1", || shallow(heap, &two, &three, 1))?;
    time_rule(rt, "inside 4 3 1", || shallow(heap, &four, &three, 1))?;
    time_rule(rt, "inside 4 5 1", || shallow(heap, &four, &five, 1))
}

// All layers carry, and nothing joins them.
fn all_carry(heap: Global) -> Result<Process, AllocError> {
    let carries = vec![in heap; true; LAYERS as usize]?;
    Ok(Process {
        carries,
        joins: Vec::new(heap),
        gate: LAYERS,
        crossed: LAYERS,
    })
}

fn time_nets(rt: &HostRuntime, boxes: Boxes<'_>) -> anyhow::Result<()> {
    let process = all_carry(rt.alloc())?;
    let mask = Mask {
        boxes,
        process: &process,
    };
    let start = Instant::now(rt)?;
    let tiles = mask.wire_tiles(rt.alloc())?;
    let groups = mask.connect(rt.alloc(), &tiles)?;
    let micros = start.elapsed(rt)?.as_micros();
    drop(groups);
    let count = tiles.len();
    println!(rt; "nets: {count} tiles")?;
    eprintln!(rt; "nets: {micros} us")?;
    Ok(())
}

fn main(rt: HostRuntime) -> anyhow::Result<ExitCode> {
    let mut rects = Vec::new(rt.alloc());
    let start = Instant::now(&rt)?;
    for line in BufReader::new(rt.alloc(), rt.stdin())?.lines(rt.alloc()) {
        let text = line?;
        if !add_box(&mut rects, &text)? {
            eprintln!(rt; "bench: each line is LAYER X Y ACROSS DOWN, in numbers up to {FAR}")?;
            return Ok(ExitCode::FAILURE);
        }
    }
    let micros = start.elapsed(&rt)?.as_micros();
    let count = rects.len();
    println!(rt; "{count} boxes")?;
    eprintln!(rt; "read: {micros} us")?;
    let boxes = Boxes { rects: &rects };
    time_rules(&rt, &boxes)?;
    time_nets(&rt, boxes)?;
    Ok(ExitCode::SUCCESS)
}
