// Squares of wire beside channels, direction by direction.
ghost use Rattle.std.specs.Prelude.{length, IfOk, OnOk};
ghost use Rattle.std.specs.List.{AllByRecursion};
ghost use Rattle.scanline.specs.Bands.{covers};
ghost use Rattle.nets.specs.Wires.{Shows};
ghost use Rattle.devices.specs.Borders.{meets, Near};
ghost use Rattle.devices.specs.Crossings.{Laid, Adding, Flanking, Fringing};

use crate::crossing::Crossing;
use crate::direction::Direction;
use region::regions::Region;
use scanline::Op;
use std::alloc::{AllocError, Global};
use tiles::cut::add_region;
use tiles::tile::Tile;

/// A square of wire beside a channel, with the first tiles of the channel and of the net.
#[derive(Clone, Copy)]
pub struct Border {
    pub channel: usize,
    pub net: usize,
    pub x: u64,
    pub y: u64,
}

// Of two squares beside each other, wire in a direction from a channel: the upper or left ones.
fn meeting_region(
    heap: Global,
    channel: &Region,
    wire: &Region,
    direction: Direction,
) -> Result<Region, AllocError>
    ensures { IfOk result (λ v. Shows v.bands.items (meets direction (covers channel.now.bands.items) (covers wire.now.bands.items))) }
{
    match direction {
        Direction::Right => {
            let moved = wire.shift_left(heap, 1)?;
            channel.combine(heap, Op::And, &moved)
        }
        Direction::Left => {
            let moved = channel.shift_left(heap, 1)?;
            moved.combine(heap, Op::And, wire)
        }
        Direction::Below => {
            let moved = wire.shift_up(heap, 1)?;
            channel.combine(heap, Op::And, &moved)
        }
        Direction::Above => {
            let moved = channel.shift_up(heap, 1)?;
            moved.combine(heap, Op::And, wire)
        }
    }
}

// One border for the first square of each box. `Laid` is a clause and no ghost field, since it holds `Ordered`.
fn add_borders(
    borders: &mut Vec<Border>,
    crossing: &Crossing,
    meetings: &[Tile],
    direction: Direction,
) -> Result<(), AllocError>
    requires laid { Laid crossing.now }
    requires near { AllByRecursion Near meetings.now }
    ensures { OnOk result (Adding direction crossing.now meetings.now (length meetings.now) borders.old.items borders.new.items) }
{
    for tile in meetings {
        let (u, v) = direction.channel(tile.left, tile.top);
        let (x, y) = direction.wire(tile.left, tile.top);
        let Some(channel) = crossing.channels.root_at(crossing.layer, u, v) else {
            continue;
        };
        let Some(net) = crossing.wires.root_at(crossing.layer, x, y) else {
            continue;
        };
        borders.push(Border { channel, net, x, y })?;
    }
    Ok(())
}

// Adds the borders in one direction.
fn add_side(
    heap: Global,
    borders: &mut Vec<Border>,
    crossing: &Crossing,
    direction: Direction,
) -> Result<(), AllocError>
    requires { Laid crossing.now }
    ensures { OnOk result (Flanking direction crossing.now borders.old.items borders.new.items) }
{
    let region = meeting_region(heap, &crossing.channel, &crossing.wire, direction)?;
    let mut meetings = Vec::new(heap);
    add_region(&mut meetings, crossing.layer, &region)?;
    add_borders(borders, crossing, &meetings, direction)
}

// The borders in all four directions.
pub fn find_borders(heap: Global, crossing: &Crossing) -> Result<Vec<Border>, AllocError>
    requires { Laid crossing.now }
    ensures { IfOk result (λ v. Fringing crossing.now v.items) }
{
    let mut borders = Vec::new(heap);
    add_side(heap, &mut borders, crossing, Direction::Right)?;
    add_side(heap, &mut borders, crossing, Direction::Left)?;
    add_side(heap, &mut borders, crossing, Direction::Below)?;
    add_side(heap, &mut borders, crossing, Direction::Above)?;
    Ok(borders)
}
