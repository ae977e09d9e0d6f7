// Devices, read from channels and what lies beside them, and written as numbers.
ghost use Rattle.std.specs.Prelude.{◌≡◌, ℕ, ◌+◌, ◌*◌, ◌^◌, ◌<◌, ◌≤◌, length, IfOk, slice_set};
ghost use Rattle.layout.specs.Layout.{Drawing};
ghost use Rattle.nets.specs.Nets.{Technology};
ghost use Rattle.devices.specs.Readings.{Known, ComesTo, Written};

use crate::piece::Pieces;
use crate::terminal::{Terminal, Terminals};
use std::alloc::{AllocError, Global};

/// A device: the first square of its channel, and its two ends.
#[derive(Clone, Copy)]
pub struct Device {
    pub x: u64,
    pub y: u64,
    pub one: Terminal,
    pub other: Terminal,
}

/// All devices of a layout, or a channel that is none: an answer and no failure, so that it is no `Result`.
#[derive(Clone, Copy, Debug, PartialEq, Drop)]
pub enum Found<T> {
    Devices(T),
    /// The column and the row of the first such channel.
    Odd(u64, u64),
}

// Reads channel after channel, by their first tiles, until one is odd.
pub fn read_devices(
    heap: Global,
    channels: &Pieces,
    terminals: &[Terminals],
) -> Result<Found<Vec<Device>>, AllocError>
    requires { length terminals.now ≡ length channels.now.tiles.items }
    ensures { IfOk result (λ v. (k : Technology) (d : Drawing) → Known k d channels.now.tiles.items channels.now.roots.items terminals.now → ComesTo k d v) }
{
    let mut devices = Vec::new(heap);
    for i in 0..terminals.len() {
        if channels.roots[i] == i {
            let tile = channels.tiles[i];
            let x = tile.left;
            let y = tile.top;
            let Some((one, other)) = terminals[i].ends() else {
                return Ok(Found::Odd(x, y));
            };
            devices.push(Device { x, y, one, other })?;
        }
    }
    Ok(Found::Devices(devices))
}

// Writes a spot.
fn write_spot(room: &mut [u64], at: usize, x: u64, y: u64)
    requires { at + 1 < length room.old }
    ensures { room.new ≡ slice_set (slice_set room.old at x) (at + 1) y }
{
    room[at] = x;
    room[at + 1] = y;
}

// Writes six numbers for each device.
pub fn write_devices(devices: &[Device], room: &mut [u64])
    requires { 6 * length devices.now ≤ length room.old }
    ensures { Written devices.now (length devices.now) room.old room.new }
{
    for (i, device) in devices.iter().enumerate() {
        let at = 6 * i;
        write_spot(room, at, device.x, device.y);
        write_spot(room, at + 2, device.one.x, device.one.y);
        write_spot(room, at + 4, device.other.x, device.other.y);
    }
}
