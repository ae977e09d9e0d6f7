// The entry: the devices of a layout, in numbers.
ghost use Rattle.std.specs.Prelude.{IfOk};
ghost use Rattle.layout.specs.Rects.{covered};
ghost use Rattle.nets.specs.Processes.{technology_of};
ghost use Rattle.devices.specs.Readings.{ComesTo};
ghost use Rattle.devices.specs.Findings.{Says};

use crate::border::find_borders;
use crate::crossing::Crossing;
pub use crate::reading::Found;
use crate::reading::{Device, read_devices, write_devices};
use crate::terminal::gather;
use layout::boxes::Boxes;
use layout::layout::Layout;
use layout::refusal::{Fault, Refusal};
use nets::mask::Mask;
use nets::technology::Technology;
use std::alloc::{AllocError, Global};

/// Reads the devices of a mask.
pub fn read_mask(heap: Global, mask: &Mask<'_, '_>) -> Result<Found<Vec<Device>>, AllocError>
    ensures { IfOk result (ComesTo (technology_of mask.now.process.now) (covered mask.now.boxes.rects.now)) }
{
    let crossing = Crossing::lay(heap, mask)?;
    let borders = find_borders(heap, &crossing)?;
    let count = crossing.channels.tiles.len();
    let terminals = gather(heap, count, &borders)?;
    read_devices(heap, &crossing.channels, &terminals)
}

/// Reads all devices, in the order of the first squares of their channels: the column and the row of that square, of
/// the first square beside the channel, and of the first beside it of another net, or of the same again where there
/// is none. Or shows the first channel that is no device, or turns its arguments away: the layout first, then the
/// technology, and last the room; then the room is as it was.
pub fn devices(
    heap: Global,
    layout: &[u64],
    technology: &[u64],
    room: &mut [u64],
) -> Result<Found<u64>, Fault>
    ensures { Says layout.now technology.now room.old result room.new }
{
    let layout = Layout::read(layout)?;
    let technology = Technology::read(technology)?;
    let rects = layout.boxes(heap)?;
    let process = technology.process(heap)?;
    let boxes = Boxes { rects: &rects };
    let mask = Mask {
        boxes,
        process: &process,
    };
    let found = read_mask(heap, &mask)?;
    match found {
        Found::Odd(x, y) => Ok(Found::Odd(x, y)),
        Found::Devices(devices) => {
            if devices.len() > room.len() / 6 {
                return Err(Fault::Refused(Refusal::Room(room.len())));
            }
            write_devices(&devices, room);
            Ok(Found::Devices(devices.len() as u64))
        }
    }
}
