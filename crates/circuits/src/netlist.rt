// Circuits: devices over nets, as they are read from numbers in threes, the gate first.
ghost use Rattle.std.specs.Prelude.{◌≡◌, ℕ, ◌/◌, ◌<◌, ◌≤◌, true, false, Decides, MatchOption, length, slice_index, slice_index_or};
ghost use Rattle.circuits.specs.Netlists.{has, fits, Below, device_at, none, devices_in, circuit_ok};
ghost use Rattle.circuits.specs.Components.{On};

/// The most devices that a circuit has.
const MAX_DEVICES: usize = 256;

/// The most nets that a circuit has, so that a table has an entry for each.
const MAX_NETS: u64 = 256;

/// A device, by its nets: the gate's, and those of its two ends.
#[derive(Clone, Copy, PartialEq, Eq)]
pub struct Device {
    pub gate: usize,
    pub one: usize,
    pub other: usize,
}

impl Device {
    /// The same gate and the same ends, in either order. The gate first, as most gates differ.
    fn fits(self, device: Device) -> bool
        ensures { result ≡ fits self device }
    {
        if self.gate != device.gate {
            return false;
        }
        let same = (self.one == device.one) & (self.other == device.other);
        let swapped = (self.one == device.other) & (self.other == device.one);
        same | swapped
    }

    /// Whether the device is at a net.
    pub fn is_at(self, net: usize) -> bool
        ensures { Decides result (On self net) }
    {
        (self.gate == net) | (self.one == net) | (self.other == net)
    }
}

/// A circuit with so many nets: threes, at most 256 of them, over 1 to 256 nets.
pub fn is_circuit(nets: u64, numbers: &[u64]) -> bool
    ensures { result ≡ circuit_ok nets numbers.now }
{
    if numbers.len() % 3 != 0 {
        return false;
    }
    if numbers.len() / 3 > MAX_DEVICES {
        return false;
    }
    if nets == 0 {
        return false;
    }
    if nets > MAX_NETS {
        return false;
    }
    numbers.iter().all(|net| *net < nets)
}

/// The device at a place of a circuit in numbers.
fn read_device(numbers: &[u64], place: usize) -> Device
    requires { place < length numbers.now / 3 }
    ensures { result ≡ device_at (devices_in numbers.now) place }
{
    let first = 3 * place;
    Device {
        gate: numbers[first] as usize,
        one: numbers[first + 1] as usize,
        other: numbers[first + 2] as usize,
    }
}

/// What stands in a room behind the devices of a circuit.
const NO_DEVICE: Device = Device {
    gate: 0,
    one: 0,
    other: 0,
};

/// The devices of a circuit in numbers.
pub fn read(numbers: &[u64]) -> [Device; 256]
    ensures { (i : ℕ) → i < 256 → slice_index_or result i none ≡ slice_index_or (devices_in numbers.now) i none }
{
    let mut room = [NO_DEVICE; MAX_DEVICES];
    // Only those that there are, so that a small circuit is read fast.
    for place in 0..MAX_DEVICES.min(numbers.len() / 3) {
        room[place] = read_device(numbers, place);
    }
    room
}

/// The place of a device that is like this one.
pub(crate) fn place(devices: &[Device], device: Device) -> Option<usize>
    ensures { MatchOption result ((i : ℕ) → i < length devices.now → fits (device_at devices.now i) device ≡ false) (λ i. (i < length devices.now) × (fits (device_at devices.now i) device ≡ true)) }
{
    devices.iter().position(|other| other.fits(device))
}

/// How many devices are like this one: the same gate, and its ends in either order.
pub fn count(devices: &[Device], device: Device) -> usize
    ensures { result ≡ has devices.now device }
{
    devices
        .iter()
        .map(|other| usize::from(other.fits(device)))
        .sum()
}

/// A circuit that is checked: at most 256 devices over 1 to 256 nets.
#[derive(Clone, Copy)]
pub struct Circuit<'a> {
    pub nets: usize,
    pub devices: &'a [Device],
    ghost some: { nets ≤ 256 },
    ghost few: { length devices.now ≤ 256 },
    ghost low: { (i : ℕ) → i < length devices.now → Below nets (device_at devices.now i) },
}

impl<'a> Circuit<'a> {
    /// The circuit that numbers say, where they say one and its devices have been read.
    pub(crate) fn new(nets: u64, numbers: &[u64], room: &'a [Device; 256]) -> Circuit<'a>
        requires circuit { circuit_ok nets numbers.now ≡ true }
        requires read { (i : ℕ) → i < 256 → slice_index_or room.now i none ≡ slice_index_or (devices_in numbers.now) i none }
        ensures nets { result.nets ≡ nets }
        ensures devices { result.devices.now ≡ devices_in numbers.now }
    {
        Circuit {
            nets: nets as usize,
            devices: &room[..numbers.len() / 3],
        }
    }
}
