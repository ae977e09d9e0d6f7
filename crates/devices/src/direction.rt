// The direction in which wire lies from a channel.
ghost use Rattle.std.specs.Prelude.{◌≡◌, ◌+◌, ◌^◌, ◌<◌};
ghost use Rattle.devices.specs.Borders.{channel_x, channel_y, wire_x, wire_y};

/// Where the wire lies, as seen from the channel.
#[derive(Clone, Copy)]
pub enum Direction {
    Right,
    Left,
    Below,
    Above,
}

impl Direction {
    // The square of the channel, where the upper or left one of two squares is at x, y.
    pub fn channel(self, x: u64, y: u64) -> (u64, u64)
        requires across { x + 1 < 2 ^ 64 }
        requires down { y + 1 < 2 ^ 64 }
        ensures across { result.0 ≡ channel_x self x }
        ensures down { result.1 ≡ channel_y self y }
    {
        match self {
            Direction::Right => (x, y),
            Direction::Left => (x + 1, y),
            Direction::Below => (x, y),
            Direction::Above => (x, y + 1),
        }
    }

    // The square of the wire.
    pub fn wire(self, x: u64, y: u64) -> (u64, u64)
        requires across { x + 1 < 2 ^ 64 }
        requires down { y + 1 < 2 ^ 64 }
        ensures across { result.0 ≡ wire_x self x }
        ensures down { result.1 ≡ wire_y self y }
    {
        match self {
            Direction::Right => (x + 1, y),
            Direction::Left => (x, y),
            Direction::Below => (x, y + 1),
            Direction::Above => (x, y),
        }
    }
}
