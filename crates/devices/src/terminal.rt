// The nets beside a channel, each with its first square.
ghost use Rattle.std.specs.Prelude.{◌≡◌, ◌<◌, IfOk};
ghost use Rattle.std.specs.List.{AllByRecursion};
ghost use Rattle.devices.specs.Terminals.{precedes, sooner, with_one, ends_of, Gathered};

use crate::border::Border;
use std::alloc::{AllocError, Global};

/// A net beside a channel, by its first tile, and a square of it there.
#[derive(Clone, Copy)]
pub struct Terminal {
    pub net: usize,
    pub x: u64,
    pub y: u64,
}

/// The nets beside a channel, as far as it has been looked at.
#[derive(Clone, Copy)]
pub enum Terminals {
    /// None.
    Isolated,
    One(Terminal),
    /// Two different nets.
    Two(Terminal, Terminal),
    /// Three or more.
    Many,
}

impl Terminal {
    // Whether its square comes before the other's.
    fn precedes(self, other: Terminal) -> bool
        ensures { result ≡ precedes self other }
    {
        (self.y < other.y) | ((self.y == other.y) & (self.x < other.x))
    }

    fn sooner(self, other: Terminal) -> Terminal
        ensures { result ≡ sooner self other }
    {
        if other.precedes(self) { other } else { self }
    }
}

impl Terminals {
    // These and one square more.
    pub fn with_one(self, more: Terminal) -> Terminals
        ensures { result ≡ with_one self more }
    {
        match self {
            Terminals::Isolated => Terminals::One(more),
            Terminals::One(one) => {
                if one.net == more.net {
                    Terminals::One(one.sooner(more))
                } else {
                    Terminals::Two(one, more)
                }
            }
            Terminals::Two(one, other) => {
                if one.net == more.net {
                    Terminals::Two(one.sooner(more), other)
                } else if other.net == more.net {
                    Terminals::Two(one, other.sooner(more))
                } else {
                    Terminals::Many
                }
            }
            Terminals::Many => Terminals::Many,
        }
    }

    // The two ends of a device, in the order of their first squares.
    pub fn ends(self) -> Option<(Terminal, Terminal)>
        ensures { result ≡ ends_of self }
    {
        match self {
            Terminals::One(one) => Some((one, one)),
            Terminals::Two(one, other) => {
                if other.precedes(one) {
                    Some((other, one))
                } else {
                    Some((one, other))
                }
            }
            Terminals::Isolated | Terminals::Many => None,
        }
    }
}

// What lies beside each of `count` channels.
pub fn gather(heap: Global, count: usize, borders: &[Border]) -> Result<Vec<Terminals>, AllocError>
    requires { AllByRecursion (λ b. b.channel < count) borders.now }
    ensures { IfOk result (λ v. Gathered borders.now count v.items) }
{
    let mut all = vec![in heap; Terminals::Isolated; count]?;
    for border in borders {
        let at = border.channel;
        let terminal = Terminal {
            net: border.net,
            x: border.x,
            y: border.y,
        };
        all[at] = all[at].with_one(terminal);
    }
    Ok(all)
}
