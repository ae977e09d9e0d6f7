// Tables: an array with an entry for each net.
ghost use Rattle.std.specs.Prelude.{ℕ, ◌<◌, ◌≤◌, slice_index_or};
ghost use Rattle.std.specs.Array.Iter.{IntoIterFitsInMemory};

use std::array;

/// What a function says of each net.
pub fn table<T, const N: usize, F: Fn(u8) -> T>(entry: F) -> [T; N]
    requires few { N ≤ 256 }
    requires fits { IntoIterFitsInMemory T.row N.row }
    requires callable { F.IsAlwaysCallable entry }
    ensures { (i : ℕ) (d : T) → i < N → F.post entry i (slice_index_or result i d) }
{
    array::from_fn(|net| entry(net as u8))
}
