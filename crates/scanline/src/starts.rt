// Lists of what begins at places, one after another: the edges of a line, the bands of a region.
ghost use Rattle.std.specs.Prelude.{◌≡◌, ℕ};
ghost use Rattle.scanline.specs.Starts.{first_start, begins, past, starting};

/// What begins at a place.
pub trait Starts {
    ghost start_of: { Self → ℕ };

    fn start(&self) -> u64
        ensures { result ≡ start_of self.now };
}

impl Starts for u64 {
    ghost start_of = { λ edge. edge };

    fn start(&self) -> u64 {
        *self
    }
}

/// Where the first of either list begins, if one is left.
pub fn first_start<T: Starts>(a: &[T], b: &[T]) -> Option<u64>
    ensures { result ≡ first_start T.start_of a.now b.now }
{
    match (a, b) {
        ([], []) => None,
        ([x, ..], []) => Some(x.start()),
        ([], [y, ..]) => Some(y.start()),
        ([x, ..], [y, ..]) => Some(x.start().min(y.start())),
    }
}

/// Whether the first of a list begins at the place.
pub fn begins<T: Starts>(list: &[T], at: u64) -> bool
    ensures { result ≡ begins T.start_of at list.now }
{
    match list {
        [first, ..] => first.start() == at,
        [] => false,
    }
}

/// Goes past the first of a list where it begins at the place: what does, and what is left. Cut off with no branch, since
/// whether it begins there is hard to foresee.
pub fn pass<T: Starts>(list: &[T], at: u64) -> (&[T], &[T])
    ensures here { result.0.now ≡ starting T.start_of at list.now }
    ensures rest { result.1.now ≡ past T.start_of at list.now }
{
    list.split_at(usize::from(begins(list, at)))
}
