// A process: which layers carry and what joins them.
ghost use Rattle.std.specs.Prelude.{◌≡◌};
ghost use Rattle.nets.specs.Processes.{technology_of};

/// The layer `by` joins the layers `one` and `other`.
#[derive(Clone, Copy)]
pub struct Join {
    pub by: u64,
    pub one: u64,
    pub other: u64,
}

/// Which layers carry and what joins them; where `gate` is covered, `crossed` is no wire.
#[derive(Drop)]
pub struct Process {
    pub carries: Vec<bool>,
    pub joins: Vec<Join>,
    pub gate: u64,
    pub crossed: u64,
}

impl Process {
    /// Whether a layer carries.
    pub fn carries(&self, layer: u64) -> bool
        ensures { result ≡ (technology_of self.now).carries layer }
    {
        match self.carries.get(layer as usize) {
            Some(carries) => *carries,
            None => false,
        }
    }
}
