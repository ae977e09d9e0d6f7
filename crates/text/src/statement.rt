// The statements of a layout text.

/// A statement. Cells are numbered in the order in which they are said.
#[derive(Clone, Copy)]
pub enum Statement {
    Box {
        layer: u64,
        x: u64,
        y: u64,
        across: u64,
        down: u64,
    },
    /// A cell begins.
    Cell,
    /// The cell ends.
    Close,
    Put {
        cell: u64,
        x: u64,
        y: u64,
    },
    /// A turn of the put before.
    Turned {
        side: u64,
    },
    Mirrored {
        side: u64,
    },
    Row {
        many: u64,
        far: u64,
        cell: u64,
    },
    Column {
        many: u64,
        far: u64,
        cell: u64,
    },
    Pin {
        layer: u64,
        x: u64,
        y: u64,
    },
}

/// A statement, and the line of its first word.
#[derive(Clone, Copy)]
pub struct Said {
    pub statement: Statement,
    pub line: usize,
}
