// That texts read back, asked for by a contract that needs no memory.
ghost use Rattle.layout_writer.specs.Texts.{RoundTrip};

/// Each layout whose nodes are in order has a text that reads back as the same drawing.
pub fn round_trip_stands() -> u8
    ensures { RoundTrip }
{
    0
}
