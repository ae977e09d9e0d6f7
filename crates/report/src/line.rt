// Lines of output, built byte by byte, since a message may hold any bytes.
ghost use Rattle.std.specs.Prelude.{◌≡◌, ◌++◌, IfOk, string_bytes, OnOk};
ghost use Rattle.report.specs.Outputs.{place_text, broken_line};

use std::alloc::{AllocError, Global};

// A column and a row, and the line's end.
fn place_text(heap: Global, x: u64, y: u64) -> Result<String, AllocError>
    ensures { IfOk result (λ s. string_bytes s ≡ place_text x y) }
{
    format!(in heap; ": {x} {y}\n")
}

/// Adds the line of a rule that is broken first at a square.
pub fn add_broken(
    heap: Global,
    out: &mut Vec<u8>,
    message: &[u8],
    x: u64,
    y: u64,
) -> Result<(), AllocError>
    ensures { OnOk result (out.new.items ≡ out.old.items ++ broken_line message.now x y) }
{
    let place = place_text(heap, x, y)?;
    out.extend_from_slice(message)?;
    out.extend_from_slice(place.as_bytes())?;
    Ok(())
}
