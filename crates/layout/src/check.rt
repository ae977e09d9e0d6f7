// Whether a layout in numbers is taken, and why not.
ghost use Rattle.layout.specs.Checks.{Checked};

use super::layout::Layout;
use super::refusal::Refusal;

/// How many boxes a layout has written out, or why it is turned away.
pub fn check_layout(nodes: &[u64]) -> Result<u64, Refusal>
    ensures { Checked nodes.now result }
{
    let layout = Layout::read(nodes)?;
    Ok(layout.count())
}
