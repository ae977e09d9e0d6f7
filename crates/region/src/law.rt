// A set of squares has one list of bands.
ghost use Rattle.region.specs.Regions.{OneForm};

/// Bands in normal form that cover the same squares begin at the same rows, with the same lines.
pub fn one_form_stands() -> u8
    ensures { OneForm }
{
    0
}
