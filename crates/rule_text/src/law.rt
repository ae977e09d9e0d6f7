// Laws of regions, asked for by a contract.
ghost use Rattle.rule_text.specs.Regions.{ReadsSpelled, ReadsOnlySpelled};

/// A region that is spelled is read as its nodes, up to its end and no further; and what is read is spelled so.
pub fn laws_stand() -> u8
    ensures spelled { ReadsSpelled }
    ensures only_spelled { ReadsOnlySpelled }
{
    0
}
