// Laws of ways and nets, on the contracts of functions.
ghost use Rattle.nets.specs.Laws.{HasNets, WaysBack, WaysOn, WaysMove};

/// Ways go back, go on, and move with what is drawn.
pub fn ways_stand() -> u8
    ensures back { WaysBack }
    ensures on { WaysOn }
    ensures moves { WaysMove }
{
    0
}

/// Every layout has numbers for its spots that are equal exactly where one can go.
pub fn nets_exist() -> u8
    ensures { HasNets }
{
    0
}
