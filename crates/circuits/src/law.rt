// Laws of circuits that are the same, each asked for by a contract.
ghost use Rattle.circuits.specs.Laws.{Compared, SameSelf, SameBack, SameOn};

/// Of circuits of every size, it is decided whether they are the same.
pub fn same_is_decided() -> u8
    ensures { Compared }
{
    0
}

/// A circuit is the same as itself; what is the same as another, that is the same as it, and so is what comes through a third.
pub fn same_stands() -> u8
    ensures alone { SameSelf }
    ensures back { SameBack }
    ensures on { SameOn }
{
    0
}
