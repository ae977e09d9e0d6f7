// Laws of rules, each asked for by a contract.
ghost use Rattle.rules.specs.Laws.{Decided, Table, RulesMove};

/// On every layout a rule is kept everywhere, or there is a first square that breaks it.
pub fn decided_stands() -> u8
    ensures { Decided }
{
    0
}

/// Two boxes, one of them narrow, a narrow gap apart: which squares break the two rules.
pub fn table_stands() -> u8
    ensures { Table }
{
    0
}

/// A drawing moved as a whole breaks the rules at the moved squares.
pub fn moves_stand() -> u8
    ensures { RulesMove }
{
    0
}
