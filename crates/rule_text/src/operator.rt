// The words between the operands of a region, and those that begin a rule.
ghost use Rattle.std.specs.Prelude.{◌≡◌};
ghost use Rattle.rule_text.specs.Operators.{operator_of, number_of, rule_kind_of, rule_number};

/// An operator, by the kind of its node.
#[derive(Clone, Copy)]
pub(crate) enum Operator {
    And = 1,
    Or = 2,
    Without = 3,
    Grown = 4,
}

/// The operator that a word is.
pub(crate) fn operator_of(word: &[u8]) -> Option<Operator>
    ensures { result ≡ operator_of word.now }
{
    match word {
        b"and" => Some(Operator::And),
        b"or" => Some(Operator::Or),
        b"without" => Some(Operator::Without),
        b"grown" => Some(Operator::Grown),
        _ => None,
    }
}

impl Operator {
    /// The kind of its node.
    pub(crate) fn number(self) -> u64
        ensures { result ≡ number_of self }
    {
        self as u64
    }
}

/// What a rule asks of its regions, by the number by which the rule entries know it.
#[derive(Clone, Copy, Debug, PartialEq)]
pub enum RuleKind {
    Wide = 0,
    Apart = 1,
    Inside = 2,
    Never = 3,
}

/// The rule that a word begins.
pub(crate) fn rule_kind_of(word: &[u8]) -> Option<RuleKind>
    ensures { result ≡ rule_kind_of word.now }
{
    match word {
        b"wide" => Some(RuleKind::Wide),
        b"apart" => Some(RuleKind::Apart),
        b"inside" => Some(RuleKind::Inside),
        b"never" => Some(RuleKind::Never),
        _ => None,
    }
}

impl RuleKind {
    /// The number by which the rule entries know it.
    pub fn number(self) -> u64
        ensures { result ≡ rule_number self }
    {
        self as u64
    }
}
