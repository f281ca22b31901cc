//! Conditions and their tests.

ghost use Rattle.std.specs.Prelude.{◌≡◌, true};
ghost use Rattle.l6_prog.specs.Program.{may_have};
ghost use Rattle.l6_prog.specs.Values.{is_test};

use crate::chain::Chain;
use crate::operand::Operand;

/// Under which condition a statement's operations are done. Its tests are taken from left to right,
/// and none is taken once the answer is decided.
#[derive(Clone, Copy, Debug, PartialEq, Eq, Hash)]
pub enum Cond {
    /// No condition: it has no tests, and is true.
    Always,
    /// `IF`: its one test holds.
    If,
    /// `NOT`: its one test does not hold.
    Not,
    /// `IFALL`: all tests hold.
    IfAll,
    /// `IFANY`: some test holds.
    IfAny,
    /// `IFNONE`: no test holds.
    IfNone,
    /// `IFNALL`: not all tests hold.
    IfNotAll,
}

/// How the content of a test's chain is compared to its operand.
#[derive(Clone, Copy, Debug, PartialEq, Eq, Hash)]
pub enum Comparison {
    /// `E`: the content is the operand.
    Equal,
    /// `N`: the content is not the operand.
    NotEqual,
    /// `G`: the content is greater than the operand.
    Greater,
    /// `L`: the content is less than the operand.
    Less,
    /// `O`: each bit that is one in the operand is one in the content.
    AllOnes,
    /// `Z`: each bit that is one in the operand is zero in the content.
    AllZeros,
}

/// A test of a condition, as `(c,E,cd)`: how the content of a chain compares to an operand.
#[derive(Clone, Debug, Drop)]
pub struct Test {
    /// How they are compared.
    pub comparison: Comparison,
    /// The chain whose content is compared.
    pub chain: Chain,
    /// What it is compared to.
    pub operand: Operand,
}

impl Test {
    /// Does nothing. Its clause gives the prover what is true of every test.
    #[inline(always)]
    pub(crate) fn reveal(&self)
        ensures { is_test self.now ≡ true }
    {
        self.chain.reveal();
        self.operand.reveal();
    }
}

impl Cond {
    /// Whether the condition may have this many tests.
    pub(crate) fn may_have(self, tests: usize) -> bool
        ensures { result ≡ may_have self tests }
    {
        match self {
            Cond::Always => tests == 0,
            Cond::If | Cond::Not => tests == 1,
            Cond::IfAll | Cond::IfAny | Cond::IfNone | Cond::IfNotAll => tests > 0,
        }
    }
}
