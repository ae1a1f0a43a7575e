// Verdicts on branches, with the scope document's numbers for them and for the answers of operations.
#![tactic(auto)]

ghost use Rattle.std.specs.Prelude.{◌≡◌};
ghost use Rattle.verdict.specs.Numbers.{reason_number};

use refusal::Refusal;

// Why a branch is decided. Flags decide the branch of a block, all others that of a node.
#[derive(Clone, Copy, PartialEq, Eq, Debug)]
pub enum Reason {
    Flags = 1,
    EqualSides,
    Truth,
    UnsignedZero,
    ExactSides,
    Parity,
    Halves,
}

impl Reason {
    // The number of the reason: its variant's. As `From<Reason> for u8` this would be the same cast under a name that says less.
    pub fn number(self) -> u8
        ensures { result ≡ reason_number self }
    {
        self as u8
    }
}

// What is said of a branch: that it always jumps, or never, and why; that neither is known; or that there is none, which is said of blocks
// alone. As an `Option` around the other three it would make answers of two types, one for blocks and one for nodes, each with a definition of its
// numbers.
#[derive(Clone, Copy, PartialEq, Eq, Debug)]
pub enum Verdict {
    Always(Reason),
    Never(Reason),
    Undecided,
    NoBranch,
}

// What an operation answers.
pub type Answer = Result<Verdict, Refusal>;
