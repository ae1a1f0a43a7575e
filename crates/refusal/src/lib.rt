// Why a sheet, or what is asked of one, is refused, and where. docs/SHEET.md and docs/OPERATIONS.md describe refusals by number, and
// include/pomthija.h names the numbers for C.
#![tactic(auto)]

ghost use Rattle.std.specs.Prelude.{◌≡◌};
ghost use Rattle.refusal.specs.Numbers.{number_of, refused};

#[derive(Clone, Copy, PartialEq, Eq, Debug)]
pub enum Fault {
    // The sheet ends inside a field, or bytes are left over after its last record.
    Ends = 1,
    // A code, a map or a variable number that is not in its table.
    Code,
    // A count outside its limits.
    Count,
    // An instruction's address is not above the one before.
    Address,
    // A class 1 register that is not well formed.
    Register,
    // Operands or declared flags that a modelled instruction cannot have.
    Instruction,
    // Records that do not form one tree.
    Tree,
    // A constant above its width.
    Constant,
    // An assignment whose value has not its variable's type.
    Typing,
    // A substituted value or condition of more than 128 records.
    Records,
    // An equality that passes the limits on terms.
    Terms,
    // A list that is too short for the lines.
    Room,
    // No block, or node, of that number.
    Number,
    // A run that divides by zero.
    Division,
    // An effect, a load or a statement that assigns nothing, in a node to be evaluated.
    NotPlain,
    // No value for a variable, or one that its type cannot hold.
    Value,
    // A text that is too short for the sentence; its offset is the length needed.
    Text,
}

impl Fault {
    // The number of the refusal.
    pub fn number(self) -> u64
        ensures { result ≡ number_of self }
    {
        self as u64
    }

    // This fault at an offset.
    pub fn at(self, at: usize) -> Refusal
        ensures { result ≡ refused self at }
    {
        Refusal { fault: self, at }
    }
}

// A fault and the offset that it is reported at.
#[derive(Clone, Copy, PartialEq, Eq, Debug)]
pub struct Refusal {
    pub fault: Fault,
    pub at: usize,
}
