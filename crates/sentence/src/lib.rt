// Why a flag verdict is given: which instructions are the causes of the flags' values, what each of them says, and which of them tell of a jump.
#![tactic(auto)]

ghost use Rattle.std.specs.Prelude.{◌≡◌, ◌<◌};
ghost use Rattle.machine.specs.Registers.{read_of};
ghost use Rattle.machine.specs.Conditions.{count_register};
ghost use Rattle.phrase.specs.Promises.{cause_text};
ghost use Rattle.sentence.specs.Why.{itself_why, operands_text};
ghost use Rattle.sentence.specs.Promises.{sets_of, setters_by, carry_own, values_own, arith_own, value_own, own_text, where_known, below_telling, flags_telling, count_telling, telling_of};

use alu::Flags;
use isa::{
    Binary, CarryChange, Condition, Counter, Instruction, Mnemonic, Operand, Register, Unary,
};
use machine::State;
use phrase::{Cause, FlagGroup};

// The numbers of the instructions that are the causes of the flags' values: the last that sets CF, with the number of cmc after it, and the last that
// sets the other flags. A number means nothing where its flags are unknown.
#[derive(Clone, Copy)]
pub struct Setters {
    pub result: usize,
    pub carry: usize,
    pub turns: u64,
}

impl Setters {
    // One instruction is the cause of all flags' values.
    pub fn all(number: usize) -> Self
        ensures { result ≡ record { result = number; carry = number; turns = 0 } }
    {
        Setters {
            result: number,
            carry: number,
            turns: 0,
        }
    }

    // With one more instruction, of that number. inc and dec leave CF.
    #[tactic(auto, unfolding(crate::specs::Promises::sets_of))]
    pub fn step(&mut self, number: usize, i: Instruction)
        requires { self.old.turns < 65536 }
        ensures { self.new ≡ setters_by self.old number (sets_of i) }
    {
        if !isa::is_modelled(i) {
            return;
        }
        match i.mnemonic {
            Mnemonic::Carry(CarryChange::Stc | CarryChange::Clc) => {
                self.carry = number;
                self.turns = 0;
            }
            Mnemonic::Carry(CarryChange::Cmc) => self.turns += 1,
            Mnemonic::OneOperand(Unary::Inc | Unary::Dec) => self.result = number,
            Mnemonic::TwoOperand(_) | Mnemonic::OneOperand(Unary::Neg) => {
                *self = Setters::all(number);
            }
            Mnemonic::Other
            | Mnemonic::Mov
            | Mnemonic::Not
            | Mnemonic::Jump(_)
            | Mnemonic::CountJump(_) => {}
        }
    }
}

// stc and clc; what cmc does is counted.
fn carry_cause(c: CarryChange) -> Cause
    ensures { cause_text result ≡ carry_own c }
{
    match c {
        CarryChange::Stc => Cause::Stc,
        CarryChange::Clc => Cause::Clc,
        CarryChange::Cmc => Cause::Nothing,
    }
}

// sub, xor, cmp of a register with itself.
fn itself_cause(op: Binary, d: Register) -> Cause
    ensures { cause_text result ≡ itself_why op d }
{
    match op {
        Binary::Sub | Binary::Xor => Cause::Value(d, 0),
        Binary::Cmp => Cause::Itself(d),
        Binary::Add | Binary::And | Binary::Or | Binary::Test => Cause::Nothing,
    }
}

// Two known operands: the second is named where it is another register.
fn operands_cause(d: Register, a: u64, o: Operand, b: u64) -> Cause
    ensures { cause_text result ≡ operands_text d a o b }
{
    match o {
        Operand::Reg(r) if !machine::is_same(d, o) => Cause::Values(d, a, r, b),
        Operand::Reg(_) | Operand::Absent | Operand::Imm(_) | Operand::Mem => Cause::Value(d, a),
    }
}

// An unknown operand leaves CF and OF known where the instruction clears them.
fn on_values(
    op: Binary,
    d: Register,
    o: Operand,
    a: Option<u64>,
    b: Option<u64>,
    group: FlagGroup,
) -> Cause
    ensures { cause_text result ≡ values_own op d o a b group }
{
    match (a, b) {
        (Some(a), Some(b)) => operands_cause(d, a, o, b),
        _ => phrase::cleared(op, group),
    }
}

// add, sub, cmp, and, or, xor, test.
#[tactic(auto, unfolding(crate::specs::Promises::arith_own))]
fn arith_cause(state: &State, op: Binary, d: Register, o: Operand, group: FlagGroup) -> Cause
    ensures { cause_text result ≡ arith_own state.now op d o group }
{
    if known::is_idiom(op) && machine::is_same(d, o) {
        return itself_cause(op, d);
    }
    on_values(op, d, o, state.read(d), state.operand(d.size, o), group)
}

// A register's value, where it is known.
fn value_cause(state: &State, d: Register) -> Cause
    ensures { cause_text result ≡ value_own d (read_of state.now d) }
{
    state.read(d).map_or(Cause::Nothing, |x| Cause::Value(d, x))
}

// The cause that an instruction is for CF, or for the other flags that it sets, by what is known before it.
#[tactic(auto, unfolding(crate::specs::Promises::own_text))]
pub fn cause_of(state: &State, i: Instruction, group: FlagGroup) -> Cause
    ensures { cause_text result ≡ own_text state.now i.mnemonic i.first i.second group }
{
    match (i.mnemonic, i.first) {
        (Mnemonic::Carry(c), _) => carry_cause(c),
        (Mnemonic::TwoOperand(op), Operand::Reg(d)) => arith_cause(state, op, d, i.second, group),
        (Mnemonic::OneOperand(_), Operand::Reg(d)) => value_cause(state, d),
        _ => Cause::Nothing,
    }
}

// What tells of a decided branch: the cause of CF, or that of the other flags, or the two joined; or a register's value.
#[derive(Clone, Copy)]
pub enum Telling {
    Carry,
    Result,
    Both,
    Value(Register, u64),
}

// Whether CF or ZF is set, where it is known: told by the first that is, by both where they are clear.
fn below(either: Option<bool>, carry: bool) -> Option<Telling>
    ensures { result ≡ below_telling either carry }
{
    either.map(|b| {
        if carry {
            Telling::Carry
        } else if b {
            Telling::Result
        } else {
            Telling::Both
        }
    })
}

// One cause, where the condition is decided.
fn alone(f: Option<bool>, telling: Telling) -> Option<Telling>
    ensures { result ≡ where_known f telling }
{
    f.map(|_| telling)
}

// A condition and its opposite are told alike. All flags but CF have one cause.
#[tactic(auto, unfolding(crate::specs::Promises::flags_telling))]
fn flags_telling(c: Condition, flags: Flags) -> Option<Telling>
    ensures { result ≡ flags_telling c flags }
{
    match c {
        Condition::B | Condition::Ae => alone(flags.cf, Telling::Carry),
        Condition::Be | Condition::A => {
            below(alu::or(flags.cf, flags.zf), flags.cf.unwrap_or(false))
        }
        Condition::E
        | Condition::Ne
        | Condition::L
        | Condition::Ge
        | Condition::Le
        | Condition::G
        | Condition::S
        | Condition::Ns
        | Condition::P
        | Condition::Np
        | Condition::O
        | Condition::No => alone(known::holds(c, flags), Telling::Result),
    }
}

// A count-register jump: the value that it reads, where it is known.
fn count_telling(state: &State, c: Counter) -> Option<Telling>
    ensures { result ≡ count_telling (count_register c) (read_of state.now (count_register c)) }
{
    let r = machine::count_register(c);
    state.read(r).map(|x| Telling::Value(r, x))
}

// What tells of a conditional branch of that mnemonic, where it is decided.
#[tactic(auto, unfolding(crate::specs::Promises::telling_of))]
pub fn jump_telling(state: &State, m: Mnemonic) -> Option<Telling>
    ensures { result ≡ telling_of state.now m }
{
    match m {
        Mnemonic::Jump(c) => flags_telling(c, state.flags),
        Mnemonic::CountJump(c) => count_telling(state, c),
        Mnemonic::Other
        | Mnemonic::Carry(_)
        | Mnemonic::Mov
        | Mnemonic::Not
        | Mnemonic::TwoOperand(_)
        | Mnemonic::OneOperand(_) => None,
    }
}
