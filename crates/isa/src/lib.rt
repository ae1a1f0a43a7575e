// Instructions as values: registers, operands, mnemonics by name; which instructions are
// modelled, and which of those are at fault. Nothing here knows how a sheet writes them.
#![tactic(auto)]

ghost use Rattle.std.specs.Prelude.{◌≡◌, ◌<◌};
ghost use Rattle.isa.specs.Register.{well_formed};
ghost use Rattle.isa.specs.Mnemonics.{named};
ghost use Rattle.isa.specs.FlagBits.{has_bit, flag_bit, declares};
ghost use Rattle.isa.specs.Modelled.{is_register, is_absent, takes, modelled, sizes_differ, outside, is_mov, declares_result, declares_own, undeclared};
ghost use Rattle.isa.specs.Promises.{is_size, is_unary, fault_of};

// Class 1 are the general registers; index, size in bits and offset in bits name the part. All four are numbers, as a sheet may have any bytes
// for them.
#[derive(Clone, Copy, PartialEq, Eq)]
pub struct Register {
    pub class: u8,
    pub index: u8,
    pub size: u8,
    pub offset: u8,
}

// `Absent` is no `None`: most rules have it in one arm with operands that are no register, and an Option would be matched twice in each of these.
#[derive(Clone, Copy, PartialEq, Eq)]
pub enum Operand {
    Absent,
    Reg(Register),
    Imm(u64),
    Mem,
}

// The instructions that change CF alone.
#[derive(Clone, Copy)]
pub enum CarryChange {
    Stc,
    Clc,
    Cmc,
}

// The operations on two operands that set flags.
#[derive(Clone, Copy)]
pub enum Binary {
    Add,
    Sub,
    Cmp,
    And,
    Or,
    Xor,
    Test,
}

// The operations on one operand that set flags.
#[derive(Clone, Copy)]
pub enum Unary {
    Inc,
    Dec,
    Neg,
}

// The conditions of jumps on flags.
#[derive(Clone, Copy)]
pub enum Condition {
    E,
    Ne,
    L,
    Ge,
    Le,
    G,
    B,
    Ae,
    Be,
    A,
    S,
    Ns,
    P,
    Np,
    O,
    No,
}

// The register that a count-register jump tests.
#[derive(Clone, Copy)]
pub enum Counter {
    Rcx,
    Ecx,
    Cx,
}

// A mnemonic by what the rules make of it; `Other` is any that they do not name.
#[derive(Clone, Copy)]
pub enum Mnemonic {
    Other,
    Carry(CarryChange),
    Mov,
    Not,
    TwoOperand(Binary),
    OneOperand(Unary),
    Jump(Condition),
    CountJump(Counter),
}

#[derive(Clone, Copy)]
pub struct Instruction {
    pub address: u64,
    pub mnemonic: Mnemonic,
    // where it leads, if it is a conditional branch
    pub target: Option<u64>,
    // a call, an indirect call, a syscall or an interrupt
    pub call: bool,
    pub first: Operand,
    pub second: Operand,
    // the registers that it declares as written: the first count of these, in fixed memory
    pub written: [Register; 8],
    pub count: u64,
    // the flags that it declares as written
    pub flags: u64,
}

// The mnemonic of a number.
#[tactic(auto, unfolding(crate::specs::Mnemonics::named, crate::specs::Mnemonics::table))]
pub fn mnemonic_of(number: u64) -> Mnemonic
    requires { number < 35 }
    ensures { result ≡ named number }
{
    match number {
        0 => Mnemonic::Other,
        1 => Mnemonic::Carry(CarryChange::Stc),
        2 => Mnemonic::Carry(CarryChange::Clc),
        3 => Mnemonic::Carry(CarryChange::Cmc),
        4 => Mnemonic::Mov,
        5 => Mnemonic::Not,
        6 => Mnemonic::TwoOperand(Binary::Add),
        7 => Mnemonic::TwoOperand(Binary::Sub),
        8 => Mnemonic::TwoOperand(Binary::Cmp),
        9 => Mnemonic::TwoOperand(Binary::And),
        10 => Mnemonic::TwoOperand(Binary::Or),
        11 => Mnemonic::TwoOperand(Binary::Xor),
        12 => Mnemonic::TwoOperand(Binary::Test),
        13 => Mnemonic::OneOperand(Unary::Inc),
        14 => Mnemonic::OneOperand(Unary::Dec),
        15 => Mnemonic::OneOperand(Unary::Neg),
        16 => Mnemonic::Jump(Condition::E),
        17 => Mnemonic::Jump(Condition::Ne),
        18 => Mnemonic::Jump(Condition::L),
        19 => Mnemonic::Jump(Condition::Ge),
        20 => Mnemonic::Jump(Condition::Le),
        21 => Mnemonic::Jump(Condition::G),
        22 => Mnemonic::Jump(Condition::B),
        23 => Mnemonic::Jump(Condition::Ae),
        24 => Mnemonic::Jump(Condition::Be),
        25 => Mnemonic::Jump(Condition::A),
        26 => Mnemonic::Jump(Condition::S),
        27 => Mnemonic::Jump(Condition::Ns),
        28 => Mnemonic::Jump(Condition::P),
        29 => Mnemonic::Jump(Condition::Np),
        30 => Mnemonic::Jump(Condition::O),
        31 => Mnemonic::Jump(Condition::No),
        32 => Mnemonic::CountJump(Counter::Rcx),
        33 => Mnemonic::CountJump(Counter::Ecx),
        34 => Mnemonic::CountJump(Counter::Cx),
        _ => unreachable!(),
    }
}

// The flags, with the bits that stand for them in a set of declared ones.
#[derive(Clone, Copy, PartialEq, Eq, Debug)]
pub enum Flag {
    Cf = 1,
    Pf = 2,
    Zf = 4,
    Sf = 8,
    Of = 16,
}

// Whether a set of bits has that one, a power of two.
pub fn has_bit(set: u64, bit: u64) -> bool
    requires { 0 < bit }
    ensures { result ≡ has_bit set bit }
{
    set / bit % 2 == 1
}

// Whether that flag is among the declared ones.
pub fn is_declared(flags: u64, flag: Flag) -> bool
    ensures { result ≡ declares flags (flag_bit flag) }
{
    has_bit(flags, flag as u64)
}

fn is_size(size: u8) -> bool
    ensures { result ≡ is_size size }
{
    matches!(size, 8 | 16 | 32 | 64)
}

pub fn well_formed(r: Register) -> bool
    ensures { result ≡ well_formed r }
{
    if r.class != 1 {
        return true;
    }
    match r.offset {
        0 => r.index <= 15 && is_size(r.size),
        8 => r.index <= 3 && r.size == 8,
        _ => false,
    }
}

fn is_register(o: Operand) -> bool
    ensures { result ≡ is_register o }
{
    matches!(o, Operand::Reg(_))
}

fn is_absent(o: Operand) -> bool
    ensures { result ≡ is_absent o }
{
    matches!(o, Operand::Absent)
}

// Whether the rules cover the mnemonic with such operands.
fn is_taken(m: Mnemonic, register: bool, alone: bool) -> bool
    ensures { result ≡ takes m register alone }
{
    match m {
        Mnemonic::Carry(_) => true,
        Mnemonic::Mov | Mnemonic::TwoOperand(_) => register & !alone,
        Mnemonic::Not | Mnemonic::OneOperand(_) => register & alone,
        Mnemonic::Other | Mnemonic::Jump(_) | Mnemonic::CountJump(_) => false,
    }
}

// Whether the machine's rules cover the instruction beyond what it declares.
pub fn is_modelled(i: Instruction) -> bool
    ensures { result ≡ modelled i }
{
    !i.call & is_taken(i.mnemonic, is_register(i.first), is_absent(i.second))
}

fn sizes_differ(a: Operand, b: Operand) -> bool
    ensures { result ≡ sizes_differ a b }
{
    matches!((a, b), (Operand::Reg(x), Operand::Reg(y)) if x.class == 1 && y.class == 1 && x.size != y.size)
}

fn is_outside(o: Operand) -> bool
    ensures { result ≡ outside o }
{
    matches!(o, Operand::Reg(r) if r.class != 1)
}

fn is_mov(m: Mnemonic) -> bool
    ensures { result ≡ is_mov m }
{
    matches!(m, Mnemonic::Mov)
}

// Whether the flags that a result sets beside CF are declared.
fn declares_result(flags: u64) -> bool
    ensures { result ≡ declares_result flags }
{
    is_declared(flags, Flag::Pf)
        & is_declared(flags, Flag::Zf)
        & is_declared(flags, Flag::Sf)
        & is_declared(flags, Flag::Of)
}

// Whether the flags that the operation sets are declared.
fn declares_own(op: Unary, flags: u64) -> bool
    ensures { result ≡ declares_own op flags }
{
    let four = declares_result(flags);
    match op {
        Unary::Inc | Unary::Dec => four,
        Unary::Neg => four & is_declared(flags, Flag::Cf),
    }
}

fn is_undeclared(m: Mnemonic, flags: u64) -> bool
    ensures { result ≡ undeclared m flags }
{
    matches!(m, Mnemonic::OneOperand(op) if !declares_own(op, flags))
}

fn is_unary(m: Mnemonic) -> bool
    ensures { result ≡ is_unary m }
{
    matches!(m, Mnemonic::OneOperand(_))
}

// Refusal 6, from what it depends on. An instruction without operands has no fault; nor has one whose registers are of class 1
// and of one size, unless it must declare flags.
pub fn is_at_fault(m: Mnemonic, call: bool, first: Operand, second: Operand, flags: u64) -> bool
    ensures { result ≡ fault_of m call first second flags }
{
    let alone = is_absent(second);
    if is_absent(first) & alone {
        return false;
    }
    let differ = sizes_differ(first, second);
    let outside = is_outside(first) | is_outside(second);
    if !(differ | outside | is_unary(m)) {
        return false;
    }
    let modelled = !call & is_taken(m, is_register(first), alone);
    modelled & (differ | (!is_mov(m) & outside) | is_undeclared(m, flags))
}
