// What is known of values, of registers by their parts, and of flags, and what operations leave of it. Which register an
// instruction means is not known here.
#![tactic(auto)]

ghost use Rattle.std.specs.Prelude.{◌≡◌};
ghost use Rattle.known.specs.Values.{extracted, inserted, merged};
ghost use Rattle.known.specs.Registers.{unmarked, contents, slot_of, part_of, with_part};
ghost use Rattle.known.specs.Operations.{carry_rule, complement, operation_of, is_idiom, of_itself, no_flags, nothing_left, immediate, bitwise_flags, of_unknown, of_known, on_operands, arith_effect, with_carry, alone, kept_carry, unknown_carry, unary_effect, forget_flag, forget_flags};
ghost use Rattle.known.specs.Conditions.{flag_condition, is_zero};

use alu::{Flags, Operation, Performed, Width};
use isa::{Binary, CarryChange, Condition, Flag, Unary};

// What is known of a register: its marks, which are all set where it is known and else 0; and its value, which means nothing
// where it is not known; then it is 0. It is no Option: the library's scope fixes a map of registers with marks for what is known.
#[derive(Clone, Copy)]
pub struct Slot {
    pub known: u64,
    pub value: u64,
}

// All marks: 255 for each of eight bytes.
const MARKS: u64 = u64::MAX;

// The part of a whole register that a width and an offset name. Offset 8 counts at 8 bits alone.
#[tactic(auto, unfolding(crate::specs::Values::extracted))]
fn extract(w: Width, offset: u8, x: u64) -> u64
    ensures { result ≡ extracted w offset x }
{
    match w {
        Width::Byte => { if offset == 8 { x / 256 % 256 } else { x % 256 } }
        Width::Word => x % 65536,
        Width::Double => x % 4294967296,
        Width::Quad => x,
    }
}

// The whole register with another part.
#[tactic(auto, unfolding(crate::specs::Values::inserted))]
fn insert(w: Width, offset: u8, old: u64, x: u64) -> u64
    ensures { result ≡ inserted w offset old x }
{
    match w {
        Width::Byte => {
            if offset == 8 {
                old - old / 256 % 256 * 256 + x % 256 * 256
            } else {
                old - old % 256 + x % 256
            }
        }
        Width::Word => old - old % 65536 + x % 65536,
        Width::Double => old - old % 4294967296 + x % 4294967296,
        Width::Quad => x,
    }
}

// The whole register after a write to it.
#[tactic(auto, unfolding(crate::specs::Values::merged))]
fn merge(w: Width, offset: u8, old: Option<u64>, v: Option<u64>) -> Option<u64>
    ensures { result ≡ merged w offset old v }
{
    let x = v?;
    match w {
        Width::Byte | Width::Word => old.map(|whole| insert(w, offset, whole, x)),
        Width::Double => Some(x % 4294967296),
        Width::Quad => Some(x),
    }
}

impl Slot {
    // A register of which nothing is known.
    pub fn unknown() -> Self
        ensures { result ≡ unmarked }
    {
        Slot { known: 0, value: 0 }
    }

    // A register known as a whole, or not at all.
    fn of(v: Option<u64>) -> Self
        ensures { result ≡ slot_of v }
    {
        v.map_or(
            Slot::unknown(),
            |value| Slot {
                known: MARKS,
                value,
            },
        )
    }

    fn contents(self) -> Option<u64>
        ensures { result ≡ contents self }
    {
        (self.known == MARKS).then_some(self.value)
    }

    // What is known of a part of a register.
    #[tactic(auto, unfolding(crate::specs::Registers::part_of))]
    pub fn read(self, size: Option<Width>, offset: u8) -> Option<u64>
        ensures { result ≡ part_of size offset self }
    {
        let w = size?;
        self.contents().map(|x| extract(w, offset, x))
    }

    // What is known of a register after a write to a part of it.
    #[tactic(auto, unfolding(crate::specs::Registers::with_part))]
    pub fn write(self, size: Option<Width>, offset: u8, v: Option<u64>) -> Self
        ensures { result ≡ with_part size offset self v }
    {
        Slot::of(size.and_then(|w| merge(w, offset, self.contents(), v)))
    }
}

// An immediate, truncated to a width.
pub fn immediate_of(size: Option<Width>, x: u64) -> Option<u64>
    ensures { result ≡ immediate size x }
{
    size.map(|w| alu::cut(w, x))
}

// stc, clc, cmc.
pub fn carry_rule(c: CarryChange, cf: Option<bool>) -> Option<bool>
    ensures { result ≡ carry_rule c cf }
{
    match c {
        CarryChange::Stc => Some(true),
        CarryChange::Clc => Some(false),
        CarryChange::Cmc => alu::not(cf),
    }
}

// not.
pub fn complement_of(v: Option<u64>) -> Option<u64>
    ensures { result ≡ complement v }
{
    v.map(|x| !x)
}

// The operation of add to test.
fn operation(op: Binary) -> Operation
    ensures { result ≡ operation_of op }
{
    match op {
        Binary::Add => Operation::Add,
        Binary::Sub | Binary::Cmp => Operation::Sub,
        Binary::And | Binary::Test => Operation::And,
        Binary::Or => Operation::Or,
        Binary::Xor => Operation::Xor,
    }
}

// What an instruction leaves: a value for its register, and the flags.
#[derive(Clone, Copy)]
pub struct Effect {
    pub value: Option<u64>,
    pub flags: Flags,
}

// Whether the operation of a register with itself has the same result for every value.
pub fn is_idiom(op: Binary) -> bool
    ensures { result ≡ is_idiom op }
{
    matches!(op, Binary::Sub | Binary::Cmp | Binary::Xor)
}

// A register with itself.
#[tactic(auto, unfolding(crate::specs::Operations::of_itself))]
fn of_itself(w: Width) -> Effect
    ensures { result ≡ of_itself w }
{
    let flags = alu::result_flags(w, 0, false, false);
    Effect {
        value: Some(0),
        flags,
    }
}

// No flag is known.
pub fn no_flags() -> Flags
    ensures { result ≡ no_flags }
{
    Flags {
        cf: None,
        pf: None,
        zf: None,
        sf: None,
        of: None,
    }
}

// CF and OF are clear, the other flags are unknown.
fn bitwise_flags() -> Flags
    ensures { result ≡ bitwise_flags }
{
    Flags {
        cf: Some(false),
        pf: None,
        zf: None,
        sf: None,
        of: Some(false),
    }
}

// The flags after an operation with an unknown operand.
fn of_unknown(op: Binary) -> Flags
    ensures { result ≡ of_unknown op }
{
    match op {
        Binary::Add | Binary::Sub | Binary::Cmp => no_flags(),
        Binary::And | Binary::Or | Binary::Xor | Binary::Test => bitwise_flags(),
    }
}

// Both operands are known.
#[tactic(auto, unfolding(crate::specs::Operations::of_known))]
fn of_known(op: Binary, w: Width, a: u64, b: u64) -> Effect
    ensures { result ≡ of_known op w a b }
{
    let o = alu::perform(operation(op), w, a, b);
    Effect {
        value: Some(o.value),
        flags: o.flags,
    }
}

fn on_operands(op: Binary, w: Width, a: Option<u64>, b: Option<u64>) -> Effect
    ensures { result ≡ on_operands op w a b }
{
    match (a, b) {
        (Some(x), Some(y)) => of_known(op, w, x, y),
        (None, _) | (_, None) => Effect {
            value: None,
            flags: of_unknown(op),
        },
    }
}

// Nothing is known after an operation of a size that has no width.
fn nothing_left() -> Effect
    ensures { result ≡ nothing_left }
{
    Effect {
        value: None,
        flags: no_flags(),
    }
}

// add, sub, cmp, and, or, xor, test.
#[tactic(auto, unfolding(crate::specs::Operations::arith_effect))]
pub fn arith_effect(
    op: Binary,
    size: Option<Width>,
    same: bool,
    a: Option<u64>,
    b: Option<u64>,
) -> Effect
    ensures { result ≡ arith_effect op size same a b }
{
    match size {
        Some(w) if is_idiom(op) & same => of_itself(w),
        Some(w) => on_operands(op, w, a, b),
        None => nothing_left(),
    }
}

fn with_carry(f: Flags, cf: Option<bool>) -> Flags
    ensures { result ≡ with_carry f cf }
{
    Flags { cf, ..f }
}

// inc, dec, neg.
fn perform_alone(op: Unary, w: Width, a: u64) -> Performed
    ensures { result ≡ alone op w a }
{
    match op {
        Unary::Inc => alu::perform(Operation::Add, w, a, 1),
        Unary::Dec => alu::perform(Operation::Sub, w, a, 1),
        Unary::Neg => alu::perform(Operation::Sub, w, 0, a),
    }
}

// inc and dec keep CF, neg does not.
fn keep_carry(op: Unary, cf: Option<bool>, f: Flags) -> Flags
    ensures { result ≡ kept_carry op cf f }
{
    match op {
        Unary::Inc | Unary::Dec => with_carry(f, cf),
        Unary::Neg => f,
    }
}

// CF after inc, dec, neg of an unknown value.
pub fn unknown_carry(op: Unary, cf: Option<bool>) -> Option<bool>
    ensures { result ≡ unknown_carry op cf }
{
    match op {
        Unary::Inc | Unary::Dec => cf,
        Unary::Neg => None,
    }
}

// inc, dec, neg of a known value.
#[tactic(auto, unfolding(crate::specs::Operations::unary_effect))]
pub fn unary_effect(op: Unary, size: Option<Width>, cf: Option<bool>, a: u64) -> Effect
    ensures { result ≡ unary_effect op size cf a }
{
    size.map_or(nothing_left(), |w| {
        let o = perform_alone(op, w, a);
        Effect {
            value: Some(o.value),
            flags: keep_carry(op, cf, o.flags),
        }
    })
}

fn forget_flag(declared: bool, f: Option<bool>) -> Option<bool>
    ensures { result ≡ forget_flag declared f }
{
    if declared { None } else { f }
}

// Forget the flags that are declared as written.
#[tactic(auto, unfolding(crate::specs::Operations::forget_flags))]
pub fn forget_flags(declared: u64, f: Flags) -> Flags
    ensures { result ≡ forget_flags declared f }
{
    Flags {
        cf: forget_flag(isa::is_declared(declared, Flag::Cf), f.cf),
        pf: forget_flag(isa::is_declared(declared, Flag::Pf), f.pf),
        zf: forget_flag(isa::is_declared(declared, Flag::Zf), f.zf),
        sf: forget_flag(isa::is_declared(declared, Flag::Sf), f.sf),
        of: forget_flag(isa::is_declared(declared, Flag::Of), f.of),
    }
}

// The condition of a jump on flags.
#[tactic(auto, unfolding(crate::specs::Conditions::flag_condition))]
pub fn holds(c: Condition, f: Flags) -> Option<bool>
    ensures { result ≡ flag_condition c f }
{
    let less = alu::differ_in(f.sf, f.of);
    match c {
        Condition::E => f.zf,
        Condition::Ne => alu::not(f.zf),
        Condition::L => less,
        Condition::Ge => alu::not(less),
        Condition::Le => alu::or(f.zf, less),
        Condition::G => alu::and(alu::not(f.zf), alu::not(less)),
        Condition::B => f.cf,
        Condition::Ae => alu::not(f.cf),
        Condition::Be => alu::or(f.cf, f.zf),
        Condition::A => alu::and(alu::not(f.cf), alu::not(f.zf)),
        Condition::S => f.sf,
        Condition::Ns => alu::not(f.sf),
        Condition::P => f.pf,
        Condition::Np => alu::not(f.pf),
        Condition::O => f.of,
        Condition::No => alu::not(f.of),
    }
}

// The condition of a count-register jump.
pub fn is_zero(v: Option<u64>) -> Option<bool>
    ensures { result ≡ is_zero v }
{
    v.map(|x| x == 0)
}
