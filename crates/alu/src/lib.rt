// The arithmetic of 8, 16, 32 and 64 bits: a result wraps at the width, and gives the flags CF, PF, ZF, SF and OF.
// A flag is `Some` where it is known, set or clear, else `None`; so is what a condition of flags yields.
#![tactic(auto)]

ghost use Rattle.std.specs.Prelude.{◌≡◌, ◌%◌, ◌^◌};
ghost use Rattle.alu.specs.Width.{bits, width_of};
ghost use Rattle.alu.specs.Arithmetic.{negative, even_parity, result_of, carry, signs_overflow, overflow, result_flags, performed};
ghost use Rattle.alu.specs.Flags.{opposite, either, both, differ};

#[derive(Clone, Copy)]
pub enum Width {
    Byte,
    Word,
    Double,
    Quad,
}

// The width of a size in bits, if it has one, as the sizes of well-formed registers of class 1 do.
pub fn width_of(size: u8) -> Option<Width>
    ensures { result ≡ width_of size }
{
    match size {
        8 => Some(Width::Byte),
        16 => Some(Width::Word),
        32 => Some(Width::Double),
        64 => Some(Width::Quad),
        _ => None,
    }
}

// The low bits that the width has.
pub fn cut(w: Width, x: u64) -> u64
    ensures { result ≡ x % 2 ^ bits w }
{
    match w {
        Width::Byte => x % 256,
        Width::Word => x % 65536,
        Width::Double => x % 4294967296,
        Width::Quad => x,
    }
}

// Whether the top bit of a value of that width is set.
fn is_negative(w: Width, x: u64) -> bool
    ensures { result ≡ negative w x }
{
    match w {
        Width::Byte => 128 <= x,
        Width::Word => 32768 <= x,
        Width::Double => 2147483648 <= x,
        Width::Quad => 9223372036854775808 <= x,
    }
}

// Whether the number of ones in the low byte is even.
fn has_even_parity(x: u64) -> bool
    ensures { result ≡ even_parity x }
{
    (x % 256).count_ones() % 2 == 0
}

// Each flag is set, clear or, at `None`, unknown.
#[derive(Clone, Copy)]
pub struct Flags {
    pub cf: Option<bool>,
    pub pf: Option<bool>,
    pub zf: Option<bool>,
    pub sf: Option<bool>,
    pub of: Option<bool>,
}

// What a result settles by itself, ZF, SF and PF, beside a carry and an overflow.
#[tactic(auto, unfolding(crate::specs::Arithmetic::result_flags))]
pub fn result_flags(w: Width, r: u64, cf: bool, of: bool) -> Flags
    ensures { result ≡ result_flags w r cf of }
{
    Flags {
        cf: Some(cf),
        pf: Some(has_even_parity(r)),
        zf: Some(r == 0),
        sf: Some(is_negative(w, r)),
        of: Some(of),
    }
}

#[derive(Clone, Copy)]
pub enum Operation {
    Add,
    Sub,
    And,
    Or,
    Xor,
}

// The result of an operation on two values of that width.
#[tactic(auto, using(crate::proofs::Laws::truncated, crate::proofs::Laws::truncated_difference), unfolding(crate::specs::Arithmetic::result_of))]
fn result_of(op: Operation, w: Width, a: u64, b: u64) -> u64
    ensures { result ≡ result_of op w a b }
{
    match op {
        Operation::Add => cut(w, a.wrapping_add(b)),
        Operation::Sub => cut(w, a.wrapping_sub(b)),
        Operation::And => a & b,
        Operation::Or => a | b,
        Operation::Xor => a ^ b,
    }
}

// The carry of a sum, the borrow of a difference; r is the result.
#[tactic(auto, unfolding(crate::specs::Arithmetic::carry))]
fn carry_of(op: Operation, a: u64, b: u64, r: u64) -> bool
    ensures { result ≡ carry op a b r }
{
    match op {
        Operation::Add => r < a,
        Operation::Sub => a < b,
        Operation::And | Operation::Or | Operation::Xor => false,
    }
}

// Two terms of one sign whose sum has the other.
fn signs_overflow(a: bool, b: bool, r: bool) -> bool
    ensures { result ≡ signs_overflow a b r }
{
    (a & b & !r) | (!a & !b & r)
}

// A sum overflows by its terms' signs, a difference as the sum with its second term's sign turned.
#[tactic(auto, unfolding(crate::specs::Arithmetic::overflow))]
fn overflow_of(op: Operation, w: Width, a: u64, b: u64, r: u64) -> bool
    ensures { result ≡ overflow op w a b r }
{
    let sa = is_negative(w, a);
    let sb = is_negative(w, b);
    let sr = is_negative(w, r);
    match op {
        Operation::Add => signs_overflow(sa, sb, sr),
        Operation::Sub => signs_overflow(sa, !sb, sr),
        Operation::And | Operation::Or | Operation::Xor => false,
    }
}

// What an operation gives.
#[derive(Clone, Copy)]
pub struct Performed {
    pub value: u64,
    pub flags: Flags,
}

// The result of an operation and the flags that it settles.
#[tactic(auto, unfolding(crate::specs::Arithmetic::performed))]
pub fn perform(op: Operation, w: Width, a: u64, b: u64) -> Performed
    ensures { result ≡ performed op w a b }
{
    let value = result_of(op, w, a, b);
    let cf = carry_of(op, a, b, value);
    let of = overflow_of(op, w, a, b, value);
    let flags = result_flags(w, value, cf, of);
    Performed { value, flags }
}

pub fn not(f: Option<bool>) -> Option<bool>
    ensures { result ≡ opposite f }
{
    f.map(|b| !b)
}

// One that is set settles it, also beside an unknown one.
pub fn or(f: Option<bool>, g: Option<bool>) -> Option<bool>
    ensures { result ≡ either f g }
{
    match (f, g) {
        (Some(true), _) | (_, Some(true)) => Some(true),
        (Some(false), Some(false)) => Some(false),
        (None, _) | (_, None) => None,
    }
}

// Both are set: not that one of them is clear.
pub fn and(f: Option<bool>, g: Option<bool>) -> Option<bool>
    ensures { result ≡ both f g }
{
    not(or(not(f), not(g)))
}

// One is set and the other clear.
pub fn differ_in(f: Option<bool>, g: Option<bool>) -> Option<bool>
    ensures { result ≡ differ f g }
{
    f.zip(g).map(|(a, b)| a != b)
}
