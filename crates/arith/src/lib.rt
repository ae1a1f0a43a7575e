// Arithmetic on the bit patterns of a type's values: each operation wraps at the type's width. Both operands are of one type, which is passed
// once beside them: with the type in each, every operation would have to ask that they are equal. A struct of all three, with the facts that
// both are patterns, would ask those of sums and products too, which take any numbers.
#![tactic(auto)]

ghost use Rattle.std.specs.Prelude.{◌≡◌, ◌==◌, None, Some, cond, ◌-◌, ◌*◌, ◌%◌, ◌^◌, ◌<◌, pos, neg_ℤ, nat_abs, if◌then◌else◌};
ghost use Rattle.arith.specs.Numbers.{bits, fits as fits_type, negative, number, residue, wrap, convert, sum as sum_of, difference as difference_of, product as product_of, quotient, remainder, shift_left, shift_right, count as count_of, below as below_of};

// The largest pattern of the type: all its bits set.
#[tactic(auto, using(crate::proofs::Laws::bits_le, crate::proofs::Laws::bits_pos, crate::proofs::Laws::mask_of))]
fn mask(t: u64) -> u64
    ensures { result ≡ 2 ^ bits t - 1 }
{
    u64::MAX >> (64 - expr::width(t))
}

// The low bits that the type has.
pub fn cut(t: u64, x: u64) -> u64
    ensures { result ≡ x % 2 ^ bits t }
{
    x & mask(t)
}

// Whether x is a pattern of the type: no bit above its width.
#[tactic(auto, using(crate::proofs::Laws::some, crate::proofs::Laws::below_full))]
pub fn fits(t: u64, x: u64) -> bool
    ensures { result ≡ fits_type t x }
{
    x <= mask(t)
}

// Whether a pattern stands for a negative number.
#[tactic(auto, using(crate::proofs::Laws::some, crate::proofs::Laws::half_test), unfolding(crate::specs::Numbers::negative))]
fn is_negative(t: u64, x: u64) -> bool
    ensures { result ≡ negative t x }
{
    (t < expr::UNSIGNED_8) & (mask(t) / 2 < x)
}

// The pattern at 64 bits: the sign is copied upwards.
#[tactic(auto, using(crate::proofs::Laws::widened_negative, crate::proofs::Laws::widened_plain))]
fn widened(t: u64, x: u64) -> u64
    requires { x < 2 ^ bits t }
    ensures { result ≡ residue (2 ^ 64) (number t x) }
{
    if is_negative(t, x) {
        x + (u64::MAX - mask(t))
    } else {
        x
    }
}

// A value of type s as one of type t.
#[tactic(auto, using(crate::proofs::Laws::residue_cut), unfolding(crate::specs::Numbers::convert))]
pub fn converted(s: u64, t: u64, x: u64) -> u64
    requires { x < 2 ^ bits s }
    ensures { result ≡ convert s t x }
{
    if t == expr::BOOL {
        return u64::from(x != 0);
    }
    cut(t, widened(s, x))
}

// Sum, difference and product of two values of type t: at 64 bits first, and then truncated to the width.
#[tactic(auto, using(crate::proofs::Laws::low_bits))]
pub fn sum(t: u64, a: u64, b: u64) -> u64
    ensures { result ≡ sum_of t a b }
{
    cut(t, a.wrapping_add(b))
}

#[tactic(auto, using(crate::proofs::Laws::difference_wraps))]
pub fn difference(t: u64, a: u64, b: u64) -> u64
    requires { b < 2 ^ bits t }
    ensures { result ≡ difference_of t a b }
{
    cut(t, a.wrapping_sub(b))
}

#[tactic(auto, using(crate::proofs::Laws::low_bits))]
pub fn product(t: u64, a: u64, b: u64) -> u64
    ensures { result ≡ product_of t a b }
{
    cut(t, a.wrapping_mul(b))
}

// x, or the pattern of its negation.
#[tactic(auto, using(crate::proofs::Laws::negation), unfolding(crate::specs::Numbers::residue))]
fn with_sign(t: u64, minus: bool, x: u64) -> u64
    requires { x < 2 ^ bits t }
    ensures { result ≡ wrap t (if minus then neg_ℤ (pos x) else pos x) }
{
    if minus { difference(t, 0, x) } else { x }
}

// The size of the number that x stands for.
#[tactic(auto, using(crate::proofs::Laws::magnitude))]
fn magnitude(t: u64, x: u64) -> u64
    requires { x < 2 ^ bits t }
    ensures { result ≡ nat_abs (number t x) }
{
    with_sign(t, is_negative(t, x), x)
}

// The quotient, truncated toward zero, or nothing where b is zero: both magnitudes are divided, and the sign is put back.
#[tactic(auto, using(crate::proofs::Laws::divisor_positive, crate::proofs::Laws::quotient_lt, crate::proofs::Laws::quotient_is))]
pub fn checked_div(t: u64, a: u64, b: u64) -> Option<u64>
    requires a_bound { a < 2 ^ bits t }
    requires b_bound { b < 2 ^ bits t }
    ensures { result ≡ cond (b == 0) None (Some (quotient t a b)) }
{
    if b == 0 {
        return None;
    }
    let minus = is_negative(t, a) ^ is_negative(t, b);
    Some(with_sign(t, minus, magnitude(t, a) / magnitude(t, b)))
}

// What is left of the dividend, with its sign, or nothing where b is zero.
#[tactic(auto, using(crate::proofs::Laws::divisor_positive, crate::proofs::Laws::remainder_lt, crate::proofs::Laws::remainder_is))]
pub fn checked_rem(t: u64, a: u64, b: u64) -> Option<u64>
    requires a_bound { a < 2 ^ bits t }
    requires b_bound { b < 2 ^ bits t }
    ensures { result ≡ cond (b == 0) None (Some (remainder t a b)) }
{
    if b == 0 {
        return None;
    }
    let minus = is_negative(t, a);
    Some(with_sign(t, minus, magnitude(t, a) % magnitude(t, b)))
}

// Shifts by a count below 64.
#[tactic(auto, using(crate::proofs::Laws::low_bits))]
pub fn shift_left(t: u64, a: u64, k: u64) -> u64
    requires { k < 64 }
    ensures { result ≡ shift_left t a k }
{
    cut(t, a << k)
}

// A negative pattern is shifted as its complement, which is not negative.
#[tactic(auto, using(crate::proofs::Laws::shift_negative, crate::proofs::Laws::shift_plain))]
pub fn shift_right(t: u64, a: u64, k: u64) -> u64
    requires a_bound { a < 2 ^ bits t }
    requires k_bound { k < 64 }
    ensures { result ≡ shift_right t a k }
{
    let m = mask(t);
    if is_negative(t, a) {
        m - ((m - a) >> k)
    } else {
        a >> k
    }
}

// A shift's count: the value x of type s, modulo the width of type t. Every width divides 2^8, so the pattern leaves what its number leaves.
#[tactic(auto, using(crate::proofs::Laws::bits_pos))]
pub fn count(t: u64, s: u64, x: u64) -> u64
    requires { x < 2 ^ bits s }
    ensures { result ≡ count_of t s x }
{
    x % expr::width(t)
}

// Whether a's number is below b's: a negative one is below one that is not, and two of one sign are in their patterns' order.
#[tactic(auto, using(crate::proofs::Laws::below_is))]
pub fn below(t: u64, a: u64, b: u64) -> bool
    requires a_bound { a < 2 ^ bits t }
    requires b_bound { b < 2 ^ bits t }
    ensures { result ≡ below_of t a b }
{
    let na = is_negative(t, a);
    let nb = is_negative(t, b);
    (na & !nb) | ((na | !nb) & (a < b))
}
