// The verdict on a substituted condition: equal sides, truth, exact sides, parity, unsigned casts against 0, logic half by half.
#![tactic(auto)]

ghost use Rattle.std.specs.Prelude.{◌≡◌, ◌+◌, ◌≤◌, ◌<◌, false, cond, length};
ghost use Rattle.expr.specs.Tree.{tree_of};
ghost use Rattle.parity.specs.Lent.{terms_room, within};
ghost use Rattle.exact.specs.Exact.{compared};
ghost use Rattle.exact.specs.Answers.{Buffers};
ghost use Rattle.decide.specs.Decide.{said as said_of, or_else, equal_sides, on_exact, on_parity, unsigned, unsigned_cast, above_zero, mirrored as mirrored_of, unsigned_zero, both as both_of, negated as negated_of, either as either_of, decide as decide_of, fits};
ghost use Rattle.decide.specs.Answers.{equality_answer};

use expr::{Root, Tree};
use parity::TooMany;
use verdict::{Reason, Verdict};

fn said(reason: Reason, holds: bool) -> Verdict
    ensures { result ≡ said_of reason holds }
{
    if holds {
        Verdict::Always(reason)
    } else {
        Verdict::Never(reason)
    }
}

// The first of two steps that decides.
fn or_else(first: Verdict, second: Verdict) -> Verdict
    ensures { result ≡ or_else first second }
{
    match first {
        Verdict::Undecided => second,
        Verdict::Always(_) | Verdict::Never(_) | Verdict::NoBranch => first,
    }
}

// What exact sides say of an equality, unless both are constants as written.
fn exact_verdict(equal: bool, a: Option<u64>, b: Option<u64>, as_written: bool) -> Verdict
    ensures { result ≡ on_exact equal (compared a b as_written) }
{
    match (a, b) {
        (Some(x), Some(y)) if !as_written => said(Reason::ExactSides, equal == (x == y)),
        _ => Verdict::Undecided,
    }
}

// What the sides' low bits say of an equality, from whether they always differ.
fn parity_verdict(equal: bool, differ: bool) -> Verdict
    ensures { result ≡ on_parity equal differ }
{
    if !differ {
        return Verdict::Undecided;
    }
    said(Reason::Parity, !equal)
}

// Against 0 on its right.
fn above_zero(operator: u64) -> Verdict
    ensures { result ≡ above_zero operator }
{
    match operator {
        expr::GREATER_EQUAL => Verdict::Always(Reason::UnsignedZero),
        expr::LESS => Verdict::Never(Reason::UnsignedZero),
        _ => Verdict::Undecided,
    }
}

// The relation with its sides exchanged.
fn mirrored(operator: u64) -> u64
    ensures { result ≡ mirrored_of operator }
{
    match operator {
        expr::LESS => expr::GREATER,
        expr::GREATER => expr::LESS,
        expr::LESS_EQUAL => expr::GREATER_EQUAL,
        expr::GREATER_EQUAL => expr::LESS_EQUAL,
        _ => operator,
    }
}

// Both halves of && hold, or one fails; the left one's reason before the right one's.
fn both(left: Verdict, right: Verdict) -> Verdict
    ensures { result ≡ both_of left right }
{
    match left {
        Verdict::Never(reason) => Verdict::Never(reason),
        Verdict::Always(_) => match right {
            Verdict::Always(_) => Verdict::Always(Reason::Halves),
            Verdict::Never(reason) => Verdict::Never(reason),
            Verdict::Undecided | Verdict::NoBranch => Verdict::Undecided,
        },
        Verdict::Undecided => match right {
            Verdict::Never(reason) => Verdict::Never(reason),
            Verdict::Always(_) | Verdict::Undecided | Verdict::NoBranch => Verdict::Undecided,
        },
        Verdict::NoBranch => Verdict::Undecided,
    }
}

// Always and never exchanged.
fn negated(v: Verdict) -> Verdict
    ensures { result ≡ negated_of v }
{
    match v {
        Verdict::Always(reason) => Verdict::Never(reason),
        Verdict::Never(reason) => Verdict::Always(reason),
        Verdict::Undecided | Verdict::NoBranch => v,
    }
}

// One half of || holds, or both fail: && of the negations, negated.
fn either(left: Verdict, right: Verdict) -> Verdict
    ensures { result ≡ either_of left right }
{
    negated(both(negated(left), negated(right)))
}

// A comparison of equal sides. An operator and its sides are what a tree gives when it is asked (`argument`, `sides`): a struct of the three would be
// made in `decide` alone, and taken apart in each step.
fn equal_sides(operator: u64, left: Tree, right: Tree) -> Verdict
    ensures { result ≡ equal_sides operator (tree_of left.entry.words.now) (tree_of right.entry.words.now) }
{
    if !exact::same_sides(left, right) {
        return Verdict::Undecided;
    }
    match operator {
        expr::EQUAL | expr::LESS_EQUAL | expr::GREATER_EQUAL => Verdict::Always(Reason::EqualSides),
        expr::NOT_EQUAL | expr::LESS | expr::GREATER => Verdict::Never(Reason::EqualSides),
        _ => Verdict::Undecided,
    }
}

// == or !=: equal sides, exact sides, then parity, where every step is within the limits.
fn equality(
    operator: u64,
    left: Tree,
    right: Tree,
    terms: &mut [u64],
    scratch: &mut [u64],
) -> Result<Verdict, TooMany>
    requires sides_len_bound { length left.words.now + length right.words.now + 2 ≤ 256 }
    requires buffers { Buffers (length left.words.now + length right.words.now + 2) terms.old scratch.old }
    ensures { result ≡ equality_answer operator (tree_of left.entry.words.now) (tree_of right.entry.words.now) }
{
    let differ = exact::parted_sides(left, right, terms, scratch)?;
    let a = exact::exact(left, terms, scratch)?;
    let b = exact::exact(right, terms, scratch)?;
    let equal = operator == expr::EQUAL;
    let same = equal_sides(operator, left, right);
    let as_written = exact::written(left) & exact::written(right);
    let later = or_else(
        exact_verdict(equal, a, b, as_written),
        parity_verdict(equal, differ),
    );
    Ok(or_else(same, later))
}

// == or != with buffers for so many terms and products. Not inlined, so that a call of `decide` within another has no buffers.
#[inline(never)]
fn equality_in<const TERMS: usize, const PRODUCTS: usize>(
    operator: u64,
    left: Tree,
    right: Tree,
) -> Result<Verdict, TooMany>
    requires sides_len_bound { length left.words.now + length right.words.now + 2 ≤ 256 }
    requires terms { terms_room (length left.words.now + length right.words.now + 2) ≤ TERMS }
    requires least { 512 ≤ PRODUCTS }
    requires most { 36 < length left.words.now + length right.words.now + 2 → 4096 ≤ PRODUCTS }
    requires terms_bound { TERMS ≤ 2320 }
    requires products_bound { PRODUCTS ≤ 4096 }
    ensures { result ≡ equality_answer operator (tree_of left.entry.words.now) (tree_of right.entry.words.now) }
{
    let mut terms = [0u64; TERMS];
    let mut scratch = [0u64; PRODUCTS];
    equality(operator, left, right, &mut terms, &mut scratch)
}

// An unsigned type or a pointer.
fn is_unsigned(t: u64) -> bool
    ensures { result ≡ unsigned t }
{
    matches!(
        t,
        expr::UNSIGNED_8 | expr::UNSIGNED_16 | expr::UNSIGNED_32 | expr::UNSIGNED_64 | expr::POINTER
    )
}

// A cast to such a type.
#[tactic(auto, using(crate::proofs::Judged::unsigned_told, crate::proofs::Judged::not_cast))]
fn unsigned_cast(part: Tree) -> bool
    ensures { result ≡ unsigned_cast (tree_of part.entry.words.now) }
{
    part.root() == Root::Cast && is_unsigned(part.argument())
}

// An unsigned or pointer cast against the constant 0, on either side.
fn unsigned_zero(operator: u64, left: Tree, right: Tree) -> Verdict
    ensures { result ≡ unsigned_zero operator (tree_of left.entry.words.now) (tree_of right.entry.words.now) }
{
    if exact::is_constant(right, 0) {
        if unsigned_cast(left) {
            return above_zero(operator);
        }
        return Verdict::Undecided;
    }
    if exact::is_constant(left, 0) && unsigned_cast(right) {
        return above_zero(mirrored(operator));
    }
    Verdict::Undecided
}

// Any operator but ==, !=, && and ||: equal sides, then an unsigned cast against 0.
fn relation(operator: u64, left: Tree, right: Tree) -> Verdict
    ensures { result ≡ or_else (equal_sides operator (tree_of left.entry.words.now) (tree_of right.entry.words.now)) (unsigned_zero operator (tree_of left.entry.words.now) (tree_of right.entry.words.now)) }
{
    or_else(
        equal_sides(operator, left, right),
        unsigned_zero(operator, left, right),
    )
}

// The verdict on a condition: && and || are decided half by half.
pub fn decide(condition: Tree) -> Result<Verdict, TooMany>
    requires { length condition.words.now ≤ 256 }
    ensures { result ≡ within (fits (tree_of condition.entry.words.now)) (decide_of (tree_of condition.entry.words.now)) }
{
    match condition.root() {
        Root::True => Ok(Verdict::Always(Reason::Truth)),
        Root::False => Ok(Verdict::Never(Reason::Truth)),
        Root::Binary => {
            let (left, right) = condition.sides();
            let operator = condition.argument();
            match operator {
                expr::LOGICAL_AND => Ok(both(decide(left)?, decide(right)?)),
                expr::LOGICAL_OR => Ok(either(decide(left)?, decide(right)?)),
                expr::EQUAL | expr::NOT_EQUAL if condition.words.len() <= 36 => {
                    equality_in::<560, 512>(operator, left, right)
                }
                expr::EQUAL | expr::NOT_EQUAL => equality_in::<2320, 4096>(operator, left, right),
                _ => Ok(relation(operator, left, right)),
            }
        }
        _ => Ok(Verdict::Undecided),
    }
}
