// What is found of the sides of an equality: the value of an exact side, whether it is a constant as written, and whether the low
// bits of two sides always differ.
#![tactic(auto)]

ghost use Rattle.std.specs.Prelude.{◌≡◌, [], ◌+◌, ◌≤◌, length};
ghost use Rattle.expr.specs.Tree.{tree_of};
ghost use Rattle.parity.specs.Parity.{parity as parity_of, difference};
ghost use Rattle.parity.specs.Lent.{within};
ghost use Rattle.exact.specs.Exact.{is_constant, same_sides, is_one, decided_bit, low, shape, at_most_one, even_only, exact as exact_of, written as written_of, exact_fits};
ghost use Rattle.exact.specs.Answers.{Buffers, sum_fits};

use expr::{Root, Tree};
use parity::atoms::Atoms;
use parity::{Pair, TooMany};

// How a part with an operator is exact: by its left side's low bit, by its right side's, by being even, or by being 0.
#[derive(Clone, Copy, PartialEq, Eq, Debug)]
pub enum Shape {
    LowLeft,
    LowRight,
    Even,
    Vanishes,
    Other,
}

// A part is this constant.
pub fn is_constant(part: Tree, k: u64) -> bool
    ensures { result ≡ is_constant k (tree_of part.entry.words.now) }
{
    parity::constant_of(part) == Some(k)
}

// Two sides are equal, and have no value of their own at each occurrence.
pub fn same_sides(left: Tree, right: Tree) -> bool
    ensures { result ≡ same_sides (tree_of left.entry.words.now) (tree_of right.entry.words.now) }
{
    left.same(right) && !left.has_own_value()
}

// How a part with this operator is exact.
#[tactic(auto, unfolding(crate::specs::Exact::shape))]
fn shape_of(operator: u64, left: Tree, right: Tree) -> Shape
    ensures { result ≡ shape operator (tree_of left.entry.words.now) (tree_of right.entry.words.now) }
{
    match operator {
        expr::AND if is_constant(right, 1) => Shape::LowLeft,
        expr::AND if is_constant(left, 1) => Shape::LowRight,
        expr::MOD if is_constant(right, 2) => Shape::Even,
        expr::SUB | expr::XOR if same_sides(left, right) => Shape::Vanishes,
        expr::AND | expr::MUL if is_constant(left, 0) || is_constant(right, 0) => Shape::Vanishes,
        _ => Shape::Other,
    }
}

// The low bit that a polynomial decides.
fn decided_bit(poly: &[u64]) -> Option<u64>
    ensures { result ≡ decided_bit poly.now }
{
    match poly {
        [] => Some(0),
        [0] => Some(1),
        _ => None,
    }
}

// Whether a polynomial is the constant 1.
fn is_one(poly: &[u64]) -> bool
    ensures { result ≡ is_one poly.now }
{
    matches!(poly, [0])
}

// The low bit of a part by itself. Not inlined, so that a call of `exact` within another has no table of atoms.
#[inline(never)]
fn low_bit(part: Tree, terms: &mut [u64], scratch: &mut [u64]) -> Result<Option<u64>, TooMany>
    requires part_len_bound { length part.words.now ≤ 256 }
    requires buffers { Buffers (length part.words.now) terms.old scratch.old }
    ensures { result ≡ within (parity_of [] (tree_of part.entry.words.now)).fits (low (tree_of part.entry.words.now)) }
{
    let mut atoms = Atoms::new(part);
    let n = parity::parity(part, &mut atoms, terms, scratch)?;
    Ok(decided_bit(&terms[..n]))
}

// The low bits of two sides of an equality: whether their polynomials' sum is 1.
pub fn parted_sides<'a>(
    left: Tree<'a>,
    right: Tree<'a>,
    terms: &mut [u64],
    scratch: &mut [u64],
) -> Result<bool, TooMany>
    requires sides_len_bound { length left.words.now + length right.words.now + 2 ≤ 256 }
    requires buffers { Buffers (length left.words.now + length right.words.now + 2) terms.old scratch.old }
    ensures { result ≡ within (sum_fits (tree_of left.entry.words.now) (tree_of right.entry.words.now)) (is_one (difference (tree_of left.entry.words.now) (tree_of right.entry.words.now))) }
{
    let mut atoms = Atoms::new(left);
    let n = parity::sides(Pair::Sum, left, right, &mut atoms, terms, scratch)?;
    Ok(is_one(&terms[..n]))
}

// A value that a cast keeps.
fn at_most_one(v: Option<u64>) -> Option<u64>
    ensures { result ≡ at_most_one v }
{
    v.filter(|x| *x <= 1)
}

// The remainder by 2 of a part with this low bit.
fn even_only(v: Option<u64>) -> Option<u64>
    ensures { result ≡ even_only v }
{
    v.filter(|x| *x == 0)
}

// The value of an exact side.
pub fn exact(part: Tree, terms: &mut [u64], scratch: &mut [u64]) -> Result<Option<u64>, TooMany>
    requires part_len_bound { length part.words.now ≤ 256 }
    requires buffers { Buffers (length part.words.now) terms.old scratch.old }
    ensures { result ≡ within (exact_fits (tree_of part.entry.words.now)) (exact_of (tree_of part.entry.words.now)) }
{
    match part.root() {
        Root::Constant => Ok(Some(part.value())),
        Root::Cast => Ok(at_most_one(exact(part.child(), terms, scratch)?)),
        Root::Binary => {
            let (left, right) = part.sides();
            match shape_of(part.argument(), left, right) {
                Shape::LowLeft => low_bit(left, terms, scratch),
                Shape::LowRight => low_bit(right, terms, scratch),
                Shape::Even => Ok(even_only(low_bit(left, terms, scratch)?)),
                Shape::Vanishes => Ok(Some(0)),
                Shape::Other => Ok(None),
            }
        }
        _ => Ok(None),
    }
}

// A constant as written: one inside casts, & 1 and % 2. This goes on where `exact` asks for a low bit. A match of truth values, as two of its arms
// go on, and not a test for one kind.
pub fn written(part: Tree) -> bool
    ensures { result ≡ written_of (tree_of part.entry.words.now) }
{
    match part.root() {
        Root::Constant => true,
        Root::Cast => written(part.child()),
        Root::Binary => {
            let (left, right) = part.sides();
            match shape_of(part.argument(), left, right) {
                Shape::LowLeft | Shape::Even => written(left),
                Shape::LowRight => written(right),
                Shape::Vanishes | Shape::Other => false,
            }
        }
        _ => false,
    }
}
