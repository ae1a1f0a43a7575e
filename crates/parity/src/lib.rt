// The low bit of a part as a polynomial over the low bits of its atoms. Polynomials stand at the start of a borrowed list, which serves as a
// stack: the left side's is made at its start, the right side's after it, and the two are put together at the start.
#![tactic(auto)]

pub mod atoms;

ghost use Rattle.std.specs.Prelude.{◌≡◌, true, ◌&&◌, ◌+◌, ◌≤◌, ◌<◌, leb, length, take, drop};
ghost use Rattle.expr.specs.Tree.{tree_of};
ghost use Rattle.poly.specs.Terms.{sum as sum_of, product as product_of};
ghost use Rattle.parity.specs.Parity.{constant_of, on_remainder, on_shift, entered as entered_of, parity as parity_of, few, few_pairs, constant_poly, joined as joined_of, pair_poly, pair_fits, atom_low};
ghost use Rattle.parity.specs.Lent.{within, pair_of, trees_of, Lent, Sides, Made, Given};

use atoms::Atoms;
use expr::{Root, Tree};

// A part passes the limits on terms and pairs.
#[derive(Clone, Copy, PartialEq, Eq, Debug)]
pub struct TooMany;

// How the low bits of two sides make that of the whole: their exclusive or, their and, or their or.
#[derive(Clone, Copy, PartialEq, Eq, Debug)]
pub enum Pair {
    Sum,
    Product,
    Or,
}

// How a part with an operator is entered: by both sides, by its left side alone, not at all because its low bit is 0, or not at
// all because it is an atom.
#[derive(Clone, Copy, PartialEq, Eq, Debug)]
pub enum Entry {
    Both(Pair),
    Keeps,
    Clears,
    Atom,
}

// The value of a part that is a constant.
#[tactic(auto, using(crate::proofs::Steps::constant_told, crate::proofs::Steps::constant_other))]
pub fn constant_of(part: Tree) -> Option<u64>
    ensures { result ≡ constant_of (tree_of part.entry.words.now) }
{
    (part.root() == Root::Constant).then_some(part.value())
}

fn on_remainder(c: Option<u64>) -> Entry
    ensures { result ≡ on_remainder c }
{
    match c {
        Some(x) if x != 0 && x % 2 == 0 => Entry::Keeps,
        _ => Entry::Atom,
    }
}

fn on_shift(c: Option<u64>) -> Entry
    ensures { result ≡ on_shift c }
{
    match c {
        Some(0) => Entry::Keeps,
        Some(1..32) => Entry::Clears,
        _ => Entry::Atom,
    }
}

// How a part with this operator is entered, given its right side.
#[tactic(auto, unfolding(crate::specs::Parity::entered))]
fn entered(operator: u64, right: Tree) -> Entry
    ensures { result ≡ entered_of operator (tree_of right.entry.words.now) }
{
    match operator {
        expr::ADD | expr::SUB | expr::XOR => Entry::Both(Pair::Sum),
        expr::MUL | expr::AND => Entry::Both(Pair::Product),
        expr::OR => Entry::Both(Pair::Or),
        expr::MOD => on_remainder(constant_of(right)),
        expr::SHL => on_shift(constant_of(right)),
        _ => Entry::Atom,
    }
}

// The polynomial of an atom, which is noted where it is new, and how many terms it has.
fn atom<'a>(part: Tree<'a>, atoms: &mut Atoms<'a>, terms: &mut [u64]) -> usize
    requires room { length (trees_of atoms.old) < 64 }
    requires space { 1 ≤ length terms.old }
    ensures { Given (atom_low (trees_of atoms.old) (tree_of part.entry.words.now)) (trees_of atoms.new) terms.new (Ok result) }
{
    terms[0] = 1 << atoms.note(part);
    1
}

// The polynomial of a constant, and how many terms it has.
#[tactic(auto, using(crate::proofs::Steps::front))]
fn constant_poly(terms: &mut [u64], x: u64) -> usize
    requires { 1 ≤ length terms.old }
    ensures count { result ≡ length (constant_poly x) }
    ensures stands { take result terms.new ≡ constant_poly x }
{
    if x % 2 == 0 {
        return 0;
    }
    terms[0] = 0;
    1
}

// A polynomial's count of terms is held to the limit.
fn limited(count: usize) -> Result<usize, TooMany>
    ensures { result ≡ within (leb count 256) count }
{
    if 256 < count {
        return Err(TooMany);
    }
    Ok(count)
}

// The sum of the sides, at the start. The lists and their counts are no struct, here and below: a fact in it, as `Sides`, would have to hold at
// each return, and each of these functions writes over what `Sides` tells of.
fn add_sides(terms: &mut [u64], n: usize, k: usize, scratch: &mut [u64]) -> Result<usize, TooMany>
    requires { Sides terms.old n k scratch.old }
    ensures { Made (few (sum_of (take n terms.old) (take k (drop n terms.old)))) (sum_of (take n terms.old) (take k (drop n terms.old))) terms.new result }
{
    slice::copy_to(&terms[n..n + k], scratch, 0);
    limited(poly::add(terms, n, &scratch[..k]))
}

// The product of the sides, at the start of the scratch.
fn product_sides(terms: &[u64], n: usize, k: usize, scratch: &mut [u64]) -> Result<usize, TooMany>
    requires { Sides terms.now n k scratch.old }
    ensures { Made (few_pairs (take n terms.now) (take k (drop n terms.now)) && few (product_of (take n terms.now) (take k (drop n terms.now)))) (product_of (take n terms.now) (take k (drop n terms.now))) scratch.new result }
{
    if 4096 < n * k {
        return Err(TooMany);
    }
    limited(poly::add_product(scratch, 0, &terms[..n], &terms[n..n + k]))
}

// The product of the sides, at the start.
fn multiply_sides(
    terms: &mut [u64],
    n: usize,
    k: usize,
    scratch: &mut [u64],
) -> Result<usize, TooMany>
    requires { Sides terms.old n k scratch.old }
    ensures { Made (few_pairs (take n terms.old) (take k (drop n terms.old)) && few (product_of (take n terms.old) (take k (drop n terms.old)))) (product_of (take n terms.old) (take k (drop n terms.old))) terms.new result }
{
    let count = product_sides(terms, n, k, scratch)?;
    slice::copy_to(&scratch[..count], terms, 0);
    Ok(count)
}

// The or of the sides, at the start: their sum, with their product added to it.
fn join_sides(terms: &mut [u64], n: usize, k: usize, scratch: &mut [u64]) -> Result<usize, TooMany>
    requires { Sides terms.old n k scratch.old }
    ensures { Made (pair_fits Pair.Or (take n terms.old) (take k (drop n terms.old))) (joined_of (take n terms.old) (take k (drop n terms.old))) terms.new result }
{
    let count = product_sides(terms, n, k, scratch)?;
    slice::copy_to(&terms[n..n + k], scratch, count);
    let sum = poly::add(terms, n, &scratch[count..count + k]);
    limited(poly::add(terms, sum, &scratch[..count]))
}

// A part's polynomial from its sides', which stand one after the other. The pair is a value that the definitions name: with a closure in its
// place the same three calls would stand in `entered`.
fn combined(
    pair: Pair,
    terms: &mut [u64],
    n: usize,
    k: usize,
    scratch: &mut [u64],
) -> Result<usize, TooMany>
    requires { Sides terms.old n k scratch.old }
    ensures { Made (pair_fits pair (take n terms.old) (take k (drop n terms.old))) (pair_poly pair (take n terms.old) (take k (drop n terms.old))) terms.new result }
{
    match pair {
        Pair::Sum => add_sides(terms, n, k, scratch),
        Pair::Product => multiply_sides(terms, n, k, scratch),
        Pair::Or => join_sides(terms, n, k, scratch),
    }
}

// The polynomial of a part with both sides entered: the right side's atoms have their numbers after the left side's. The right side gets the rest of
// `terms` and all of `scratch`, so a struct of the two lists would be taken apart and made anew here.
#[cycle(parity_sides)]
pub fn sides<'a>(
    pair: Pair,
    left: Tree<'a>,
    right: Tree<'a>,
    atoms: &mut Atoms<'a>,
    terms: &mut [u64],
    scratch: &mut [u64],
) -> Result<usize, TooMany>
    requires { Lent (length left.words.now + length right.words.now + 2) (length (trees_of atoms.old)) terms.old scratch.old }
    ensures { Given (pair_of pair (trees_of atoms.old) (tree_of left.entry.words.now) (tree_of right.entry.words.now)) (trees_of atoms.new) terms.new result }
{
    let n = parity(left, atoms, terms, scratch)?;
    let k = parity(right, atoms, &mut terms[n..], scratch)?;
    combined(pair, terms, n, k, scratch)
}

// The polynomial of a part, given the atoms that have numbers already: its terms stand at the start, and how many there are is given.
#[cycle(parity_sides)]
pub fn parity<'a>(
    part: Tree<'a>,
    atoms: &mut Atoms<'a>,
    terms: &mut [u64],
    scratch: &mut [u64],
) -> Result<usize, TooMany>
    requires { Lent (length part.words.now) (length (trees_of atoms.old)) terms.old scratch.old }
    ensures { Given (parity_of (trees_of atoms.old) (tree_of part.entry.words.now)) (trees_of atoms.new) terms.new result }
{
    match part.root() {
        Root::Constant => Ok(constant_poly(terms, part.value())),
        Root::Cast if part.argument() != expr::BOOL => parity(part.child(), atoms, terms, scratch),
        Root::Binary => {
            let (left, right) = part.sides();
            match entered(part.argument(), right) {
                Entry::Both(pair) => sides(pair, left, right, atoms, terms, scratch),
                Entry::Keeps => parity(left, atoms, terms, scratch),
                Entry::Clears => Ok(0),
                Entry::Atom => Ok(atom(part, atoms, terms)),
            }
        }
        _ => Ok(atom(part, atoms, terms)),
    }
}
