// Expression records: what the words of a tree say, read off the words themselves. A record has two: its tag word, the number of its kind and 16
// times its argument, and its value, which is 0 but for a constant.
#![tactic(auto)]

ghost use Rattle.std.specs.Prelude.{◌≡◌, ◌+◌, ◌≤◌, length, get_or};
ghost use Rattle.expr.specs.Codes.{signed8};
ghost use Rattle.expr.specs.Tree.{kind_of, argument_of, arity_of, tag_of, value_of, Wf, Trees, tree_of, tree_count, last_start};
ghost use Rattle.expr.specs.Tree.Expr.{constant as constant_tree, cast as cast_tree, binary as binary_tree, ternary as ternary_tree};
ghost use Rattle.expr.specs.Root.{root_of, root_argument};
ghost use Rattle.expr.specs.Scan.{has_own_value, has_load, plain_expr, reads as reads_of, any_tag, of_kind, same_tree};
ghost use Rattle.expr.specs.Types.{bits, promoted as promoted_of, common as common_of, plain_type, same_type, together, constant_type, binary_type, record_type, type_of};

// What the root of a tree is, with the number that its kind of record has in a tag word.
#[derive(Clone, Copy, PartialEq, Eq, Debug)]
pub enum Root {
    Variable = 0,
    Constant = 1,
    True = 2,
    False = 3,
    Effect = 4,
    Load = 5,
    Cast = 6,
    Binary = 7,
    Ternary = 8,
}

// The numbers alone, which tag words and bytes of a sheet are compared with, and how many there are.
pub const VARIABLE: u64 = Root::Variable as u64;

pub const CONSTANT: u64 = Root::Constant as u64;

pub const TRUE: u64 = Root::True as u64;

pub const FALSE: u64 = Root::False as u64;

pub const EFFECT: u64 = Root::Effect as u64;

pub const LOAD: u64 = Root::Load as u64;

pub const CAST: u64 = Root::Cast as u64;

pub const BINARY: u64 = Root::Binary as u64;

pub const TERNARY: u64 = Root::Ternary as u64;

pub const KINDS: u64 = 9;

// Types, and how many there are. Numbers, as are operators: every function here has an answer for any number, and a sheet's bytes are
// used as they stand. Enums would need a conversion that may fail at each byte, and the fact at each use that it did not.
pub const SIGNED_8: u64 = 0;

pub const SIGNED_16: u64 = 1;

pub const SIGNED_32: u64 = 2;

pub const SIGNED_64: u64 = 3;

pub const UNSIGNED_8: u64 = 4;

pub const UNSIGNED_16: u64 = 5;

pub const UNSIGNED_32: u64 = 6;

pub const UNSIGNED_64: u64 = 7;

pub const POINTER: u64 = 8;

pub const BOOL: u64 = 9;

pub const TYPES: u64 = 10;

// A number that is no type, given for a width, an operator or a kind that there is not. An `Option` would stand in every function here,
// and be unwrapped where reading has let no such number through.
pub const NO_TYPE: u64 = TYPES;

// Operators, in `BinaryOp` order, and how many there are.
pub const ADD: u64 = 0;

pub const SUB: u64 = 1;

pub const MUL: u64 = 2;

pub const DIV: u64 = 3;

pub const MOD: u64 = 4;

pub const AND: u64 = 5;

pub const OR: u64 = 6;

pub const XOR: u64 = 7;

pub const SHL: u64 = 8;

pub const SHR: u64 = 9;

pub const EQUAL: u64 = 10;

pub const NOT_EQUAL: u64 = 11;

pub const LESS: u64 = 12;

pub const LESS_EQUAL: u64 = 13;

pub const GREATER: u64 = 14;

pub const GREATER_EQUAL: u64 = 15;

pub const LOGICAL_AND: u64 = 16;

pub const LOGICAL_OR: u64 = 17;

pub const OPERATORS: u64 = 18;

// The kind that a tag word says.
pub fn kind(tag: u64) -> u64
    ensures { result ≡ kind_of tag }
{
    tag % 16
}

// The argument that a tag word says: a variable's number, a constant's width, a type or an operator.
pub fn argument(tag: u64) -> u64
    ensures { result ≡ argument_of tag }
{
    tag / 16
}

// How many children a record of each kind takes, two bits for each: 1 for a load and a cast, 2 for a binary, 3 for a ternary.
// A shift, and no jump, as it is asked of every record.
const ARITIES: u64 = 0x39400;

// How many children the record with this tag word takes.
pub fn arity(tag: u64) -> u64
    ensures { result ≡ arity_of tag }
{
    (ARITIES >> (2 * kind(tag))) % 4
}

// How many bits a value of the type has.
#[tactic(auto, unfolding(crate::specs::Types::bits))]
pub fn width(t: u64) -> u64
    ensures { result ≡ bits t }
{
    match t {
        SIGNED_8 | UNSIGNED_8 => 8,
        SIGNED_16 | UNSIGNED_16 => 16,
        SIGNED_32 | UNSIGNED_32 => 32,
        BOOL => 1,
        _ => 64,
    }
}

// A type with pointer read as unsigned 64.
#[tactic(auto, unfolding(crate::specs::Types::plain_type))]
fn plain(t: u64) -> u64
    ensures { result ≡ plain_type t }
{
    if t == POINTER { UNSIGNED_64 } else { t }
}

// The type that an operand of type t is promoted to.
#[tactic(auto, unfolding(crate::specs::Types::promoted))]
pub fn promoted(t: u64) -> u64
    ensures { result ≡ promoted_of t }
{
    if width(t) < 32 {
        return SIGNED_32;
    }
    plain(t)
}

// Of two promoted types the wider one, and at one width the unsigned one.
#[tactic(auto, unfolding(crate::specs::Types::common))]
fn common(a: u64, b: u64) -> u64
    ensures { result ≡ common_of a b }
{
    let wa = width(a);
    let wb = width(b);
    if wa < wb {
        return b;
    }
    if wb < wa {
        return a;
    }
    if a < UNSIGNED_8 { b } else { a }
}

// Whether two types are the same, a pointer counting as unsigned 64.
#[tactic(auto, unfolding(crate::specs::Types::same_type))]
pub fn same_type(a: u64, b: u64) -> bool
    ensures { result ≡ same_type a b }
{
    plain(a) == plain(b)
}

// The type of two operands, or of two arms, together.
pub fn joined(a: u64, b: u64) -> u64
    ensures { result ≡ together a b }
{
    common(promoted(a), promoted(b))
}

// The type of a constant of this width.
#[tactic(auto, unfolding(crate::specs::Types::constant_type))]
pub fn constant_type(width: u64) -> u64
    ensures { result ≡ constant_type width }
{
    match width {
        1 => UNSIGNED_8,
        2 => UNSIGNED_16,
        4 => UNSIGNED_32,
        8 => UNSIGNED_64,
        _ => NO_TYPE,
    }
}

// The type of a binary operator's result, from its operands' types.
#[tactic(auto, unfolding(crate::specs::Types::binary_type))]
pub fn binary_type(operator: u64, a: u64, b: u64) -> u64
    ensures { result ≡ binary_type operator a b }
{
    if operator < SHL {
        return joined(a, b);
    }
    if operator < EQUAL {
        return promoted(a);
    }
    if operator < OPERATORS {
        return SIGNED_32;
    }
    NO_TYPE
}

// The type of the variable of this number.
pub fn variable_type(types: &[u8], number: u64) -> u64
    ensures { result ≡ get_or types.now number signed8 }
{
    types
        .get(number as usize)
        .map_or(SIGNED_8, |t| u64::from(*t))
}

// The type of the tree that a record makes, from the types of its last child, b, and of the one before, a.
#[tactic(auto, unfolding(crate::specs::Types::record_type))]
fn record_type(tag: u64, types: &[u8], a: u64, b: u64) -> u64
    ensures { result ≡ record_type types.now tag a b }
{
    let n = argument(tag);
    match kind(tag) {
        VARIABLE => variable_type(types, n),
        CONSTANT => constant_type(n),
        EFFECT | LOAD | CAST => n,
        BINARY => binary_type(n, a, b),
        TERNARY => joined(a, b),
        TRUE | FALSE => SIGNED_32,
        _ => NO_TYPE,
    }
}

// Where the last tree of a list of trees starts: from the end back, with the number of trees that are still to be passed. That count
// ends it, and not the words: a `for` over the records would have to be left from inside, and to say what holds if they run out.
fn last_start(rs: &[u64]) -> usize
    requires trees { Trees rs.now }
    requires bound { 1 ≤ tree_count rs.now }
    ensures { result ≡ last_start rs.now }
{
    let mut at = rs.len();
    let mut left: u64 = 1;
    while 0 < left {
        at -= 2;
        left = left - 1 + arity(rs[at]);
    }
    at
}

// Words that are exactly one tree.
#[derive(Clone, Copy)]
pub struct Tree<'a> {
    pub words: &'a [u64],
    pub ghost wf: { Wf words.now },
}

impl<'a> Tree<'a> {
    pub fn new(words: &'a [u64]) -> Tree<'a>
        requires { Wf words.now }
        ensures { result.words.now ≡ words.now }
    {
        Tree { words }
    }

    // The tag word of the root.
    #[tactic(auto, using(crate::proofs::Views::two, crate::proofs::Views::tag_there))]
    fn tag(self) -> u64
        ensures { result ≡ tag_of (tree_of self.entry.words.now) }
    {
        self.words[self.words.len() - 2]
    }

    // What the root is.
    #[tactic(auto, using(crate::proofs::Views::kind_within, crate::proofs::Views::root_by_kind))]
    pub fn root(self) -> Root
        ensures { result ≡ root_of (tree_of self.entry.words.now) }
    {
        match kind(self.tag()) {
            VARIABLE => Root::Variable,
            CONSTANT => Root::Constant,
            TRUE => Root::True,
            FALSE => Root::False,
            EFFECT => Root::Effect,
            LOAD => Root::Load,
            CAST => Root::Cast,
            BINARY => Root::Binary,
            TERNARY => Root::Ternary,
            _ => unreachable!(),
        }
    }

    // The root's argument: a variable's number, a constant's width, a type or an operator.
    #[tactic(auto, using(crate::proofs::Views::argument_root))]
    pub fn argument(self) -> u64
        ensures { result ≡ root_argument (tree_of self.entry.words.now) }
    {
        argument(self.tag())
    }

    // A constant's value; 0 for any other root.
    #[tactic(auto, using(crate::proofs::Views::two, crate::proofs::Views::value_there))]
    pub fn value(self) -> u64
        ensures { result ≡ value_of (tree_of self.entry.words.now) }
    {
        self.words[self.words.len() - 1]
    }

    // What is cast.
    #[tactic(auto, using(crate::proofs::Views::two, crate::proofs::Views::child_of))]
    pub fn child(self) -> Tree<'a>
        requires { root_of (tree_of self.words.now) ≡ Root.Cast }
        ensures tree { tree_of self.entry.words.now ≡ cast_tree (root_argument (tree_of self.entry.words.now)) (tree_of result.words.now) }
        ensures size { length result.words.now + 2 ≡ length self.entry.words.now }
    {
        Tree {
            words: &self.words[..self.words.len() - 2],
        }
    }

    // An operator's sides.
    #[tactic(auto, using(crate::proofs::Views::two, crate::proofs::Views::sides_of))]
    pub fn sides(self) -> (Tree<'a>, Tree<'a>)
        requires { root_of (tree_of self.words.now) ≡ Root.Binary }
        ensures tree { tree_of self.entry.words.now ≡ binary_tree (root_argument (tree_of self.entry.words.now)) (tree_of result.0.words.now) (tree_of result.1.words.now) }
        ensures size { length result.0.words.now + length result.1.words.now + 2 ≡ length self.entry.words.now }
    {
        let n = self.words.len() - 2;
        let m = last_start(&self.words[..n]);
        (
            Tree {
                words: &self.words[..m],
            },
            Tree {
                words: &self.words[m..n],
            },
        )
    }

    // A ternary's condition and its two arms.
    #[tactic(auto, using(crate::proofs::Views::two, crate::proofs::Views::front_of, crate::proofs::Views::arms_of))]
    pub fn arms(self) -> (Tree<'a>, Tree<'a>, Tree<'a>)
        requires { root_of (tree_of self.words.now) ≡ Root.Ternary }
        ensures tree { tree_of self.entry.words.now ≡ ternary_tree (tree_of result.0.words.now) (tree_of result.1.words.now) (tree_of result.2.words.now) }
        ensures size { length result.0.words.now + length result.1.words.now + length result.2.words.now + 2 ≡ length self.entry.words.now }
    {
        let n = self.words.len() - 2;
        let m = last_start(&self.words[..n]);
        let l = last_start(&self.words[..m]);
        (
            Tree {
                words: &self.words[..l],
            },
            Tree {
                words: &self.words[l..m],
            },
            Tree {
                words: &self.words[m..n],
            },
        )
    }

    // Whether a record of this kind stands in the tree.
    fn has_kind(self, k: u64) -> bool
        ensures { result ≡ any_tag (of_kind k) self.entry.words.now }
    {
        self.words
            .chunks_exact(2)
            .any(|record| kind(record[0]) == k)
    }

    // Whether something with a value of its own at each occurrence stands in the tree.
    #[tactic(auto, using(crate::proofs::Scans::any_effect))]
    pub fn has_own_value(self) -> bool
        ensures { result ≡ has_own_value (tree_of self.entry.words.now) }
    {
        self.has_kind(EFFECT)
    }

    // Whether a load stands in the tree.
    #[tactic(auto, using(crate::proofs::Scans::any_load))]
    fn has_load(self) -> bool
        ensures { result ≡ has_load (tree_of self.entry.words.now) }
    {
        self.has_kind(LOAD)
    }

    // Whether the variables alone give the tree's value.
    pub fn is_plain(self) -> bool
        ensures { result ≡ plain_expr (tree_of self.entry.words.now) }
    {
        !(self.has_own_value() | self.has_load())
    }

    // Whether the variable of number v stands in the tree, under a load too.
    pub fn reads(self, v: u64) -> bool
        ensures { result ≡ reads_of v (tree_of self.entry.words.now) }
    {
        self.words.chunks_exact(2).any(|record| (kind(record[0]) == VARIABLE)
            & (argument(record[0]) == v))
    }

    // The static type of the tree, given its variables' types: one pass over the records, with the types of the trees that are complete so far
    // on a stack above two empty entries.
    // The stack is not the one with which sheets are read: any number may be a type here, which takes entries of 64 bits, and with those
    // reading nodes takes 3 to 5 in a hundred longer.
    pub fn static_type(self, types: &[u8]) -> u64
        requires { length self.words.now ≤ 256 }
        ensures { result ≡ type_of types.now (tree_of self.entry.words.now) }
    {
        let mut stack: [u64; 130] = [0; 130];
        let mut top: usize = 2;
        for record in self.words.chunks_exact(2) {
            let tag = record[0];
            let t = record_type(tag, types, stack[top - 2], stack[top - 1]);
            let at = top - arity(tag) as usize;
            stack[at] = t;
            top = at + 1;
        }
        stack[2]
    }

    // Whether two trees are the same, record for record.
    #[tactic(auto, using(crate::proofs::Sameness::equal_words))]
    pub fn same(self, other: Tree) -> bool
        ensures { result ≡ same_tree (tree_of self.entry.words.now) (tree_of other.entry.words.now) }
    {
        self.words == other.words
    }
}
