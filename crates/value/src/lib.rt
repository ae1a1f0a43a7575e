// The value of an expression on given values of its variables.
#![tactic(auto)]

ghost use Rattle.std.proofs.Props.{props};
ghost use Rattle.std.specs.Prelude.{◌≡◌, None, true, cond, ◌+◌, ◌-◌, ◌^◌, ◌≤◌, ◌<◌, length, get_or, is_some, IfSome};
ghost use Rattle.expr.specs.Codes.{signed32};
ghost use Rattle.expr.specs.Root.{root_of, root_argument};
ghost use Rattle.expr.specs.Scan.{plain_expr};
ghost use Rattle.expr.specs.Tree.{tree_of};
ghost use Rattle.expr.specs.Tree.Expr.{cast as cast_tree, binary as binary_tree, ternary as ternary_tree};
ghost use Rattle.expr.specs.Types.{binary_type, type_of};
ghost use Rattle.expr.specs.declared.Root.TheVariants as root;
ghost use Rattle.arith.specs.Numbers.{bits};
ghost use Rattle.value.specs.Operators.{Typed, integer_of, chosen as chosen_of, flag, taken as taken_at, arithmetics, shifts, comparisons, no_operation, operators, no_operator, strict as strict_of, is_logic as is_logic_of, connect};
ghost use Rattle.value.specs.Evaluation.{evaluated, settled};

use expr::{Root, Tree};

// What an expression yields, the bit pattern of its type or nothing after a division by zero, with its static type.
#[derive(Clone, Copy)]
pub struct TypedValue {
    pub value: Option<u64>,
    pub typing: u64,
    ghost typed: { Typed typing value } by { Prim.hlevel props },
}

impl TypedValue {
    fn converted(self, t: u64) -> Option<u64>
        ensures { result ≡ taken_at self.typing t self.value }
    {
        self.value.map(|x| arith::converted(self.typing, t, x))
    }

    // The value taken at type t.
    fn taken(self, t: u64) -> TypedValue
        ensures value { result.value ≡ taken_at self.typing t self.value }
        ensures typing { result.typing ≡ t }
    {
        TypedValue {
            value: self.converted(t),
            typing: t,
        }
    }
}

// A pattern of type t from the low bits of a number.
fn chosen(t: u64, x: u64) -> TypedValue
    ensures value { result.value ≡ chosen_of t x }
    ensures typing { result.typing ≡ t }
{
    TypedValue {
        value: Some(arith::cut(t, x)),
        typing: t,
    }
}

// Of type t, after a division by zero.
fn no_value(t: u64) -> TypedValue
    ensures value { result.value ≡ None }
    ensures typing { result.typing ≡ t }
{
    TypedValue {
        value: None,
        typing: t,
    }
}

// A condition as an integer.
fn integer_of(holds: Option<bool>) -> Option<u64>
    ensures { result ≡ integer_of holds }
{
    holds.map(u64::from)
}

// A condition's value.
fn logic(holds: Option<bool>) -> TypedValue
    ensures value { result.value ≡ integer_of holds }
    ensures typing { result.typing ≡ signed32 }
{
    TypedValue {
        value: integer_of(holds),
        typing: expr::SIGNED_32,
    }
}

fn flagged(b: bool) -> Option<u64>
    ensures { result ≡ flag b }
{
    Some(u64::from(b))
}

// + - × / % & | ^ on two values of type t.
#[tactic(auto, unfolding(crate::specs::Operators::arithmetics))]
fn arithmetic(operator: u64, t: u64, a: u64, b: u64) -> Option<u64>
    requires a_bound { a < 2 ^ bits t }
    requires b_bound { b < 2 ^ bits t }
    ensures { result ≡ get_or arithmetics operator no_operation t a b }
{
    match operator {
        expr::ADD => Some(arith::sum(t, a, b)),
        expr::SUB => Some(arith::difference(t, a, b)),
        expr::MUL => Some(arith::product(t, a, b)),
        expr::DIV => arith::checked_div(t, a, b),
        expr::MOD => arith::checked_rem(t, a, b),
        expr::AND => Some(a & b),
        expr::OR => Some(a | b),
        expr::XOR => Some(a ^ b),
        _ => None,
    }
}

// << and >> on a value of type t.
#[tactic(auto, unfolding(crate::specs::Operators::shifts))]
fn shifted(operator: u64, t: u64, a: u64, k: u64) -> Option<u64>
    requires le_operator { (8 ≤ operator) × (operator < 10) }
    requires a_bound { a < 2 ^ bits t }
    requires k_bound { k < 64 }
    ensures { result ≡ get_or shifts (operator - 8) no_operation t a k }
{
    if operator == expr::SHL {
        Some(arith::shift_left(t, a, k))
    } else {
        Some(arith::shift_right(t, a, k))
    }
}

// == != < <= > >= on two values of type t.
#[tactic(auto, unfolding(crate::specs::Operators::comparisons))]
fn compared(operator: u64, t: u64, a: u64, b: u64) -> Option<u64>
    requires le_operator { 10 ≤ operator }
    requires a_bound { a < 2 ^ bits t }
    requires b_bound { b < 2 ^ bits t }
    ensures { result ≡ get_or comparisons (operator - 10) no_operation t a b }
{
    match operator {
        expr::EQUAL => flagged(a == b),
        expr::NOT_EQUAL => flagged(a != b),
        expr::LESS => flagged(arith::below(t, a, b)),
        expr::LESS_EQUAL => flagged(!arith::below(t, b, a)),
        expr::GREATER => flagged(arith::below(t, b, a)),
        expr::GREATER_EQUAL => flagged(!arith::below(t, a, b)),
        _ => None,
    }
}

// An operator up to >= on a of type ta and b of type tb.
fn binary(operator: u64, ta: u64, tb: u64, a: u64, b: u64) -> Option<u64>
    requires a_bound { a < 2 ^ bits ta }
    requires b_bound { b < 2 ^ bits tb }
    ensures { result ≡ get_or operators operator no_operator ta tb a b }
{
    let t = expr::joined(ta, tb);
    let x = arith::converted(ta, t, a);
    let y = arith::converted(tb, t, b);
    if operator < expr::SHL {
        return arithmetic(operator, t, x, y);
    }
    if operator < expr::EQUAL {
        let l = expr::promoted(ta);
        return shifted(
            operator,
            l,
            arith::converted(ta, l, a),
            arith::count(l, tb, b),
        );
    }
    compared(operator, t, x, y)
}

// An operator that needs both sides.
fn strict(operator: u64, left: TypedValue, right: TypedValue) -> Option<u64>
    ensures { result ≡ strict_of operator left.typing right.typing left.value right.value }
{
    let a = left.value?;
    let b = right.value?;
    binary(operator, left.typing, right.typing, a, b)
}

// Its value and its type.
fn operated(operator: u64, left: TypedValue, right: TypedValue) -> TypedValue
    ensures value { result.value ≡ strict_of operator left.typing right.typing left.value right.value }
    ensures typing { result.typing ≡ binary_type operator left.typing right.typing }
{
    TypedValue {
        value: strict(operator, left, right),
        typing: expr::binary_type(operator, left.typing, right.typing),
    }
}

// Whether the operator is && or ||.
fn is_logic(operator: u64) -> bool
    ensures { result ≡ is_logic_of operator }
{
    matches!(operator, expr::LOGICAL_AND | expr::LOGICAL_OR)
}

// The value given for the variable of this number; 0 where none is given.
fn lent(values: &[u64], number: u64) -> u64
    ensures { result ≡ get_or values.now number 0 }
{
    values.get(number as usize).copied().unwrap_or(0)
}

// A tree that can be evaluated: at most 128 records, without load and effect.
#[derive(Clone, Copy)]
pub struct Plain<'a> {
    pub tree: Tree<'a>,
    pub ghost few: { length tree.words.now ≤ 256 },
    pub ghost plain: { plain_expr (tree_of tree.words.now) ≡ true },
}

impl<'a> Plain<'a> {
    // The tree, if it is plain.
    pub fn of(tree: Tree<'a>) -> Option<Plain<'a>>
        requires { length tree.words.now ≤ 256 }
        ensures plain { is_some result ≡ plain_expr (tree_of tree.entry.words.now) }
        ensures same { IfSome result (λ e. e.tree.words.now ≡ tree.entry.words.now) }
    {
        // a test, and no `then_some`: the struct can be made only where the tree is plain
        if tree.is_plain() {
            Some(Plain { tree })
        } else {
            None
        }
    }

    // What is cast.
    fn child(self) -> Plain<'a>
        requires { root_of (tree_of self.tree.words.now) ≡ root.Cast }
        ensures tree { tree_of self.entry.tree.words.now ≡ cast_tree (root_argument (tree_of self.entry.tree.words.now)) (tree_of result.tree.words.now) }
        ensures size { length result.tree.words.now + 2 ≡ length self.entry.tree.words.now }
    {
        Plain {
            tree: self.tree.child(),
        }
    }

    // An operator's sides.
    fn sides(self) -> (Plain<'a>, Plain<'a>)
        requires { root_of (tree_of self.tree.words.now) ≡ root.Binary }
        ensures tree { tree_of self.entry.tree.words.now ≡ binary_tree (root_argument (tree_of self.entry.tree.words.now)) (tree_of result.0.tree.words.now) (tree_of result.1.tree.words.now) }
        ensures size { length result.0.tree.words.now + length result.1.tree.words.now + 2 ≡ length self.entry.tree.words.now }
    {
        let (left, right) = self.tree.sides();
        (Plain { tree: left }, Plain { tree: right })
    }

    // A ternary's condition and its two arms.
    fn arms(self) -> (Plain<'a>, Plain<'a>, Plain<'a>)
        requires { root_of (tree_of self.tree.words.now) ≡ root.Ternary }
        ensures tree { tree_of self.entry.tree.words.now ≡ ternary_tree (tree_of result.0.tree.words.now) (tree_of result.1.tree.words.now) (tree_of result.2.tree.words.now) }
        ensures size { length result.0.tree.words.now + length result.1.tree.words.now + length result.2.tree.words.now + 2 ≡ length self.entry.tree.words.now }
    {
        let (condition, then, otherwise) = self.tree.arms();
        (
            Plain { tree: condition },
            Plain { tree: then },
            Plain { tree: otherwise },
        )
    }

    // The tree's value.
    #[cycle(integer_condition_logical_ternary)]
    pub fn integer(self, types: &[u8], values: &[u64]) -> TypedValue
        ensures value { result.value ≡ evaluated types.now values.now (tree_of self.entry.tree.words.now) }
        ensures typing { result.typing ≡ type_of types.now (tree_of self.entry.tree.words.now) }
    {
        let n = self.tree.argument();
        match self.tree.root() {
            Root::Variable => chosen(expr::variable_type(types, n), lent(values, n)),
            Root::Constant => chosen(expr::constant_type(n), self.tree.value()),
            Root::True => logic(Some(true)),
            Root::False => logic(Some(false)),
            Root::Effect | Root::Load => unreachable!(),
            Root::Cast => self.child().integer(types, values).taken(n),
            Root::Binary => {
                let (left, right) = self.sides();
                if is_logic(n) {
                    return logic(left.logical(n, right, types, values));
                }
                operated(n, left.integer(types, values), right.integer(types, values))
            }
            Root::Ternary => self.ternary(types, values),
        }
    }

    // The tree as a condition.
    #[cycle(integer_condition_logical_ternary)]
    pub fn condition(self, types: &[u8], values: &[u64]) -> Option<bool>
        ensures { result ≡ settled types.now values.now (tree_of self.entry.tree.words.now) }
    {
        self.integer(types, values).value.map(|x| x != 0)
    }

    // && or || of two sides: the right one is evaluated only where the left one does not settle it.
    #[cycle(integer_condition_logical_ternary)]
    fn logical(self, operator: u64, right: Plain, types: &[u8], values: &[u64]) -> Option<bool>
        ensures { result ≡ connect operator (settled types.now values.now (tree_of self.entry.tree.words.now)) (settled types.now values.now (tree_of right.entry.tree.words.now)) }
    {
        let left = self.condition(types, values)?;
        if left == (operator != expr::LOGICAL_AND) {
            return Some(left);
        }
        right.condition(types, values)
    }

    // A ternary: the arm that its condition chooses is evaluated, of the other the type alone is found.
    #[cycle(integer_condition_logical_ternary)]
    fn ternary(self, types: &[u8], values: &[u64]) -> TypedValue
        requires { root_of (tree_of self.tree.words.now) ≡ root.Ternary }
        ensures value { result.value ≡ evaluated types.now values.now (tree_of self.entry.tree.words.now) }
        ensures typing { result.typing ≡ type_of types.now (tree_of self.entry.tree.words.now) }
    {
        let (condition, then, otherwise) = self.arms();
        match condition.condition(types, values) {
            Some(true) => {
                let a = then.integer(types, values);
                a.taken(expr::joined(a.typing, otherwise.tree.static_type(types)))
            }
            Some(false) => {
                let b = otherwise.integer(types, values);
                b.taken(expr::joined(then.tree.static_type(types), b.typing))
            }
            None => no_value(expr::joined(
                then.tree.static_type(types),
                otherwise.tree.static_type(types),
            )),
        }
    }
}
