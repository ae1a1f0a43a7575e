// A node of an accepted sheet run on the caller's values: which nodes can be run, which values fit, and the run itself.
#![tactic(auto)]

ghost use Rattle.std.specs.Prelude.{◌≡◌, ◌≤◌, true, length, Ok};
ghost use Rattle.expr.specs.Tree.{tree_of};
ghost use Rattle.sheet_field.specs.Field.{WentOn};
ghost use Rattle.sheet_expression.specs.Expression.{expression_at};
ghost use Rattle.sheet_node.specs.Node.{statement_at, statements_from, node_at, node_of};
ghost use Rattle.evaluate_node.specs.Evaluate.{plain_all, unfit_from, on_truth, evaluation_of};
ghost use Rattle.evaluate_node.specs.Promises.{state_of, assigned_all, finish, StateIs, Stepped, Started};

use refusal::{Fault, Refusal};
use sheet_expression::words;
use sheet_field::Reader;
use sheet_node::node;
use sheet_node::node::Node;
use value::Plain;

// A node's evaluation: whether its condition holds.
pub type Evaluation = Result<bool, Refusal>;

// The first variable, by number, whose value is missing or does not fit its type.
fn first_unfit(types: &[u8], values: &[u64]) -> Option<usize>
    ensures { result ≡ unfit_from 0 types.now values.now }
{
    for v in 0..types.len() {
        if values.len() <= v {
            return Some(v);
        }
        if !arith::fits(u64::from(types[v]), values[v]) {
            return Some(v);
        }
    }
    None
}

// A run of a node: the types of its variables, their values as they are now, whether it goes on, and a buffer for the words of the records that are read.
#[derive(Drop)]
struct Run<'a> {
    types: &'a [u8],
    values: [u64; 32],
    going: bool,
    words: [u64; 256],
}

impl<'a> Run<'a> {
    // The run from the caller's values, where they fit; else one that does not go on.
    fn new(types: &'a [u8], values: &[u64], fits: bool) -> Run<'a>
        requires few { length types.now ≤ 32 }
        requires enough { fits ≡ true → length types.now ≤ length values.now }
        ensures types { result.types.now ≡ types.entry.now }
        ensures started { Started fits (length types.now) values.now result.going result.values }
    {
        let mut start = [0; 32];
        if fits {
            slice::copy_to(&values[..types.len()], &mut start, 0);
        }
        Run {
            types,
            values: start,
            going: fits,
            words: [0; 256],
        }
    }

    // The next statement, which was read whole: checked, and made in the values where the run goes on. None where it is not an assignment of a plain value.
    fn statement(&mut self, r: &mut Reader) -> Option<()>
        requires few { length self.old.types.now ≤ 32 }
        requires went_on { WentOn (statement_at self.old.types.now r.old.bytes.now (Ok r.old.at)).next }
        ensures types { self.new.types.now ≡ self.old.types.now }
        ensures same { r.new.bytes.now ≡ r.old.bytes.now }
        ensures stepped { Stepped result r.new.at self.new.going self.new.values self.old.types.now (state_of self.old.going self.old.values) (statement_at self.old.types.now r.old.bytes.now (Ok r.old.at)) }
    {
        let a = node::take_statement(r, &mut self.words)?;
        let value = Plain::of(a.value)?;
        if self.going {
            match value.integer(self.types, &self.values).value {
                Some(k) => self.values[a.variable as usize] = k,
                None => self.going = false,
            }
        }
        Some(())
    }

    // The next n statements, which were read whole: each is checked, and made in the values while the run goes on. None where a statement is not an
    // assignment of a plain value.
    fn statements(&mut self, r: &mut Reader, n: u64) -> Option<()>
        requires few { length self.old.types.now ≤ 32 }
        requires went_on { WentOn (statements_from self.old.types.now r.old.bytes.now (Ok r.old.at) n).next }
        ensures types { self.new.types.now ≡ self.old.types.now }
        ensures state { StateIs result self.new.going self.new.values (plain_all (statements_from self.old.types.now r.old.bytes.now (Ok r.old.at) n).list) (assigned_all self.old.types.now (statements_from self.old.types.now r.old.bytes.now (Ok r.old.at) n).list (state_of self.old.going self.old.values)) }
    {
        for _ in 0..n {
            self.statement(r)?;
        }
        Some(())
    }

    // Whether the condition holds at the end of the run; none where the run stopped, or stops there.
    fn condition(&self, condition: Plain) -> Option<bool>
        ensures { result ≡ finish self.now.types.now (tree_of condition.entry.tree.words.now) (state_of self.now.going self.now.values) }
    {
        if self.going {
            condition.condition(self.types, &self.values)
        } else {
            None
        }
    }
}

fn outcome(t: Option<bool>, place: usize) -> Evaluation
    ensures { result ≡ on_truth place t }
{
    t.ok_or(Fault::Division.at(place))
}

// The node, read whole, whose condition is plain.
fn run_node(node: &Node, place: usize, values: &[u64], condition: Plain) -> Evaluation
    requires { condition.tree.words.now ≡ (expression_at (node_at node.now.bytes.now (Ok node.now.at)).variables node.now.bytes.now (node_at node.now.bytes.now (Ok node.now.at)).condition).words }
    ensures { result ≡ evaluation_of (node_of node.now.bytes.now (node_at node.now.bytes.now (Ok node.now.at))) place values.now }
{
    let types = node.types();
    let unfit = first_unfit(types, values);
    let mut run = Run::new(types, values, unfit.is_none());
    let mut r = Reader::new(node.bytes, node.front.body);
    let Some(()) = run.statements(&mut r, node.front.statements) else {
        return Err(Fault::NotPlain.at(place));
    };
    if let Some(v) = unfit {
        return Err(Fault::Value.at(v));
    }
    outcome(run.condition(condition), place)
}

// The node, read whole; its refusals 14 and 15 stand at the place that is given.
pub fn evaluate_node(node: &Node, place: usize, values: &[u64]) -> Evaluation
    ensures { result ≡ evaluation_of (node_of node.now.bytes.now (node_at node.now.bytes.now (Ok node.now.at))) place values.now }
{
    let mut words = [0u64; 256];
    let parts = node.parts(&mut words);
    let mut r = Reader::new(node.bytes, parts.condition);
    let Some(condition) = Plain::of(words::take_expression(&mut r, &mut words)) else {
        return Err(Fault::NotPlain.at(place));
    };
    run_node(node, place, values, condition)
}
