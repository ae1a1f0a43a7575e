// The answer for a node of an accepted sheet: its statements are substituted into its condition, and that is decided.
#![tactic(auto)]

ghost use Rattle.std.specs.Prelude.{◌≡◌, ◌+◌, ◌*◌, ◌≤◌, length, take, drop, Ok, IfOk};
ghost use Rattle.sheet_field.specs.Field.{little, WentOn};
ghost use Rattle.expr.specs.Tree.{tree_of};
ghost use Rattle.substitution.specs.Substitution.{into};
ghost use Rattle.sheet_node.specs.Node.{node_at};
ghost use Rattle.sheet_node.specs.Promises.{addresses_end};
ghost use Rattle.verdict_node.specs.NodeVerdict.{on_substituted};
ghost use Rattle.verdict_node.specs.Promises.{answer_in, JudgedIs};

use expr::Tree;
use refusal::{Fault, Refusal};
use sheet_expression::words;
use sheet_field::Reader;
use sheet_node::node;
use sheet_node::node::Node;
use substitute_node::Room;
use verdict::{Answer, Verdict};

// The verdict on a node, and the node's addresses, 8 bytes each, with the offset of the first (sites).
#[derive(Clone, Copy)]
pub struct JudgedNode<'a> {
    pub verdict: Verdict,
    pub addresses: &'a [u8],
    pub sites: usize,
}

// The verdict on a condition, or refusal 11 where an equality passes the limits.
#[tactic(auto, using(crate::proofs::Judged::decided_within, crate::proofs::Judged::decided_beyond))]
fn answer_on(condition: Tree, place: usize) -> Answer
    requires { length condition.words.now ≤ 256 }
    ensures { result ≡ on_substituted place (into (tree_of condition.entry.words.now)) }
{
    decide::decide(condition).map_err(|_| Fault::Terms.at(place))
}

// The answer for a condition that ends where the reader is, with the addresses behind it.
fn judge<'a>(r: &mut Reader<'a>, condition: Tree, place: usize) -> Result<JudgedNode<'a>, Refusal>
    requires few { length condition.words.now ≤ 256 }
    requires there { WentOn (addresses_end r.old.bytes.now (Ok r.old.at)) }
    ensures answer { answer_in result ≡ on_substituted place (into (tree_of condition.entry.words.now)) }
    ensures addresses { IfOk result (λ j. j.addresses.now ≡ take (8 * little r.old.bytes.now r.old.at 2) (drop (r.old.at + 2) r.old.bytes.now)) }
    ensures sites { IfOk result (λ j. j.sites ≡ r.old.at + 2) }
{
    let verdict = answer_on(condition, place)?;
    let sites = r.at + 2;
    let addresses = node::take_addresses(r);
    Ok(JudgedNode {
        verdict,
        addresses,
        sites,
    })
}

// The answer for a node of up to N variables: refusal 10, or that of the decision on the condition. Its bytes are read once. What it works in has a frame
// of its own.
#[inline(never)]
fn verdict_among<'a, const N: usize>(node: &Node<'a>) -> Result<JudgedNode<'a>, Refusal>
    requires few { node.now.front.variables ≤ N }
    requires places { N ≤ 32 }
    ensures { JudgedIs result node.now.bytes.now (node_at node.now.bytes.now (Ok node.now.at)) node.now.at }
{
    let types = node.types();
    let mut r = Reader::new(node.bytes, node.front.body);
    let mut room: Room<N> = Room::new();
    match room.substitute(&mut r, types, node.front.statements) {
        Some(condition) => judge(&mut r, condition, node.at),
        None => Err(Fault::Records.at(node.at)),
    }
}

// The answer for a node without statements: its condition is decided as it stands.
fn verdict_plain<'a>(node: &Node<'a>) -> Result<JudgedNode<'a>, Refusal>
    requires { node.now.front.statements ≡ 0 }
    ensures { JudgedIs result node.now.bytes.now (node_at node.now.bytes.now (Ok node.now.at)) node.now.at }
{
    let mut words = [0u64; 256];
    let mut r = Reader::new(node.bytes, node.front.body);
    let condition = words::take_expression(&mut r, &mut words);
    judge(&mut r, condition, node.at)
}

// The answer for a node that was read whole.
#[tactic(auto, using(crate::proofs::Judged::variables_few))]
pub fn verdict_of<'a>(node: &Node<'a>) -> Result<JudgedNode<'a>, Refusal>
    ensures { JudgedIs result node.now.bytes.now (node_at node.now.bytes.now (Ok node.now.at)) node.now.at }
{
    if node.front.statements == 0 {
        verdict_plain(node)
    } else if node.front.variables <= 4 {
        verdict_among::<4>(node)
    } else {
        verdict_among::<32>(node)
    }
}
