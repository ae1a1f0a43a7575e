// The node verdict: it takes any bytes, refuses what reading refuses, and answers by the rules.
#![tactic(auto)]

ghost use Rattle.std.specs.Prelude.{◌≡◌};
ghost use Rattle.verdict.specs.Numbers.{answer_numbers};
ghost use Rattle.answer_node.specs.Node.{node_answer};

use sheet_node::node::Node;
use verdict::Answer;

// The verdict on the node of that number, from 0.
pub fn node_verdict(s: &[u8], number: u64) -> Answer
    ensures { answer_numbers result ≡ node_answer s.now number }
{
    let at = sheet::find_node(s, number)?;
    let judged = verdict_node::verdict_of(&Node::new(s, at))?;
    Ok(judged.verdict)
}
