// The evaluation: it takes any bytes and values, refuses what reading refuses, and answers by the rules.
#![tactic(auto)]

ghost use Rattle.std.specs.Prelude.{◌≡◌};
ghost use Rattle.answer_evaluation.specs.Evaluation.{in_numbers, evaluation_answer};

use evaluate_node::Evaluation;
use sheet_node::node::Node;

// The node of that number, from 0, run on the borrowed values of its variables; extra values are unread.
pub fn evaluation(s: &[u8], number: u64, values: &[u64]) -> Evaluation
    ensures { in_numbers result ≡ evaluation_answer s.now number values.now }
{
    let at = sheet::find_node(s, number)?;
    evaluate_node::evaluate_node(&Node::new(s, at), at, values)
}
