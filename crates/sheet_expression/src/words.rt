// What was read whole, as words, with nothing checked again.

ghost use Rattle.std.specs.Prelude.{◌≡◌, ℕ, ◌≤◌, length, Ok};
ghost use Rattle.sheet_field.specs.Field.{WentOn};
ghost use Rattle.sheet_expression.specs.Expression.{record_at, expression_at};
ghost use Rattle.sheet_expression.specs.Promises.{Took, TookTree, WholeRecord, RecordIs, WholeExpression};

use crate::has_argument;
use expr::Tree;
use sheet_field::Reader;

// The two words of a record that was read whole.
fn take_record(r: &mut Reader) -> (u64, u64)
    requires { WholeRecord r.old.bytes.now r.old.at }
    ensures same { r.new.bytes.now ≡ r.old.bytes.now }
    ensures is { (variables depth left : ℕ) → WentOn (record_at variables depth left r.old.bytes.now (Ok r.old.at)).next → RecordIs result r.new.at (record_at variables depth left r.old.bytes.now (Ok r.old.at)) }
{
    let kind = r.take_number::<1>();
    if !has_argument(kind) {
        return (kind, 0);
    }
    let tag = kind + 16 * r.take_number::<1>();
    if kind == expr::CONSTANT {
        return (tag, r.take_number::<8>());
    }
    (tag, 0)
}

// Puts the words of an expression that was read whole at the start of `out`, and gives how many records it has. What a slice that is lent in chunks
// ends as is not known, so the words are put by their indices.
pub fn put_expression(r: &mut Reader, out: &mut [u64]) -> usize
    requires { WholeExpression r.old.bytes.now r.old.at × (256 ≤ length out.old) }
    ensures same { r.new.bytes.now ≡ r.old.bytes.now }
    ensures took { (variables : ℕ) → WentOn (expression_at variables r.old.bytes.now (Ok r.old.at)).next → Took result (Ok r.new.at) out.old out.new (expression_at variables r.old.bytes.now (Ok r.old.at)) }
{
    let n = r.take_number::<2>() as usize;
    for i in 0..n {
        let (tag, value) = take_record(r);
        out[2 * i] = tag;
        out[2 * i + 1] = value;
    }
    n
}

// An expression that was read whole, as a tree, whose words stand at the start of `out`.
pub fn take_expression<'w>(r: &mut Reader, out: &'w mut [u64]) -> Tree<'w>
    requires { WholeExpression r.old.bytes.now r.old.at × (256 ≤ length out.old) }
    ensures same { r.new.bytes.now ≡ r.old.bytes.now }
    ensures took { (variables : ℕ) → WentOn (expression_at variables r.old.bytes.now (Ok r.old.at)).next → TookTree result r.new.at (expression_at variables r.old.bytes.now (Ok r.old.at)) }
{
    let n = put_expression(r, out);
    Tree::new(&out[..2 * n])
}
