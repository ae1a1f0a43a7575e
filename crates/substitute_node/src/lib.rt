// A node's statements, read where they stand in an accepted sheet, are substituted into its condition. Each statement's bytes are read once.
#![tactic(auto)]

ghost use Rattle.std.specs.Prelude.{◌≡◌, ℕ, ◌≤◌, ◌<◌, true, length, Ok};
ghost use Rattle.sheet_field.specs.Field.{WentOn};
ghost use Rattle.sheet_expression.specs.Expression.{expression_at};
ghost use Rattle.sheet_node.specs.Node.{statement_at, statements_from};
ghost use Rattle.substitution.specs.Held.{table_of};
ghost use Rattle.substitution.specs.Substitution.{nothing_held};
ghost use Rattle.substitute_node.specs.Node.{Idle, Stepped, Passed, MadeNode};

use expr::Tree;
use sheet_expression::words;
use sheet_field::Reader;
use sheet_node::node;
use substitution::Held;

// What the substitution of a node of up to N variables works in: what is held for each, which is nothing where `idle`, the words of the records that are
// read, and of those that are written.
#[derive(Drop)]
pub struct Room<const N: usize> {
    held: Held<N>,
    idle: bool,
    words: [u64; 256],
    out: [u64; 256],
}

impl<const N: usize> Room<N> {
    // Nothing is held.
    pub fn new() -> Self
        ensures held { table_of result.held ≡ nothing_held }
        ensures idle { result.idle ≡ true }
    {
        Room {
            held: Held::new(),
            idle: true,
            words: [0; 256],
            out: [0; 256],
        }
    }

    // The next statement, which was read whole: an assignment's value is substituted and assigned, any other statement ends all that is held. None where the
    // substituted value is too long.
    #[tactic(auto, using(crate::proofs::Passing::stepped_taken))]
    fn take_statement(&mut self, r: &mut Reader, types: &[u8]) -> Option<()>
        requires few { length types.now ≤ N }
        requires went_on { WentOn (statement_at types.now r.old.bytes.now (Ok r.old.at)).next }
        requires idle { Idle self.old.idle (table_of self.old.held) }
        ensures same { r.new.bytes.now ≡ r.old.bytes.now }
        ensures idle { Idle self.new.idle (table_of self.new.held) }
        ensures stepped { Stepped result r.new.at (table_of self.old.held) (table_of self.new.held) (statement_at types.now r.old.bytes.now (Ok r.old.at)) }
    {
        let Some(a) = node::take_statement(r, &mut self.words) else {
            if !self.idle {
                self.held.clear();
                self.idle = true;
            }
            return Some(());
        };
        self.idle = false;
        self.held
            .take_assignment(a.variable, a.value, &mut self.out)
    }

    // The next n statements, which were read whole, with nothing held before them; none where a substituted value is too long.
    fn take_statements(&mut self, r: &mut Reader, types: &[u8], n: u64) -> Option<()>
        requires few { 0 < n → length types.now ≤ N }
        requires went_on { WentOn (statements_from types.now r.old.bytes.now (Ok r.old.at) n).next }
        ensures same { r.new.bytes.now ≡ r.old.bytes.now }
        ensures passed { Passed result r.new.at (table_of self.new.held) (statements_from types.now r.old.bytes.now (Ok r.old.at) n) }
    {
        self.held.clear();
        self.idle = true;
        for _ in 0..n {
            self.take_statement(r, types)?;
        }
        Some(())
    }

    // A node's condition with its n statements substituted, where the reader is at the first of them; none where it, or a value before it, is too long. The
    // statements and the condition after them were read whole, and are read once more, with nothing checked again.
    pub fn substitute(&mut self, r: &mut Reader, types: &[u8], n: u64) -> Option<Tree<'_>>
        requires few { 0 < n → length types.now ≤ N }
        requires went_on { WentOn (statements_from types.now r.old.bytes.now (Ok r.old.at) n).next }
        requires went_on_2 { WentOn (expression_at (length types.now) r.old.bytes.now (statements_from types.now r.old.bytes.now (Ok r.old.at) n).next).next }
        ensures same { r.new.bytes.now ≡ r.old.bytes.now }
        ensures made { MadeNode result r.new.at (statements_from types.now r.old.bytes.now (Ok r.old.at) n).list (expression_at (length types.now) r.old.bytes.now (statements_from types.now r.old.bytes.now (Ok r.old.at) n).next) }
    {
        self.take_statements(r, types, n)?;
        let condition = words::take_expression(r, &mut self.words);
        self.held.substitute(condition, &mut self.out)
    }
}
