// Substitution of a node's assignments into its condition, on expression records. What is held for each variable stands in a slot of its own.
#![tactic(auto)]

mod slot;

ghost use Rattle.std.specs.Prelude.{◌≡◌, ℕ, ◌+◌, ◌≤◌, ◌<◌, ◌++◌, length, get_or, drop, MatchOption};
ghost use Rattle.expr.specs.Tree.{tree_of};
ghost use Rattle.expr.specs.Scan.{any_node};
ghost use Rattle.substitution.specs.Substitution.{nothing_held, substitute as substitute_of, entry_reads, ended, holdable, kept, assigned};
ghost use Rattle.substitution.specs.Held.{entry_in, table_of, Holds, Made, Assigned, entry_for, pending_after, ended_tag};

use expr::Tree;
use slot::Slot;

// How many trees under a load are still to come before this record, if there were `left` of them up to it.
#[tactic(auto, unfolding(crate::specs::Held::pending_after))]
fn pending(left: u64, tag: u64) -> u64
    requires { pending_after left tag ≤ 256 }
    ensures { result ≡ pending_after left tag }
{
    if left == 0 {
        u64::from(expr::kind(tag) == expr::LOAD)
    } else {
        left - 1 + expr::arity(tag)
    }
}

// Puts words right before an offset of a list, and gives the offset where they start; none where they do not fit.
fn put_before(list: &mut [u64], at: usize, words: &[u64]) -> Option<usize>
    requires { at ≤ length list.old }
    ensures { MatchOption result (at < length words.now) (λ from. (from + length words.now ≡ at) × (drop from list.new ≡ words.now ++ drop at list.old)) }
{
    let from = at.checked_sub(words.len())?;
    slice::copy_to(words, list, from);
    Some(from)
}

// What is held for each of N variables.
#[derive(Drop)]
pub struct Held<const N: usize> {
    slots: [Slot<N>; N],
}

impl<const N: usize> Held<N> {
    // Nothing is held.
    #[tactic(auto, using(crate::proofs::Entries::none_held))]
    pub fn new() -> Self
        ensures { table_of result ≡ nothing_held }
    {
        Held {
            slots: [Slot::empty(); N],
        }
    }

    // Ends all that is held.
    pub fn clear(&mut self)
        ensures { table_of self.new ≡ nothing_held }
    {
        for slot in &mut self.slots {
            slot.clear();
        }
    }

    // What is held for variable v.
    #[tactic(auto, using(crate::proofs::Entries::there, crate::proofs::Entries::beyond))]
    fn of(&self, v: u64) -> Option<Tree<'_>>
        ensures { Holds result (table_of self.now v) }
    {
        self.slots.get(v as usize)?.tree()
    }

    // What is held for the variable that a record is, if no tree under a load is still to come.
    #[tactic(auto, unfolding(crate::specs::Held::entry_for))]
    fn held_for(&self, left: u64, tag: u64) -> Option<Tree<'_>>
        ensures { Holds result (entry_for (table_of self.now) left tag) }
    {
        if left == 0 && expr::kind(tag) == expr::VARIABLE {
            return self.of(expr::argument(tag));
        }
        None
    }

    // Writes a tree with each held variable replaced, loads left as they are, to the end of 256 words, and gives it; none where it is longer. The records are
    // taken from the last to the first, so that each load is seen before what stands under it.
    pub fn substitute<'a>(&self, tree: Tree<'_>, out: &'a mut [u64; 256]) -> Option<Tree<'a>>
        requires { length tree.words.now ≤ 256 }
        ensures { Made result (substitute_of (table_of self.now) (tree_of tree.entry.words.now)) }
    {
        let mut rest = tree.words;
        let mut at = 256;
        let mut left = 0;
        while let Some((front, record)) = rest.split_last_chunk::<2>() {
            let tag = record[0];
            match self.held_for(left, tag) {
                Some(value) => at = put_before(out, at, value.words)?,
                None => {
                    at = put_before(out, at, record)?;
                    left = pending(left, tag);
                }
            }
            rest = front;
        }
        Some(Tree::new(&out[at..]))
    }

    // Whether a record is a variable other than v whose held value ends when v is assigned.
    #[tactic(auto, unfolding(crate::specs::Held::ended_tag), using(crate::proofs::Entries::there, crate::proofs::Entries::beyond))]
    fn is_ended(&self, v: u64, tag: u64) -> bool
        requires { v < N }
        ensures { result ≡ ended_tag v (table_of self.now) tag }
    {
        let w = expr::argument(tag);
        if expr::kind(tag) != expr::VARIABLE || w == v {
            return false;
        }
        self.slots.get(w as usize).is_some_and(
            |slot| -> bool
                requires { v < N }
                ensures { result ≡ entry_reads v (entry_in slot.entry.now) }
            { slot.reads(v) },
        )
    }

    // Whether a value reads a variable other than v whose held value ends when v is assigned.
    fn reads_ended(&self, value: Tree, v: u64) -> bool
        requires { v < N }
        ensures { result ≡ any_node (ended v (table_of self.now)) (tree_of value.entry.words.now) }
    {
        value.words.chunks_exact(2).any(
            |record| -> bool
                requires { (v < N) × (length record.now ≡ 2) }
                ensures { result ≡ ended_tag v (table_of self.entry.now) (get_or record.entry.now 0 0) }
            { self.is_ended(v, record[0]) },
        )
    }

    // Whether a substituted value that is assigned to v is held.
    #[tactic(auto, unfolding(crate::specs::Substitution::holdable))]
    fn is_holdable(&self, value: Tree, v: u64) -> bool
        requires { v < N }
        ensures { result ≡ holdable v (table_of self.now) (tree_of value.entry.words.now) }
    {
        value.is_plain() && !self.reads_ended(value, v)
    }

    // Ends what is held for v, and all that reads v.
    fn end(&mut self, v: u64)
        requires { v < N }
        ensures { table_of self.new ≡ kept v (table_of self.old) }
    {
        for (w, slot) in self.slots.iter_mut().enumerate() {
            slot.end(w as u64 == v, v);
        }
    }

    // A substituted value is assigned to v: what reads v ends, and the value is held, if it can be.
    #[tactic(auto, using(crate::proofs::Entries::assigned_held, crate::proofs::Entries::assigned_free))]
    fn assign(&mut self, v: u64, value: Tree)
        requires bound { v < N }
        requires few { length value.words.now ≤ 256 }
        ensures { table_of self.new ≡ assigned v (tree_of value.entry.words.now) (table_of self.old) }
    {
        let holdable = self.is_holdable(value, v);
        self.end(v);
        if holdable {
            self.slots[v as usize].hold(value);
        }
    }

    // One assignment of a node: its value is substituted, and assigned. None where it is too long; then what is held is as it was.
    pub fn take_assignment(&mut self, v: u64, value: Tree, out: &mut [u64; 256]) -> Option<()>
        requires bound { v < N }
        requires few { length value.words.now ≤ 256 }
        ensures { Assigned result v (tree_of value.entry.words.now) (table_of self.old) (table_of self.new) }
    {
        let substituted = self.substitute(value, out)?;
        self.assign(v, substituted);
        Some(())
    }
}
