// What is held for one of N variables, in 256 words of its own.
ghost use Rattle.std.specs.Prelude.{◌≡◌, ℕ, ◌≤◌, ◌<◌, ◌||◌, false, cond, length, get_or, take};
ghost use Rattle.expr.specs.Tree.{Wf, tree_of};
ghost use Rattle.expr.specs.Scan.{reads as reads_of};

use expr::Tree;

// The words of a slot.
#[derive(Clone, Copy)]
struct Words([u64; 256]);

impl Words {
    // Writes words over the first of these.
    fn put(&mut self, words: &[u64])
        requires { length words.now ≤ 256 }
        ensures { take (length words.now) self.new.0 ≡ words.now }
    {
        slice::copy_to(words, &mut self.0, 0);
    }
}

// Which of N variables a tree reads, in one pass over its records.
fn variables<const N: usize>(tree: Tree) -> [bool; N]
    ensures { (v : ℕ) → v < N → get_or result v false ≡ reads_of v (tree_of tree.entry.words.now) }
{
    let mut read = [false; N];
    for record in tree.words.chunks_exact(2) {
        if expr::kind(record[0]) == expr::VARIABLE {
            // a test and an index: what `get_mut` leaves in the array has no name that the proof may cite
            let v = expr::argument(record[0]) as usize;
            if v < N {
                read[v] = true;
            }
        }
    }
    read
}

// The words of a tree, the first `length` of 256, with the variables that it reads; or nothing where `length` is 0.
// With a scan of each held tree instead of `read`, nodes of many variables that assign often take twice as long.
#[derive(Clone, Copy)]
pub(crate) struct Slot<const N: usize> {
    words: Words,
    length: usize,
    read: [bool; N],
    ghost few: { length ≤ 256 },
    ghost whole: { 0 < length → Wf (take length words.0) },
    ghost reads: { 0 < length → (v : ℕ) → v < N → get_or read v false ≡ reads_of v (tree_of (take length words.0)) },
}

impl<const N: usize> Slot<N> {
    ghost use Rattle.substitution.specs.Substitution.{free, held, entry_reads};
    ghost use Rattle.substitution.specs.Held.{entry_in, Holds};

    // Nothing is held.
    pub(crate) fn empty() -> Self
        ensures { entry_in result ≡ free }
    {
        Slot {
            words: Words([0; 256]),
            length: 0,
            read: [false; N],
        }
    }

    // The tree that is held.
    pub(crate) fn tree(&self) -> Option<Tree<'_>>
        ensures { Holds result (entry_in self.now) }
    {
        if self.length == 0 {
            return None;
        }
        Some(Tree::new(&self.words.0[..self.length]))
    }

    // Whether what is held reads variable v.
    pub(crate) fn reads(&self, v: u64) -> bool
        requires { v < N }
        ensures { result ≡ entry_reads v (entry_in self.now) }
    {
        self.length != 0 && self.read[v as usize]
    }

    // Ends what is held.
    pub(crate) fn clear(&mut self)
        ensures { entry_in self.new ≡ free }
    {
        self.length = 0;
    }

    // Ends what is held, if it is held for v itself, or reads v. Where nothing is held, `read` may say anything: then ending it changes nothing.
    pub(crate) fn end(&mut self, own: bool, v: u64)
        requires { v < N }
        ensures { entry_in self.new ≡ cond (own || entry_reads v (entry_in self.old)) free (entry_in self.old) }
    {
        if own || self.read[v as usize] {
            self.clear();
        }
    }

    // Holds a tree.
    #[tactic(auto, using(crate::proofs::Entries::entry_held))]
    pub(crate) fn hold(&mut self, tree: Tree)
        requires { length tree.words.now ≤ 256 }
        ensures { entry_in self.new ≡ held (tree_of tree.entry.words.now) }
    {
        // while its words are written, nothing is held
        self.clear();
        self.words.put(tree.words);
        self.read = variables(tree);
        self.length = tree.words.len();
    }
}
