// The atoms of a part by number.
ghost use Rattle.std.specs.Prelude.{◌≡◌, [], ◌<◌, ◌≤◌, length};
ghost use Rattle.expr.specs.Tree.{tree_of};

use expr::Tree;

// The atoms that have a number, each at its own: `trees_of` is the trees of the first `count` of the list. What stands behind them counts for
// nothing. An array with a count, since nothing here allocates.
#[derive(Clone, Copy)]
pub struct Atoms<'a> {
    pub list: [Tree<'a>; 64],
    pub count: usize,
    pub ghost full: { length list ≡ 64 },
    pub ghost few: { count ≤ 64 },
}

impl<'a> Atoms<'a> {
    ghost use Rattle.parity.specs.Parity.{place as place_in, number_in, noted};
    ghost use Rattle.parity.specs.Lent.{trees_of};

    // No atoms yet. Any tree fills the table.
    #[tactic(auto, unfolding(crate::specs::Lent::exprs))]
    pub fn new(filler: Tree<'a>) -> Atoms<'a>
        ensures { trees_of result ≡ [] }
    {
        Atoms {
            list: [filler; 64],
            count: 0,
        }
    }

    // The number of the first atom that is the same as a part, or how many there are.
    fn place(&self, part: Tree) -> usize
        ensures { result ≡ place_in (trees_of self.now) (tree_of part.entry.words.now) }
    {
        self.list[..self.count]
            .iter()
            .position(|a| a.same(part))
            .unwrap_or(self.count)
    }

    // The number of a part as an atom: one with a value of its own in it, as an effect, is always a new one.
    fn number(&self, part: Tree) -> usize
        ensures { result ≡ number_in (trees_of self.now) (tree_of part.entry.words.now) }
    {
        if part.has_own_value() {
            return self.count;
        }
        self.place(part)
    }

    // The number of a part as an atom, which is noted where it is new.
    pub(crate) fn note(&mut self, part: Tree<'a>) -> usize
        requires { length (trees_of self.old) < 64 }
        ensures number { result ≡ number_in (trees_of self.old) (tree_of part.entry.words.now) }
        ensures noted { trees_of self.new ≡ noted (trees_of self.old) (tree_of part.entry.words.now) }
    {
        let n = self.number(part);
        if n == self.count {
            self.list[n] = part;
            self.count += 1;
        }
        n
    }
}
