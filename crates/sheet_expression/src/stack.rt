// The types of the trees that are complete so far, for one pass over an expression's records.

ghost use Rattle.std.specs.Prelude.{◌≡◌, ℕ, ◌+◌, ◌<◌, ◌≤◌, length, get_or, replicate, slice_set};

// Tree k from 1 on has its type in entry k + 1. The two entries before are 0, so that any record finds two types.
// `Tree::static_type` has a stack of its own, as any number may be a type there: with its entries of 64 bits, reading nodes takes 3 to 5
// in a hundred longer, and over entries of any type the fact that each is in the table could not be said here.
#[derive(Drop)]
pub(crate) struct Stack {
    types: [u8; 130],
    depth: u64,
    ghost few: { depth ≤ 128 },
    ghost in_table: { (k : ℕ) → get_or types k 0 < 10 },
}

impl Stack {
    pub(crate) fn new() -> Stack
        ensures types { result.types ≡ replicate 130 0 }
        ensures depth { result.depth ≡ 0 }
    {
        Stack {
            types: [0; 130],
            depth: 0,
        }
    }

    // How many trees there are.
    pub(crate) fn depth(&self) -> u64
        ensures { result ≡ self.now.depth }
    {
        self.depth
    }

    // The types of the last tree and, first, of the one before.
    pub(crate) fn last_two(&self) -> (u64, u64)
        ensures before { result.0 ≡ get_or self.now.types self.now.depth 0 }
        ensures last { result.1 ≡ get_or self.now.types (self.now.depth + 1) 0 }
    {
        let at = self.depth as usize;
        (u64::from(self.types[at]), u64::from(self.types[at + 1]))
    }

    // A tree of this type, which is now the last of so many; those that it is made of are no longer among them.
    pub(crate) fn put(&mut self, depth: u64, t: u64)
        requires { (depth ≤ 128) × (t < 10) }
        ensures types { self.new.types ≡ slice_set self.old.types (depth + 1) t }
        ensures depth { self.new.depth ≡ depth }
    {
        self.types[depth as usize + 1] = t as u8;
        self.depth = depth;
    }

    // The type of the first tree.
    pub(crate) fn first(&self) -> u64
        ensures { result ≡ get_or self.now.types 2 0 }
    {
        u64::from(self.types[2])
    }
}
