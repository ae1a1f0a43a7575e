// A node that was read whole, with readers of its parts, which check nothing again.

ghost use Rattle.std.specs.Prelude.{◌≡◌, ℕ, ◌+◌, ◌*◌, ◌≤◌, List, length, take, drop, Ok, IsOk};
ghost use Rattle.sheet_field.specs.Field.{little, WentOn};
ghost use Rattle.sheet_node.specs.Node.{statement_at, statements_from, node_at, types_in};
ghost use Rattle.sheet_node.specs.Promises.{PutStatement, TookStatement, front_of, reading_of, WholeStatement, WholeStatements, addresses_end};

use expr::Tree;
use sheet_expression::words;
use sheet_field::Reader;

// What is assigned: to which variable, and its value.
#[derive(Clone, Copy)]
pub struct Assignment<'w> {
    pub variable: u64,
    pub value: Tree<'w>,
}

// The first part of a node: its counts of variables and statements, and the offsets at which its types and its statements (body)
// start.
#[derive(Clone, Copy, PartialEq, Eq, Debug)]
pub struct NodeFront {
    pub variables: u64,
    pub types: usize,
    pub statements: u64,
    pub body: usize,
}

// A node: its first part, its count of addresses, the offsets at which its condition and its addresses (sites) start, and the offset
// after it.
#[derive(Clone, Copy, PartialEq, Eq, Debug)]
pub struct NodeParts {
    pub front: NodeFront,
    pub condition: usize,
    pub addresses: u64,
    pub sites: usize,
    pub end: usize,
}

// An assignment whose value's words stand at the start of a buffer: its variable, and how many records the value has.
#[derive(Clone, Copy, PartialEq, Eq, Debug)]
pub struct Put {
    pub variable: u64,
    pub records: usize,
}

impl Put {
    // Puts the words of the value that a statement assigns at the start of `out`. A statement that assigns nothing leaves `out` as it was. The statement
    // was read whole.
    pub fn put_statement(r: &mut Reader, out: &mut [u64]) -> Option<Put>
        requires { WholeStatement r.old.bytes.now r.old.at × (256 ≤ length out.old) }
        ensures same { r.new.bytes.now ≡ r.old.bytes.now }
        ensures put { (types : List ℕ) → WentOn (statement_at types r.old.bytes.now (Ok r.old.at)).next → PutStatement result r.new.at out.old out.new (statement_at types r.old.bytes.now (Ok r.old.at)) }
    {
        let map = r.take_number::<1>();
        if map != 3 {
            return None;
        }
        let variable = r.take_number::<1>();
        let records = words::put_expression(r, out);
        Some(Put { variable, records })
    }
}

// A statement that was read whole: its assignment, if it is one, with the value's words at the start of `out`.
pub fn take_statement<'w>(r: &mut Reader, out: &'w mut [u64]) -> Option<Assignment<'w>>
    requires { WholeStatement r.old.bytes.now r.old.at × (256 ≤ length out.old) }
    ensures same { r.new.bytes.now ≡ r.old.bytes.now }
    ensures took { (types : List ℕ) → WentOn (statement_at types r.old.bytes.now (Ok r.old.at)).next → TookStatement result r.new.at (statement_at types r.old.bytes.now (Ok r.old.at)) }
{
    let put = Put::put_statement(r, out)?;
    let value = Tree::new(&out[..2 * put.records]);
    Some(Assignment {
        variable: put.variable,
        value,
    })
}

// Goes past n statements that were read whole. The words of their values are taken into `words`, one after the other.
fn pass_statements(r: &mut Reader, n: u64, words: &mut [u64])
    requires { WholeStatements r.old.bytes.now r.old.at n × (256 ≤ length words.old) }
    ensures same { r.new.bytes.now ≡ r.old.bytes.now }
    ensures place { (types : List ℕ) → WentOn (statements_from types r.old.bytes.now (Ok r.old.at) n).next → Ok r.new.at ≡ (statements_from types r.old.bytes.now (Ok r.old.at) n).next }
{
    for _ in 0..n {
        take_statement(r, words);
    }
}

// The addresses of a node that was read whole, 8 bytes each, from the offset of their count on.
pub fn take_addresses<'a>(r: &mut Reader<'a>) -> &'a [u8]
    requires { WentOn (addresses_end r.old.bytes.now (Ok r.old.at)) }
    ensures value { result.now ≡ take (8 * little r.old.bytes.now r.old.at 2) (drop (r.old.at + 2) r.old.bytes.now) }
    ensures same { r.new.bytes.now ≡ r.old.bytes.now }
    ensures place { Ok r.new.at ≡ addresses_end r.old.bytes.now (Ok r.old.at) }
{
    let n = r.take_number::<2>() as usize;
    let from = r.at;
    r.at = from + 8 * n;
    &r.bytes[from..r.at]
}

// A node that was read whole.
#[derive(Clone, Copy)]
pub struct Node<'a> {
    pub bytes: &'a [u8],
    pub at: usize,
    pub front: NodeFront,
    pub ghost read: { IsOk (node_at bytes.now (Ok at)).next },
    pub ghost front_is: { front ≡ front_of (node_at bytes.now (Ok at)) },
}

impl<'a> Node<'a> {
    // The node record at an offset where one was read whole.
    pub fn new(bytes: &'a [u8], at: usize) -> Node<'a>
        requires { WentOn (node_at bytes.now (Ok at)).next }
        ensures bytes { result.bytes.now ≡ bytes.entry.now }
        ensures at { result.at ≡ at }
    {
        let mut r = Reader::new(bytes, at);
        let variables = r.take_number::<2>();
        let types = r.at;
        r.at = types + variables as usize;
        let statements = r.take_number::<2>();
        Node {
            bytes,
            at,
            front: NodeFront {
                variables,
                types,
                statements,
                body: r.at,
            },
        }
    }

    // The types of its variables.
    pub fn types(&self) -> &'a [u8]
        ensures { result.now ≡ types_in self.now.bytes.now (node_at self.now.bytes.now (Ok self.now.at)) }
    {
        let front = self.front;
        &self.bytes[front.types..front.types + front.variables as usize]
    }

    // Where its parts stand. `words` is a buffer for the words of its expressions, one after the other.
    pub fn parts(&self, words: &mut [u64]) -> NodeParts
        requires { 256 ≤ length words.old }
        ensures { reading_of result ≡ node_at self.now.bytes.now (Ok self.now.at) }
    {
        let front = self.front;
        let mut r = Reader::new(self.bytes, front.body);
        pass_statements(&mut r, front.statements, words);
        let condition = r.at;
        words::take_expression(&mut r, words);
        let addresses = r.take_number::<2>();
        let sites = r.at;
        NodeParts {
            front,
            condition,
            addresses,
            sites,
            end: sites + 8 * (addresses as usize),
        }
    }
}
