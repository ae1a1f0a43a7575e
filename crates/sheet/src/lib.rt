// The sheet: read whole, it is accepted, with the counts of its records and where they start, or refused. Reading fills an
// index on the way, by which a block, an instruction or a node is found by its number.
#![tactic(auto)]

ghost use Rattle.std.specs.Prelude.{◌≡◌, ◌≤◌, set, OnOk, IfOk, Ok};
ghost use Rattle.sheet_field.specs.Field.{count_at};
ghost use Rattle.sheet_field.specs.Reads.{Reads};
ghost use Rattle.sheet.specs.Sheet.{instructions_from, nodes_from, sheet_at, reading_of};
ghost use Rattle.sheet.specs.Index.{over, Noted, Indexed};
ghost use Rattle.sheet.specs.Promises.{found_on};

use refusal::{Fault, Refusal};
use sheet_field::Reader;

pub mod code;

// How many records a section has, and the offset of the first.
#[derive(Clone, Copy, PartialEq, Eq, Debug)]
pub struct Section {
    pub count: u64,
    pub at: usize,
}

#[derive(Clone, Copy, PartialEq, Eq, Debug)]
pub struct Sheet {
    pub instructions: Section,
    pub blocks: Section,
    pub nodes: Section,
}

// A block's range of addresses, from at or above the first to below the second.
#[derive(Clone, Copy, PartialEq, Eq, Debug)]
pub struct Block {
    pub from: u64,
    pub to: u64,
}

// Stores an entry of the index, where the list reaches that far.
// Not by `get_mut`: of what is written through a slice's, a proof learns nothing.
fn note(list: &mut [u64], i: usize, x: u64)
    ensures { list.new ≡ set list.old i x }
{
    if i < list.len() {
        list[i] = x;
    }
}

// n instructions, with the address and the offset of each at the start of the borrowed lists, as far as these reach.
fn read_instructions(
    r: &mut Reader,
    n: u64,
    addresses: &mut [u64],
    places: &mut [u64],
) -> Result<(), Refusal>
    ensures reads { Reads r.old r.new result (instructions_from r.old.bytes.now (Ok r.old.at) n).next }
    ensures noted { OnOk result (Noted addresses.old addresses.new places.old places.new (instructions_from r.old.bytes.now (Ok r.old.at) n)) }
{
    let mut last = None;
    for i in 0..n {
        let at = r.at;
        let address = sheet_instruction::check_instruction(r, last)?;
        note(addresses, i as usize, address);
        note(places, i as usize, at as u64);
        last = Some(address);
    }
    Ok(())
}

// n nodes, with the offset of each at the start of the borrowed list, as far as it reaches.
fn read_nodes(r: &mut Reader, n: u64, places: &mut [u64]) -> Result<(), Refusal>
    ensures reads { Reads r.old r.new result (nodes_from r.old.bytes.now (Ok r.old.at) n).next }
    ensures noted { OnOk result (places.new ≡ over (nodes_from r.old.bytes.now (Ok r.old.at) n).places places.old) }
{
    for i in 0..n {
        let at = r.at;
        sheet_node::check_node(r)?;
        note(places, i as usize, at as u64);
    }
    Ok(())
}

// A section's count, of at most so many records; the first of them follows.
fn take_section(r: &mut Reader, most: u64) -> Result<Section, Refusal>
    ensures reads { Reads r.old r.new result (count_at 0 most r.old.bytes.now (Ok r.old.at)).next }
    ensures count { IfOk result (λ x. x.count ≡ (count_at 0 most r.old.bytes.now (Ok r.old.at)).value) }
    ensures at { IfOk result (λ x. x.at ≡ r.new.at) }
{
    let count = r.count(0, most)?;
    Ok(Section { count, at: r.at })
}

// Any bytes: accepted, or the first refusal. Of an accepted sheet the index stands at the start of the borrowed lists, as far
// as these reach: address and offset of each instruction, the offset of each node.
pub fn read_index(
    s: &[u8],
    addresses: &mut [u64],
    places: &mut [u64],
    nodes: &mut [u64],
) -> Result<Sheet, Refusal>
    ensures reading { result ≡ reading_of s.now }
    ensures index { OnOk result (Indexed addresses.old addresses.new places.old places.new nodes.old nodes.new (sheet_at s.now)) }
{
    let mut r = Reader::new(s, 0);
    let instructions = take_section(&mut r, 2048)?;
    read_instructions(&mut r, instructions.count, addresses, places)?;
    let blocks = take_section(&mut r, 1024)?;
    r.take_words(2 * blocks.count)?;
    let last = take_section(&mut r, 1024)?;
    read_nodes(&mut r, last.count, nodes)?;
    if s.len() <= r.at {
        Ok(Sheet {
            instructions,
            blocks,
            nodes: last,
        })
    } else {
        // bytes left over
        Err(Fault::Ends.at(r.at))
    }
}

// Any bytes: accepted, or the first refusal. No index is kept.
pub fn read(s: &[u8]) -> Result<Sheet, Refusal>
    ensures { result ≡ reading_of s.now }
{
    read_index(s, &mut [], &mut [], &mut [])
}

// Where the node of that number, from 0, starts; or the refusal.
#[tactic(auto, using(crate::proofs::Found::found_refused, crate::proofs::Found::found_missing))]
pub fn find_node(s: &[u8], number: u64) -> Result<usize, Refusal>
    ensures { result ≡ found_on (reading_of s.now) s.now number }
{
    let mut nodes = [0; 1024];
    let sheet = read_index(s, &mut [], &mut [], &mut nodes)?;
    if number < sheet.nodes.count {
        Ok(nodes[number as usize] as usize)
    } else {
        Err(Fault::Number.at(0))
    }
}
