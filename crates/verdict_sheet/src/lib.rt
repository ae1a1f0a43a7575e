// The verdicts on all records of an accepted sheet: blocks in order, then nodes in order. Each is about one branch at most,
// and in the slot of each branch the first decided verdict is kept. A node that is refused ends it.
#![tactic(auto)]

ghost use Rattle.std.specs.Prelude.{◌≡◌, ℕ, List, [], ◌++◌, ◌*◌, ◌≤◌, ◌<◌, length, take, drop, Ok};
ghost use Rattle.std.proofs.Math.Seq.{slice};
ghost use Rattle.machine.specs.Registers.{nothing_known};
ghost use Rattle.search.specs.Ascending.{place_of};
ghost use Rattle.sheet.specs.Sheet.{sheet_at};
ghost use Rattle.sheet_field.specs.Field.{WentOn};
ghost use Rattle.sheet_node.specs.Node.{addresses_from};
ghost use Rattle.verdict_block.specs.Verdict.{verdict_at, end_from, verdict_on};
ghost use Rattle.verdict_lines.specs.Slots.{kept};
ghost use Rattle.verdict_sheet.specs.Sites.{last_branch, block_site};
ghost use Rattle.verdict_sheet.specs.Said.{Said, saying, blocks_say, judged_up_to};
ghost use Rattle.verdict_sheet.specs.Kept.{if_branch, branch_ending, SiteIs, kept_at, HasSlot, slots_of, Reached};

use refusal::Refusal;
use sheet::code::{Code, CodeIndex};
use sheet_node::node::Node;
use verdict::Verdict;
use verdict_block::Range;

// The number of the conditional branch at an address, or else another.
fn branch_or(index: &CodeIndex, address: u64, otherwise: Option<usize>) -> Option<usize>
    ensures { result ≡ if_branch (sheet_at index.now.code.bytes.now).instructions.list (place_of index.now.addresses.now address) otherwise }
{
    match search::find(index.addresses, address) {
        Some(k) if index.code.is_branch(k) => Some(k),
        _ => otherwise,
    }
}

// The number of a node's jump, from its addresses, which were read whole, 8 bytes each. A loop, as a closure over `index`, which `rev().find_map`
// needs, gives a proof nothing of what the methods of its code ensure.
fn node_jump(index: &CodeIndex, addresses: &[u8]) -> Option<usize>
    ensures { (sites n : ℕ) → addresses.now ≡ take (8 * n) (drop sites index.now.code.bytes.now) → WentOn (addresses_from index.now.code.bytes.now (Ok sites) n).next → SiteIs (sheet_at index.now.code.bytes.now).instructions.list result (last_branch (sheet_at index.now.code.bytes.now).instructions.list (addresses_from index.now.code.bytes.now (Ok sites) n).list) }
{
    let mut jump = None;
    for address in addresses.chunks_exact(8) {
        jump = branch_or(index, sheet_field::number::<8>(address, 0), jump);
    }
    jump
}

// The number of the conditional branch that ends a range of instructions.
fn last_branch(code: &Code, range: Range) -> Option<usize>
    requires { range.end ≤ length code.now.places.now }
    ensures { result ≡ branch_ending (sheet_at code.now.bytes.now).instructions.list range.first range.end }
{
    if range.end <= range.first {
        return None;
    }
    let last = range.end - 1;
    code.is_branch(last).then_some(last)
}

// Keeps a verdict in the slot of that number, if there is one.
fn keep_at(slots: &mut [u8], at: Option<usize>, v: Verdict)
    requires { HasSlot slots.old at }
    ensures { slots.new ≡ kept_at slots.old at v }
{
    if let Some(k) = at {
        verdict_lines::keep(slots, k, v);
    }
}

// Keeps the verdict at the end of a range in the slot of that number; where one is kept already, there is nothing to judge.
fn keep_end(code: &Code, range: Range, slots: &mut [u8], number: usize)
    requires { (range.end ≤ length code.now.places.now) × (number < length slots.old) }
    ensures { slots.new ≡ kept slots.old number (verdict_at (end_from nothing_known (slice range.first range.end (sheet_at code.now.bytes.now).instructions.list))) }
{
    if slots[number] == 0 {
        let v = verdict_block::verdict_in(code, range);
        verdict_lines::keep(slots, number, v);
    }
}

// The block of that number, where it has a branch; and where its instructions end, a guess where the next block's start.
fn judge_block(index: &CodeIndex, number: u64, guess: usize, slots: &mut [u8]) -> usize
    requires number_lt_count { number < index.now.code.sheet.blocks.count }
    requires slots_len { length slots.old ≡ length index.now.addresses.now }
    ensures { (said : List Said) → slots.old ≡ slots_of (sheet_at index.now.code.bytes.now).instructions.list said → slots.new ≡ slots_of (sheet_at index.now.code.bytes.now).instructions.list (said ++ saying (block_site index.now.code.bytes.now number) (verdict_on index.now.code.bytes.now number)) }
{
    let range = verdict_block::range_of(index, number, guess);
    if let Some(k) = last_branch(&index.code, range) {
        keep_end(&index.code, range, slots, k);
    }
    range.end
}

// All blocks, in order.
fn judge_blocks(index: &CodeIndex, slots: &mut [u8])
    requires { slots.old ≡ slots_of (sheet_at index.now.code.bytes.now).instructions.list [] }
    ensures { slots.new ≡ slots_of (sheet_at index.now.code.bytes.now).instructions.list (blocks_say index.now.code.bytes.now index.now.code.sheet.blocks.count) }
{
    let mut guess = 0;
    for i in 0..index.code.sheet.blocks.count {
        guess = judge_block(index, i, guess, slots);
    }
}

// All nodes, in order, up to the first that is refused.
fn judge_nodes(index: &CodeIndex, nodes: &[u64], slots: &mut [u8]) -> Result<(), Refusal>
    requires nodes_value { nodes.now ≡ (sheet_at index.now.code.bytes.now).nodes.places }
    requires slots_value { slots.old ≡ slots_of (sheet_at index.now.code.bytes.now).instructions.list (blocks_say index.now.code.bytes.now index.now.code.sheet.blocks.count) }
    ensures { Reached (sheet_at index.now.code.bytes.now).instructions.list result slots.new (judged_up_to index.now.code.bytes.now index.now.code.sheet.blocks.count index.now.code.sheet.nodes.count) }
{
    for node in nodes {
        let judged = verdict_node::verdict_of(&Node::new(index.code.bytes, *node as usize))?;
        let jump = node_jump(index, judged.addresses);
        keep_at(slots, jump, judged.verdict);
    }
    Ok(())
}

// All records of an accepted sheet with its index, on slots that hold nothing.
pub fn judge(index: &CodeIndex, nodes: &[u64], slots: &mut [u8]) -> Result<(), Refusal>
    requires nodes_value { nodes.now ≡ (sheet_at index.now.code.bytes.now).nodes.places }
    requires slots_value { slots.old ≡ slots_of (sheet_at index.now.code.bytes.now).instructions.list [] }
    ensures { Reached (sheet_at index.now.code.bytes.now).instructions.list result slots.new (judged_up_to index.now.code.bytes.now index.now.code.sheet.blocks.count index.now.code.sheet.nodes.count) }
{
    judge_blocks(index, slots);
    judge_nodes(index, nodes, slots)
}
