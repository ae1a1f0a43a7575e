// The lines of a listing: one slot for each instruction keeps the first decided verdict on it; from the slots the lines are
// counted and written.
#![tactic(auto)]

ghost use Rattle.std.specs.Prelude.{◌≡◌, ◌+◌, ◌*◌, ◌≤◌, ◌<◌, length};
ghost use Rattle.sheet.specs.Sheet.{sheet_at};
ghost use Rattle.sheet.specs.Index.{over, targets_of};
ghost use Rattle.sheet_bytes.specs.Write.{bytes, records};
ghost use Rattle.verdict_lines.specs.Lines.{line_bytes};
ghost use Rattle.verdict_lines.specs.Slots.{slot_of, kept, decided_of, decided_in, slot_line, lines_in, put_at, RoomFor};

use sheet::code::Code;
use verdict::Verdict;

// What a slot holds of a verdict: 0 where it decides nothing, else twice the reason's number, and one more for always. A byte for
// each instruction, since every listing clears them all: an `Option<(Reason, bool)>` has three, and a Verdict has two words for an empty slot.
#[tactic(auto, using(crate::proofs::Decided::small))]
fn slot_of(v: Verdict) -> u8
    ensures { result ≡ slot_of v }
{
    match v {
        Verdict::Always(r) => 2 * r.number() + 1,
        Verdict::Never(r) => 2 * r.number(),
        Verdict::Undecided | Verdict::NoBranch => 0,
    }
}

// Keeps a verdict on the instruction of that number, unless an earlier one is decided.
#[tactic(auto, using(crate::proofs::Decided::kept_new, crate::proofs::Decided::kept_old))]
pub fn keep(slots: &mut [u8], number: usize, v: Verdict)
    requires { number < length slots.old }
    ensures { slots.new ≡ kept slots.old number v }
{
    if slots[number] == 0 {
        slots[number] = slot_of(v);
    }
}

// How many lines there are.
#[tactic(auto, using(crate::proofs::Decided::counted))]
pub fn count(slots: &[u8]) -> u64
    ensures { result ≡ decided_in slots.now }
{
    slots.iter().filter(|slot| **slot != 0).count() as u64
}

// Puts a number's 8 bytes into a list, the lowest first.
#[tactic(auto, using(crate::proofs::Puts::put_word))]
fn put_word(list: &mut [u8], at: usize, x: u64)
    requires { at + 8 ≤ length list.old }
    ensures { list.new ≡ put_at at (bytes 8 x) list.old }
{
    list[at..at + 8].copy_from_slice(&x.to_le_bytes());
}

// Puts the line that a slot holds into a list, 18 bytes, and gives the offset after it.
fn put_line(list: &mut [u8], at: usize, site: u64, target: u64, slot: u8) -> usize
    requires { at + 18 * decided_of slot ≤ length list.old }
    ensures { (result ≡ at + 18 * decided_of slot) × (list.new ≡ put_at at (records line_bytes (slot_line site target slot)) list.old) }
{
    if slot == 0 {
        return at;
    }
    put_word(list, at, site);
    put_word(list, at + 8, target);
    list[at + 16] = slot % 2;
    list[at + 17] = slot / 2;
    at + 18
}

// Writes the lines over the start of a list that can hold them: the targets are those of an accepted sheet's instructions, the sites are given.
pub fn write(code: &Code, sites: &[u64], slots: &[u8], list: &mut [u8])
    requires { RoomFor sites.now (targets_of (sheet_at code.now.bytes.now).instructions.list) slots.now list.old }
    ensures { list.new ≡ over (records line_bytes (lines_in sites.now (targets_of (sheet_at code.now.bytes.now).instructions.list) slots.now)) list.old }
{
    let mut at = 0;
    // By number: there is no list of the targets to go along, each is found by its instruction's number.
    for i in 0..slots.len() {
        at = put_line(
            list,
            at,
            sites[i],
            code.nth_target(i).unwrap_or(0),
            slots[i],
        );
    }
}
