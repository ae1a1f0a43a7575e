// The listing: it takes any bytes and a borrowed list, refuses what reading refuses, and writes the lines by the rules.
#![tactic(auto)]

ghost use Rattle.std.specs.Prelude.{◌≡◌, ◌≤◌, length, replicate};
ghost use Rattle.sheet.specs.Sheet.{sheet_at};
ghost use Rattle.sheet.specs.Index.{targets_of};
ghost use Rattle.verdict_lines.specs.Slots.{lines_in};
ghost use Rattle.answer_listing.specs.Listing.{Gives, written, listing_of};
ghost use Rattle.answer_listing.specs.Promises.{Attempted};

use refusal::{Fault, Refusal};
use sheet::code::CodeIndex;

// The lines that slots hold, written where the list can hold them; how many they are.
fn write_lines(index: &CodeIndex, slots: &[u8], list: &mut [u8]) -> Result<u64, Refusal>
    requires { (length index.now.addresses.now ≡ length slots.now) × (length (targets_of (sheet_at index.now.code.bytes.now).instructions.list) ≡ length slots.now) }
    ensures { Gives result list.new (written index.now.code.bytes.now (lines_in index.now.addresses.now (targets_of (sheet_at index.now.code.bytes.now).instructions.list) slots.now) list.old) }
{
    let n = verdict_lines::count(slots);
    if n == 0 {
        return Ok(0);
    }
    if ((list.len() / 18) as u64) < n {
        return Err(Fault::Room.at(index.code.bytes.len()));
    }
    verdict_lines::write(&index.code, index.addresses, slots, list);
    Ok(n)
}

// The listing with an index of the given lists, or none where the sheet has more records than they hold. The lists are as long as the slots, which hold
// nothing. They are five: a struct of them would be made by one caller and taken apart here, and go nowhere as a whole.
fn list_in(
    s: &[u8],
    addresses: &mut [u64],
    places: &mut [u64],
    nodes: &mut [u64],
    room: &mut [u8],
    list: &mut [u8],
) -> Result<Option<u64>, Refusal>
    requires lists { (length addresses.old ≡ length room.old) × (length places.old ≡ length room.old) }
    requires empty { room.old ≡ replicate (length room.old) 0 }
    requires few { (length room.old ≤ 2048) × (length nodes.old ≤ 1024) }
    ensures { Attempted result (length room.old) (length nodes.old) s.now list.old list.new }
{
    let sheet = sheet::read_index(s, addresses, places, nodes)?;
    if (room.len() as u64) < sheet.instructions.count {
        return Ok(None);
    }
    if (nodes.len() as u64) < sheet.nodes.count {
        return Ok(None);
    }
    let index = CodeIndex::new(s, sheet, addresses, places);
    let slots = &mut room[..index.code.places.len()];
    verdict_sheet::judge(&index, &nodes[..sheet.nodes.count as usize], slots)?;
    Ok(Some(write_lines(&index, slots, list)?))
}

// The listing with an index of N instructions and M nodes, or none where the sheet has more. Each has a frame of its own, with arrays of its size.
fn list_within<const N: usize, const M: usize>(
    s: &[u8],
    list: &mut [u8],
) -> Result<Option<u64>, Refusal>
    requires { (N ≤ 2048) × (M ≤ 1024) }
    ensures { Attempted result N M s.now list.old list.new }
{
    let mut addresses = [0; N];
    let mut places = [0; N];
    let mut nodes = [0; M];
    let mut room = [0; N];
    list_in(s, &mut addresses, &mut places, &mut nodes, &mut room, list)
}

// The listing of a sheet that is not very short, with an index of 256 entries where they are likely to do, since they are fewer to clear. A function of
// its own, and not inlined: in one function with the index of 16 the empty sheet takes 0.038 µs instead of 0.035, on a stack of 43 KiB instead of 2.
#[inline(never)]
fn list_longer(s: &[u8], list: &mut [u8]) -> Result<u64, Refusal>
    ensures { Gives result list.new (listing_of s.now list.old) }
{
    if s.len() <= 4096 {
        if let Some(n) = list_within::<256, 256>(s, list)? {
            return Ok(n);
        }
    }
    match list_within::<2048, 1024>(s, list)? {
        Some(n) => Ok(n),
        // no sheet has more
        None => unreachable!(),
    }
}

// The lines of a sheet, written over the start of a borrowed list. The index is as long as a sheet of that length is likely to need.
pub fn listing(s: &[u8], list: &mut [u8]) -> Result<u64, Refusal>
    ensures { Gives result list.new (listing_of s.now list.old) }
{
    if s.len() <= 166 {
        if let Some(n) = list_within::<16, 16>(s, list)? {
            return Ok(n);
        }
    }
    list_longer(s, list)
}
