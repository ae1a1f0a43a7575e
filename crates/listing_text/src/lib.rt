// The text that the listing program writes, put into a borrowed buffer: the branches of a list, or a refusal.
#![tactic(auto)]

ghost use Rattle.std.specs.Prelude.{◌≡◌, ◌++◌, ◌+◌, ◌*◌, ◌≤◌, length};
ghost use Rattle.sheet_field.specs.Field.{little};
ghost use Rattle.text.specs.Digits.{digits, decimal};
ghost use Rattle.text.specs.Promises.{Puts, Written};
ghost use Rattle.listing_text.specs.Text.{space, line_feed, verdict_word, entry_text, entries_text, branches_text, refusal_text};

use text::Writer;

// Puts the word for a verdict. A number that stands for none has no word.
fn put_verdict(v: u8, out: &mut Writer)
    requires { out.old.at + 6 ≤ length out.old.out.now }
    ensures { Puts out.old out.new (verdict_word v) }
{
    match v {
        1 => out.put_word(b"always"),
        0 => out.put_word(b"never"),
        _ => {}
    }
}

// The address in the 8 bytes from an offset of the list on.
fn address(list: &[u8], from: usize) -> u64
    requires { from + 8 ≤ length list.now }
    ensures { result ≡ little list.now from 8 }
{
    sheet_field::number::<8>(list, from)
}

// Puts site and target, with a space after each.
#[tactic(auto, using(text::proofs::Lengths::short))]
fn put_addresses(site: u64, target: u64, out: &mut Writer)
    requires { out.old.at + 34 ≤ length out.old.out.now }
    ensures { Puts out.old out.new (digits 16 16 site ++ space ++ digits 16 16 target ++ space) }
{
    out.put_digits(site, 16, 16);
    out.put_word(b" ");
    out.put_digits(target, 16, 16);
    out.put_word(b" ");
}

// Puts verdict and reason, and ends the line.
#[tactic(auto, using(crate::proofs::Lines::short))]
fn put_decision(value: u8, reason: u8, out: &mut Writer)
    requires { out.old.at + 11 ≤ length out.old.out.now }
    ensures put { Puts out.old out.new (verdict_word value ++ space ++ decimal reason ++ line_feed) }
    ensures upper_bound { out.new.at ≤ out.old.at + 11 }
{
    put_verdict(value, out);
    out.put_word(b" ");
    out.put_decimal(reason as u64);
    out.put_word(b"\n");
}

// Puts the line of the entry that starts at an offset of the list.
#[tactic(auto, using(crate::proofs::Lines::short))]
fn put_entry(list: &[u8], from: usize, out: &mut Writer)
    requires from_in_bounds { from + 18 ≤ length list.now }
    requires at_in_bounds { out.old.at + 45 ≤ length out.old.out.now }
    ensures put { Puts out.old out.new (entry_text list.now from) }
    ensures upper_bound { out.new.at ≤ out.old.at + 45 }
{
    put_addresses(address(list, from), address(list, from + 8), out);
    put_decision(list[from + 16], list[from + 17], out);
}

// Puts the lines of the list's first entries.
fn put_entries(list: &[u8], count: usize, out: &mut Writer)
    requires count_in_bounds { 18 * count ≤ length list.now }
    requires lines_in_bounds { out.old.at + 45 * count ≤ length out.old.out.now }
    ensures { Puts out.old out.new (entries_text list.now 0 count) }
{
    // by the offsets that the text is defined with: for chunks of 18 bytes it would have to be said again, by what is left of the list
    for i in 0..count {
        put_entry(list, 18 * i, out);
    }
}

// Writes the number of branches and a line for each of the list's first entries at the start of the buffer, and gives the
// length of this text.
#[tactic(auto, using(text::proofs::Lengths::short))]
pub fn write_branches(list: &[u8], count: usize, out: &mut [u8]) -> usize
    requires count_in_bounds { 18 * count ≤ length list.now }
    requires lines_in_bounds { 30 + 45 * count ≤ length out.old }
    ensures { Written out.old out.new result (branches_text count (entries_text list.now 0 count)) }
{
    let mut writer = Writer::new(out);
    writer.put_word(b"branches ");
    writer.put_decimal(count as u64);
    writer.put_word(b"\n");
    put_entries(list, count, &mut writer);
    writer.at
}

// Writes a refusal's number and offset at the start of the buffer, and gives the length of this text.
#[tactic(auto, using(text::proofs::Lengths::short))]
pub fn write_refusal(number: u64, place: u64, out: &mut [u8]) -> usize
    requires { 53 ≤ length out.old }
    ensures { Written out.old out.new result (refusal_text number place) }
{
    let mut writer = Writer::new(out);
    writer.put_word(b"refused ");
    writer.put_decimal(number);
    writer.put_word(b" at ");
    writer.put_decimal(place);
    writer.put_word(b"\n");
    writer.at
}
