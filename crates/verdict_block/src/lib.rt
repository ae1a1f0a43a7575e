// The verdict on a block of an accepted sheet: its instructions are found in the index and stepped over once from what is
// known where it starts; what is known at its end judges its last instruction, where that is a conditional branch.
#![tactic(auto)]

ghost use Rattle.std.specs.Prelude.{◌≡◌, ◌≤◌, ◌<◌, length, get_or};
ghost use Rattle.isa.specs.declared.Instruction.{Instruction};
ghost use Rattle.std.proofs.Math.Seq.{slice};
ghost use Rattle.machine.specs.Registers.{nothing_known};
ghost use Rattle.machine.specs.Rules.{stepped_all};
ghost use Rattle.sheet.specs.Sheet.{sheet_at};
ghost use Rattle.verdict_block.specs.Verdict.{jump_of, flag_verdict, judged, verdict_at, end_from, verdict_on};
ghost use Rattle.verdict_block.specs.Promises.{RangeOf};

use isa::Mnemonic;
use machine::State;
use sheet::code::{Code, CodeIndex};
use verdict::{Reason, Verdict};

// The instructions of a sheet from number `first` up to `end`. Not std's range, which cannot be copied.
#[derive(Clone, Copy)]
pub struct Range {
    pub first: usize,
    pub end: usize,
}

// What a verdict asks for of the instruction of that number, of an accepted sheet: the mnemonic of a conditional branch.
pub fn jump_at(code: &Code, number: usize) -> Option<Mnemonic>
    requires { number < length code.now.places.now }
    ensures { (d : Instruction) → result ≡ jump_of (get_or (sheet_at code.now.bytes.now).instructions.list number d) }
{
    code.is_branch(number).then_some(code.nth_mnemonic(number))
}

// Step over the instructions of an accepted sheet from number `first` up to `end`. Not a Range: its callers stop before the end of one.
pub fn step_over(code: &Code, first: usize, end: usize, state: &mut State)
    requires { end ≤ length code.now.places.now }
    ensures { state.new ≡ stepped_all state.old (slice first end (sheet_at code.now.bytes.now).instructions.list) }
{
    for i in first..end {
        state.step(code.nth_instruction(i));
    }
}

fn flag_verdict(f: Option<bool>) -> Verdict
    ensures { result ≡ flag_verdict f }
{
    match f {
        Some(true) => Verdict::Always(Reason::Flags),
        Some(false) => Verdict::Never(Reason::Flags),
        None => Verdict::Undecided,
    }
}

// The verdict on a jump, by what is known at it.
fn verdict_at(state: &State, jump: Option<Mnemonic>) -> Verdict
    ensures { result ≡ judged state.now jump }
{
    match jump {
        Some(mnemonic) => flag_verdict(state.condition(mnemonic)),
        None => Verdict::NoBranch,
    }
}

// The instructions of the block of that number, of an accepted sheet with its index: quickly found where they start at or shortly
// after a guess.
pub fn range_of(index: &CodeIndex, number: u64, guess: usize) -> Range
    requires { number < index.now.code.sheet.blocks.count }
    ensures { RangeOf index.now.code.bytes.now number result }
{
    let block = index.code.sheet.nth_block(index.code.bytes, number);
    let first = search::first_from(index.addresses, guess, block.from);
    let end = search::first_from(index.addresses, first, block.to);
    Range { first, end }
}

// The verdict at the end of a range of instructions of an accepted sheet, where nothing is known at its start.
pub fn verdict_in(code: &Code, range: Range) -> Verdict
    requires { range.end ≤ length code.now.places.now }
    ensures { result ≡ verdict_at (end_from nothing_known (slice range.first range.end (sheet_at code.now.bytes.now).instructions.list)) }
{
    if range.end <= range.first {
        return Verdict::NoBranch;
    }
    let last = range.end - 1;
    let mut state = State::unknown();
    step_over(code, range.first, last, &mut state);
    verdict_at(&state, jump_at(code, last))
}

// The verdict on the block of that number, of an accepted sheet with its index.
pub fn verdict_on(index: &CodeIndex, number: u64) -> Verdict
    requires { number < index.now.code.sheet.blocks.count }
    ensures { result ≡ verdict_on index.now.code.bytes.now number }
{
    let range = range_of(index, number, 0);
    verdict_in(&index.code, range)
}
