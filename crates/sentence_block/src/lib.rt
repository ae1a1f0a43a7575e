// The sentence of a block of an accepted sheet: its instructions are stepped over up to its branch; where that is decided, the instructions that set
// its flags last are found and say why.
#![tactic(auto)]

ghost use Rattle.std.specs.Prelude.{◌≡◌, ◌≤◌, ◌<◌, length, Some};
ghost use Rattle.std.proofs.Math.Seq.{slice};
ghost use Rattle.isa.specs.declared.Instruction.{Instruction};
ghost use Rattle.machine.specs.Registers.{nothing_known};
ghost use Rattle.machine.specs.Rules.{stepped_all};
ghost use Rattle.sheet.specs.Sheet.{sheet_at};
ghost use Rattle.verdict_block.specs.Verdict.{apart};
ghost use Rattle.phrase.specs.Promises.{cause_text};
ghost use Rattle.sentence.specs.Why.{no_why};
ghost use Rattle.sentence.specs.Promises.{telling_of, telling_text};
ghost use Rattle.sentence_text.specs.Promises.{said_text, turns_of, Fits};
ghost use Rattle.sentence_block.specs.Sentence.{sentence_at, sentence_on};
ghost use Rattle.sentence_block.specs.Promises.{own_at, carry_at, result_at, Traced};

use isa::Mnemonic;
use machine::State;
use phrase::{Cause, FlagGroup};
use sentence::{Setters, Telling};
use sentence_text::{Said, TooShort};
use sheet::code::{Code, CodeIndex};
use verdict_block::Range;

// The code and its first number go side by side through four functions: in a struct of both, each contract would name the sheet's bytes behind one
// more borrow.

// The causes of the flags' values after the instructions of an accepted sheet from number `first` up to `end`, where nothing is known at their start.
fn setters_in(code: &Code, first: usize, end: usize) -> Setters
    requires { (first ≤ end) × (end ≤ length code.now.places.now) × (end ≤ 65536) }
    ensures { Traced (sheet_at code.now.bytes.now).instructions.list first end result }
{
    let mut setters = Setters::all(first);
    for i in first..end {
        setters.step(i, code.nth_instruction(i));
    }
    setters
}

// The cause that the instruction of that number is for CF, or for the other flags, in a block that starts at number `first`.
fn cause_at(code: &Code, first: usize, number: usize, group: FlagGroup) -> Cause
    requires { number < length code.now.places.now }
    ensures { (d : Instruction) → cause_text result ≡ own_at (sheet_at code.now.bytes.now).instructions.list first group number d }
{
    let mut state = State::unknown();
    verdict_block::step_over(code, first, number, &mut state);
    sentence::cause_of(&state, code.nth_instruction(number), group)
}

// What the causes say that tell of a branch.
fn said_by(code: &Code, first: usize, setters: Setters, telling: Telling) -> Said
    requires { (setters.result < length code.now.places.now) × (setters.carry < length code.now.places.now) }
    ensures result_value { (d : Instruction) → said_text (Some result) ≡ telling_text (Some telling) (carry_at (sheet_at code.now.bytes.now).instructions.list first setters d) (result_at (sheet_at code.now.bytes.now).instructions.list first setters d) }
    ensures result_bound { turns_of (Some result) ≤ setters.turns }
{
    let carry = setters.carry;
    let result = setters.result;
    match telling {
        Telling::Carry => Said::One(
            cause_at(code, first, carry, FlagGroup::Carry),
            setters.turns,
        ),
        Telling::Result => Said::One(cause_at(code, first, result, FlagGroup::Result), 0),
        Telling::Both => Said::Joined(
            cause_at(code, first, carry, FlagGroup::Carry),
            setters.turns,
            cause_at(code, first, result, FlagGroup::Result),
        ),
        Telling::Value(register, value) => Said::One(Cause::Value(register, value), 0),
    }
}

// What tells of the branch of that mnemonic, which stands at number `end`.
fn telling_at(code: &Code, first: usize, end: usize, mnemonic: Mnemonic) -> Option<Telling>
    requires { end ≤ length code.now.places.now }
    ensures { result ≡ telling_of (stepped_all nothing_known (slice first end (sheet_at code.now.bytes.now).instructions.list)) mnemonic }
{
    let mut state = State::unknown();
    verdict_block::step_over(code, first, end, &mut state);
    sentence::jump_telling(&state, mnemonic)
}

// What is said at the end of a range of instructions of an accepted sheet.
fn said_in(code: &Code, range: Range) -> Option<Said>
    requires { (range.end ≤ length code.now.places.now) × (range.end ≤ 65536) }
    ensures result_value { said_text result ≡ sentence_at nothing_known no_why (apart (slice range.first range.end (sheet_at code.now.bytes.now).instructions.list)) }
    ensures result_bound { turns_of result ≤ 65536 }
{
    let first = range.first;
    if range.end <= first {
        return None;
    }
    let last = range.end - 1;
    let mnemonic = verdict_block::jump_at(code, last)?;
    let setters = setters_in(code, first, last);
    let telling = telling_at(code, first, last, mnemonic)?;
    Some(said_by(code, first, setters, telling))
}

// Writes the sentence of the block of that number, of an accepted sheet with its index, to the start of a text that can hold it.
pub fn sentence_on(index: &CodeIndex, number: u64, text: &mut [u8]) -> Result<usize, TooShort>
    requires { number < index.now.code.sheet.blocks.count }
    ensures { Fits result (sentence_on index.now.code.bytes.now number) text.old text.new }
{
    let range = verdict_block::range_of(index, number, 0);
    sentence_text::tell(said_in(&index.code, range), text)
}
