// An accepted sheet: its blocks and its instructions by their numbers, and its index, to search by address.
#![tactic(auto)]

ghost use Rattle.std.specs.Prelude.{◌≡◌, false, ◌<◌, length, get_or, Ok, Err, IfOk, IfErr};
ghost use Rattle.isa.specs.declared.Instruction.{Instruction};
ghost use Rattle.sheet.specs.Sheet.{no_block, sheet_at, reading_of};
ghost use Rattle.sheet.specs.Index.{addresses_of, branches_of, InFront};
ghost use Rattle.sheet.specs.Promises.{having_block};

use crate::{Block, Sheet};
use isa::{Instruction, Mnemonic};
use refusal::{Fault, Refusal};
use sheet_accepted::Record;

// The bytes of an accepted sheet, what reading gives of them, and the offset of each instruction, by which it is found by its number.
#[derive(Clone, Copy)]
pub struct Code<'a> {
    pub bytes: &'a [u8],
    pub sheet: Sheet,
    pub places: &'a [u64],
    pub ghost accepted: { reading_of bytes.now ≡ Ok sheet },
    pub ghost placed: { places.now ≡ (sheet_at bytes.now).instructions.places },
}

// Code with the addresses of its instructions, which rise. What searches by address, as for the instructions of a block, takes it.
// Two lists: a search walks the addresses alone, and the number that it finds leads to the offset.
#[derive(Clone, Copy)]
pub struct CodeIndex<'a> {
    pub code: Code<'a>,
    pub addresses: &'a [u64],
    pub ghost addressed: { addresses.now ≡ addresses_of (sheet_at code.bytes.now).instructions.list },
}

impl<'a> CodeIndex<'a> {
    // An accepted sheet whose index stands at the start of the lists.
    pub fn new(bytes: &'a [u8], sheet: Sheet, addresses: &'a [u64], places: &'a [u64]) -> Self
        requires accepted { reading_of bytes.now ≡ Ok sheet }
        requires addressed { InFront sheet.instructions.count addresses.now (addresses_of (sheet_at bytes.now).instructions.list) }
        requires placed { InFront sheet.instructions.count places.now (sheet_at bytes.now).instructions.places }
        ensures same_bytes { result.code.bytes.now ≡ bytes.entry.now }
        ensures same_sheet { result.code.sheet ≡ sheet }
    {
        let n = sheet.instructions.count as usize;
        CodeIndex {
            code: Code {
                bytes,
                sheet,
                places: &places[..n],
            },
            addresses: &addresses[..n],
        }
    }

    // The index of any bytes, to ask for the block of that number; or the refusal, reading's first. The lists hold it.
    pub fn with_block(
        bytes: &'a [u8],
        number: u64,
        addresses: &'a mut [u64; 2048],
        places: &'a mut [u64; 2048],
    ) -> Result<CodeIndex<'a>, Refusal>
        ensures index { IfOk result (λ index. (index.code.bytes.now ≡ bytes.entry.now) × (number < index.code.sheet.blocks.count)) }
        ensures refused { IfErr result (λ r. Err r ≡ having_block (reading_of bytes.entry.now) number) }
    {
        let sheet = crate::read_index(bytes, addresses, places, &mut [])?;
        if number < sheet.blocks.count {
            Ok(CodeIndex::new(bytes, sheet, addresses, places))
        } else {
            Err(Fault::Number.at(0))
        }
    }
}

impl Sheet {
    // The block of that number, of the bytes that gave the sheet.
    pub fn nth_block(&self, bytes: &[u8], number: u64) -> Block
        requires accepted { reading_of bytes.now ≡ Ok self.now }
        requires number_lt_count { number < self.now.blocks.count }
        ensures { result ≡ get_or (sheet_at bytes.now).blocks.list number no_block }
    {
        let at = self.blocks.at + 16 * number as usize;
        Block {
            from: sheet_field::number::<8>(bytes, at),
            to: sheet_field::number::<8>(bytes, at + 8),
        }
    }
}

impl Code<'_> {
    // The record of the instruction of that number.
    fn record(&self, number: usize) -> Record<'_>
        requires { number < length self.now.places.now }
        ensures bytes { result.bytes.now ≡ self.now.bytes.now }
        ensures at { result.at ≡ get_or self.now.places.now number 0 }
    {
        Record {
            bytes: self.bytes,
            at: self.places[number] as usize,
        }
    }

    // The instruction of that number.
    pub fn nth_instruction(&self, number: usize) -> Instruction
        requires { number < length self.now.places.now }
        ensures { (d : Instruction) → result ≡ get_or (sheet_at self.now.bytes.now).instructions.list number d }
    {
        self.record(number).instruction()
    }

    // The mnemonic of the instruction of that number.
    pub fn nth_mnemonic(&self, number: usize) -> Mnemonic
        requires { number < length self.now.places.now }
        ensures { (d : Instruction) → result ≡ (get_or (sheet_at self.now.bytes.now).instructions.list number d).mnemonic }
    {
        self.record(number).mnemonic()
    }

    // Whether the instruction of that number is a conditional branch.
    pub fn is_branch(&self, number: usize) -> bool
        requires { number < length self.now.places.now }
        ensures { result ≡ get_or (branches_of (sheet_at self.now.bytes.now).instructions.list) number false }
    {
        self.record(number).is_branch()
    }

    // Where the instruction of that number leads, if it is a conditional branch.
    pub fn nth_target(&self, number: usize) -> Option<u64>
        requires { number < length self.now.places.now }
        ensures { (d : Instruction) → result ≡ (get_or (sheet_at self.now.bytes.now).instructions.list number d).target }
    {
        self.record(number).target()
    }
}
