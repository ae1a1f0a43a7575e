// The instruction record at an offset of an accepted sheet: what it holds, with nothing checked again.
#![tactic(auto)]

ghost use Rattle.std.specs.Prelude.{◌≡◌, true, ◌+◌, ◌*◌, ◌≤◌, length, Ok, is_some};
ghost use Rattle.sheet_field.specs.Field.{WentOn, little};
ghost use Rattle.sheet_instruction.specs.Instruction.{register_at, operand_at, registers_from, optional_operand, head_at, tail_at};
ghost use Rattle.sheet_accepted.specs.Record.{WasRead, recorded};
ghost use Rattle.sheet_accepted.specs.Promises.{number_if, behind_if, content_at};

use isa::{Instruction, Mnemonic, Operand, Register};
use sheet_field::Reader;
use sheet_instruction::MapBit;

// What stands behind a record's target.
#[derive(Clone, Copy)]
struct Content {
    first: Operand,
    second: Operand,
    // the first count of these, as an instruction has them: without a heap, room for the most
    written: [Register; 8],
    count: u64,
    flags: u64,
}

// The number in the next N bytes, or 0 where the record has none.
fn take_number_if<const N: usize>(r: &mut Reader, there: bool) -> u64
    requires width { N ≤ 8 }
    requires inside { there ≡ true → r.old.at + N ≤ length r.old.bytes.now }
    ensures value { result ≡ number_if there N r.old.bytes.now r.old.at }
    ensures same { r.new.bytes.now ≡ r.old.bytes.now }
    ensures at { r.new.at ≡ behind_if there N r.old.at }
{
    if there { r.take_number::<N>() } else { 0 }
}

fn take_register(r: &mut Reader) -> Register
    requires { r.old.at + 4 ≤ length r.old.bytes.now }
    ensures value { result ≡ (register_at r.old.bytes.now (Ok r.old.at)).register }
    ensures same { r.new.bytes.now ≡ r.old.bytes.now }
    ensures at { r.new.at ≡ r.old.at + 4 }
{
    let register = sheet_instruction::register_at(r.bytes, r.at);
    r.at += 4;
    register
}

#[tactic(auto, using(crate::proofs::Records::register_inside, crate::proofs::Records::register_is, crate::proofs::Records::register_end, crate::proofs::Records::immediate_inside, crate::proofs::Records::immediate_is, crate::proofs::Records::immediate_end, crate::proofs::Records::memory_is, crate::proofs::Records::memory_end))]
fn take_operand(r: &mut Reader) -> Operand
    requires { WentOn (operand_at r.old.bytes.now (Ok r.old.at)).next }
    ensures value { result ≡ (operand_at r.old.bytes.now (Ok r.old.at)).operand }
    ensures same { r.new.bytes.now ≡ r.old.bytes.now }
    ensures place { Ok r.new.at ≡ (operand_at r.old.bytes.now (Ok r.old.at)).next }
{
    match r.take_number::<1>() {
        0 => Operand::Reg(take_register(r)),
        1 => Operand::Imm(r.take_number::<8>()),
        _ => Operand::Mem,
    }
}

// The operand at the reader, where its bit stands.
fn take_operand_if(r: &mut Reader, there: bool) -> Operand
    requires { WentOn (optional_operand there r.old.bytes.now (Ok r.old.at)).next }
    ensures value { result ≡ (optional_operand there r.old.bytes.now (Ok r.old.at)).operand }
    ensures same { r.new.bytes.now ≡ r.old.bytes.now }
    ensures place { Ok r.new.at ≡ (optional_operand there r.old.bytes.now (Ok r.old.at)).next }
{
    if there {
        take_operand(r)
    } else {
        Operand::Absent
    }
}

fn take_registers(r: &mut Reader, n: u64) -> [Register; 8]
    requires n_bound { n ≤ 8 }
    requires went_on { WentOn (registers_from r.old.bytes.now (Ok r.old.at) n).next }
    ensures value { result ≡ (registers_from r.old.bytes.now (Ok r.old.at) n).list }
    ensures same { r.new.bytes.now ≡ r.old.bytes.now }
    ensures at { r.new.at ≡ r.old.at + 4 * n }
{
    let mut list = [Register {
        class: 0,
        index: 0,
        size: 0,
        offset: 0,
    }; 8];
    for slot in &mut list[..n as usize] {
        *slot = take_register(r);
    }
    list
}

#[tactic(auto, using(crate::proofs::Records::count_inside, crate::proofs::Records::few, crate::proofs::Records::flags_inside))]
fn take_content(r: &mut Reader, map: u64) -> Content
    requires { WentOn (tail_at map r.old.bytes.now (Ok r.old.at)).next }
    ensures { result ≡ content_at map r.old.bytes.now (Ok r.old.at) }
{
    let first = take_operand_if(r, MapBit::First.is_in(map));
    let second = take_operand_if(r, MapBit::Second.is_in(map));
    let count = take_number_if::<2>(r, MapBit::Written.is_in(map));
    let written = take_registers(r, count);
    let flags = take_number_if::<1>(r, MapBit::Flags.is_in(map));
    Content {
        first,
        second,
        written,
        count,
        flags,
    }
}

// The instruction record at an offset of an accepted sheet.
#[derive(Clone, Copy)]
pub struct Record<'a> {
    pub bytes: &'a [u8],
    pub at: usize,
    pub ghost read: { WasRead bytes.now at },
}

impl Record<'_> {
    #[tactic(auto, using(crate::proofs::Records::record_inside))]
    fn map(&self) -> u64
        ensures { result ≡ little self.now.bytes.now self.now.at 1 }
    {
        sheet_field::number::<1>(self.bytes, self.at)
    }

    #[tactic(auto, using(crate::proofs::Records::record_inside, crate::proofs::Records::address_here))]
    fn address(&self) -> u64
        ensures { result ≡ (recorded self.now.bytes.now self.now.at).address }
    {
        sheet_field::number::<8>(self.bytes, self.at + 1)
    }

    #[tactic(auto, using(crate::proofs::Records::record_inside, crate::proofs::Records::numbered, crate::proofs::Records::mnemonic_here))]
    pub fn mnemonic(&self) -> Mnemonic
        ensures { result ≡ (recorded self.now.bytes.now self.now.at).mnemonic }
    {
        isa::mnemonic_of(sheet_field::number::<1>(self.bytes, self.at + 9))
    }

    // Whether it is a conditional branch.
    #[tactic(auto, using(crate::proofs::Records::branch_here))]
    pub fn is_branch(&self) -> bool
        ensures { result ≡ is_some (recorded self.now.bytes.now self.now.at).target }
    {
        MapBit::Target.is_in(self.map())
    }

    // Where it leads, if it is a conditional branch.
    #[tactic(auto, using(crate::proofs::Records::target_room))]
    pub fn target(&self) -> Option<u64>
        ensures { result ≡ (recorded self.now.bytes.now self.now.at).target }
    {
        let s = self.bytes;
        let at = self.at;
        self.is_branch()
            .then(|| sheet_field::number::<8>(s, at + 10))
    }

    // Where the operands start.
    #[tactic(auto, using(crate::proofs::Records::behind_target, crate::proofs::Records::behind_mnemonic))]
    fn operands(&self) -> usize
        ensures { Ok result ≡ (head_at true 0 self.now.bytes.now (Ok self.now.at)).next }
    {
        if self.is_branch() {
            self.at + 18
        } else {
            self.at + 10
        }
    }

    pub fn instruction(&self) -> Instruction
        ensures { result ≡ recorded self.now.bytes.now self.now.at }
    {
        let map = self.map();
        let mut r = Reader::new(self.bytes, self.operands());
        let content = take_content(&mut r, map);
        let written = content.written;
        Instruction {
            address: self.address(),
            mnemonic: self.mnemonic(),
            target: self.target(),
            call: MapBit::Call.is_in(map),
            first: content.first,
            second: content.second,
            written,
            count: content.count,
            flags: content.flags,
        }
    }
}
