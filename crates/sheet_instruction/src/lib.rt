// Instruction records: a reader that checks one and keeps nothing of it but its address. Each of its stages starts where the one
// before ended, and the first refusal is the record's.
#![tactic(auto)]

ghost use Rattle.std.specs.Prelude.{◌≡◌, ◌+◌, ◌≤◌, length, Ok, IfOk, is_none, unwrap_or};
ghost use Rattle.sheet_field.specs.Reads.{Reads};
ghost use Rattle.sheet_instruction.specs.Instruction.{register_at, operand_at, optional_operand, registers_at, bit_of, map_ok, map_at, address_at, head_at, tail_at, instruction_at};
ghost use Rattle.sheet_instruction.specs.MapBit.{unit_of};
ghost use Rattle.sheet_instruction.specs.Promises.{head_of, tail_of};

use isa::{Mnemonic, Operand, Register};
use refusal::{Fault, Refusal};
use sheet_field::Reader;

// The bits of an instruction's map: what the record has, and that it is call-like.
#[derive(Clone, Copy, PartialEq, Eq, Debug)]
pub enum MapBit {
    Target = 1,
    Call = 2,
    First = 4,
    Second = 8,
    Written = 16,
    Flags = 32,
}

impl MapBit {
    // Whether it stands in that map.
    pub fn is_in(self, map: u64) -> bool
        ensures { result ≡ bit_of map (unit_of self) }
    {
        isa::has_bit(map, self as u64)
    }
}

// What the checks of a record need of its head.
#[derive(Clone, Copy)]
struct Head {
    map: u64,
    address: u64,
    mnemonic: Mnemonic,
}

// What the checks of a record need of its tail.
#[derive(Clone, Copy)]
struct Tail {
    first: Operand,
    second: Operand,
    flags: u64,
}

// The register in the four bytes from an offset on.
pub fn register_at(s: &[u8], at: usize) -> Register
    requires { at + 4 ≤ length s.now }
    ensures { result ≡ (register_at s.now (Ok at)).register }
{
    Register {
        class: s[at],
        index: s[at + 1],
        size: s[at + 2],
        offset: s[at + 3],
    }
}

// Inlined, as a call would have the reader put into memory; so is an operand.
#[inline(always)]
#[tactic(auto, using(crate::proofs::Checks::register_cut, crate::proofs::Checks::register_taken, crate::proofs::Checks::register_failed))]
fn check_register(r: &mut Reader) -> Result<Register, Refusal>
    requires { r.old.at ≤ length r.old.bytes.now }
    ensures reads { Reads r.old r.new result (register_at r.old.bytes.now (Ok r.old.at)).next }
    ensures value { IfOk result (λ x. x ≡ (register_at r.old.bytes.now (Ok r.old.at)).register) }
{
    let at = r.at;
    if r.bytes.len() - at < 4 {
        return Err(Fault::Ends.at(r.bytes.len()));
    }
    let register = register_at(r.bytes, at);
    if isa::well_formed(register) {
        r.at = at + 4;
        Ok(register)
    } else {
        Err(Fault::Register.at(at))
    }
}

#[inline(always)]
#[tactic(auto, using(crate::proofs::Checks::kind_refused, crate::proofs::Checks::kind_inside), unfolding(crate::specs::Instruction::operand_at))]
fn check_operand(r: &mut Reader) -> Result<Operand, Refusal>
    ensures reads { Reads r.old r.new result (operand_at r.old.bytes.now (Ok r.old.at)).next }
    ensures value { IfOk result (λ x. x ≡ (operand_at r.old.bytes.now (Ok r.old.at)).operand) }
{
    match r.code(3)? {
        0 => Ok(Operand::Reg(check_register(r)?)),
        1 => Ok(Operand::Imm(r.take_field::<8>()?)),
        _ => Ok(Operand::Mem),
    }
}

// An operand, where its bit stands in the map.
#[inline(always)]
fn check_operand_if(r: &mut Reader, bit: bool) -> Result<Operand, Refusal>
    ensures reads { Reads r.old r.new result (optional_operand bit r.old.bytes.now (Ok r.old.at)).next }
    ensures value { IfOk result (λ x. x ≡ (optional_operand bit r.old.bytes.now (Ok r.old.at)).operand) }
{
    if bit {
        check_operand(r)
    } else {
        Ok(Operand::Absent)
    }
}

#[tactic(auto, using(crate::proofs::Checks::list_stays, crate::proofs::Checks::count_inside, crate::proofs::Checks::register_refused, crate::proofs::Checks::register_end, crate::proofs::Instructions::registers_next), unfolding(crate::specs::Instruction::registers_at, crate::specs::Instruction::registers_from))]
fn check_written(r: &mut Reader) -> Result<(), Refusal>
    ensures { Reads r.old r.new result (registers_at r.old.bytes.now (Ok r.old.at)).next }
{
    let n = r.count(0, 8)?;
    for _ in 0..n {
        check_register(r)?;
    }
    Ok(())
}

#[tactic(auto, using(crate::proofs::Checks::operand_stays, crate::proofs::Checks::written_stays, crate::proofs::Checks::flags_stay), unfolding(crate::specs::Instruction::tail_at, crate::specs::Instruction::registers_from))]
fn check_tail(r: &mut Reader, map: u64) -> Result<Tail, Refusal>
    ensures reads { Reads r.old r.new result (tail_at map r.old.bytes.now (Ok r.old.at)).next }
    ensures value { IfOk result (λ x. x ≡ tail_of (tail_at map r.old.bytes.now (Ok r.old.at))) }
{
    let first = check_operand_if(r, MapBit::First.is_in(map))?;
    let second = check_operand_if(r, MapBit::Second.is_in(map))?;
    if MapBit::Written.is_in(map) {
        check_written(r)?;
    }
    let flags = if MapBit::Flags.is_in(map) {
        r.code(32)?
    } else {
        0
    };
    Ok(Tail {
        first,
        second,
        flags,
    })
}

fn map_ok(map: u64) -> bool
    ensures { result ≡ map_ok map }
{
    (map < 64)
        & !(MapBit::Target.is_in(map) & MapBit::Call.is_in(map))
        & (!MapBit::Second.is_in(map) | MapBit::First.is_in(map))
}

fn check_map(r: &mut Reader) -> Result<u64, Refusal>
    ensures reads { Reads r.old r.new result (map_at r.old.bytes.now (Ok r.old.at)).next }
    ensures value { IfOk result (λ x. x ≡ (map_at r.old.bytes.now (Ok r.old.at)).value) }
{
    r.take_checked::<1, _>(Fault::Code, map_ok)
}

// An address above `last`; any where there is none, as that is below each.
fn check_address(r: &mut Reader, last: Option<u64>) -> Result<u64, Refusal>
    ensures reads { Reads r.old r.new result (address_at (is_none last) (unwrap_or last 0) r.old.bytes.now (Ok r.old.at)).next }
    ensures value { IfOk result (λ x. x ≡ (address_at (is_none last) (unwrap_or last 0) r.old.bytes.now (Ok r.old.at)).value) }
{
    r.take_checked::<8, _>(Fault::Address, |address| last < Some(address))
}

#[tactic(auto, using(crate::proofs::Checks::address_stays, sheet_field::proofs::Steps::code_stays, crate::proofs::Checks::target_stays, crate::proofs::Checks::number_below), unfolding(crate::specs::Instruction::head_at))]
fn check_head(r: &mut Reader, last: Option<u64>) -> Result<Head, Refusal>
    ensures reads { Reads r.old r.new result (head_at (is_none last) (unwrap_or last 0) r.old.bytes.now (Ok r.old.at)).next }
    ensures value { IfOk result (λ x. x ≡ head_of (head_at (is_none last) (unwrap_or last 0) r.old.bytes.now (Ok r.old.at))) }
{
    let map = check_map(r)?;
    let address = check_address(r, last)?;
    let mnemonic = isa::mnemonic_of(r.code(35)?);
    if MapBit::Target.is_in(map) {
        r.take_field::<8>()?;
    }
    Ok(Head {
        map,
        address,
        mnemonic,
    })
}

// The address of the instruction record at the reader. `last` is the address before it, none where it opens the sheet.
#[tactic(auto, using(crate::proofs::Checks::tail_stays), unfolding(crate::specs::Instruction::instruction_at))]
pub fn check_instruction(r: &mut Reader, last: Option<u64>) -> Result<u64, Refusal>
    ensures reads { Reads r.old r.new result (instruction_at (is_none last) (unwrap_or last 0) r.old.bytes.now (Ok r.old.at)).next }
    ensures address { IfOk result (λ x. x ≡ (instruction_at (is_none last) (unwrap_or last 0) r.old.bytes.now (Ok r.old.at)).instruction.address) }
{
    let at = r.at;
    let head = check_head(r, last)?;
    let tail = check_tail(r, head.map)?;
    let call = MapBit::Call.is_in(head.map);
    if isa::is_at_fault(head.mnemonic, call, tail.first, tail.second, tail.flags) {
        Err(Fault::Instruction.at(at))
    } else {
        Ok(head.address)
    }
}
