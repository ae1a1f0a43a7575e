// How sentences name registers and instructions and write values.
#![tactic(auto)]

ghost use Rattle.std.specs.Prelude.{◌≡◌, map};
ghost use Rattle.wording.specs.Names.{name_in, low_name, register_name, instruction_name};
ghost use Rattle.wording.specs.Values.{Shows, sized_text};
ghost use Rattle.alu.specs.Width.{width_of};

use alu::Width;
use isa::{Binary, Register};

// Registers 0 to 15 at each width, and the bytes from bit 8 on of those that have one.
const BYTES: [&[u8]; 16] = [
    b"al", b"cl", b"dl", b"bl", b"spl", b"bpl", b"sil", b"dil", b"r8b", b"r9b", b"r10b", b"r11b",
    b"r12b", b"r13b", b"r14b", b"r15b",
];

const WORDS: [&[u8]; 16] = [
    b"ax", b"cx", b"dx", b"bx", b"sp", b"bp", b"si", b"di", b"r8w", b"r9w", b"r10w", b"r11w",
    b"r12w", b"r13w", b"r14w", b"r15w",
];

const DOUBLES: [&[u8]; 16] = [
    b"eax", b"ecx", b"edx", b"ebx", b"esp", b"ebp", b"esi", b"edi", b"r8d", b"r9d", b"r10d",
    b"r11d", b"r12d", b"r13d", b"r14d", b"r15d",
];

const QUADS: [&[u8]; 16] = [
    b"rax", b"rcx", b"rdx", b"rbx", b"rsp", b"rbp", b"rsi", b"rdi", b"r8", b"r9", b"r10", b"r11",
    b"r12", b"r13", b"r14", b"r15",
];

const HIGH_BYTES: [&[u8]; 4] = [b"ah", b"ch", b"dh", b"bh"];

// The name of that number, none past the last.
#[tactic(auto, unfolding(crate::specs::Names::name_in))]
fn named(names: &[&'static [u8]], index: u8) -> &'static [u8]
    ensures { result.now ≡ name_in (map (λ n. n.now) names.now) index }
{
    names.get(index as usize).copied().unwrap_or(b"")
}

// A register from bit 0 on.
fn low_name(width: Width, index: u8) -> &'static [u8]
    ensures { result.now ≡ low_name width index }
{
    match width {
        Width::Byte => named(&BYTES, index),
        Width::Word => named(&WORDS, index),
        Width::Double => named(&DOUBLES, index),
        Width::Quad => named(&QUADS, index),
    }
}

// A register's name; one that does not exist has none.
#[tactic(auto, unfolding(crate::specs::Names::register_name))]
pub fn name(register: Register) -> &'static [u8]
    ensures { result.now ≡ register_name register }
{
    if register.offset == 8 {
        return named(&HIGH_BYTES, register.index);
    }
    alu::width_of(register.size).map_or(b"", |width| low_name(width, register.index))
}

// An instruction's name.
pub fn mnemonic(op: Binary) -> &'static [u8]
    ensures { result.now ≡ instruction_name op }
{
    match op {
        Binary::Add => b"add",
        Binary::Sub => b"sub",
        Binary::Cmp => b"cmp",
        Binary::And => b"and",
        Binary::Or => b"or",
        Binary::Xor => b"xor",
        Binary::Test => b"test",
    }
}

// A value as text: what stands in front of a number, and how many digits in base sixteen the number has.
#[derive(Clone, Copy)]
pub struct Shown {
    pub front: &'static [u8],
    pub number: u64,
    pub digits: usize,
}

// A value at a size in bits. It is read as signed: from -9 to 9 in base ten, where a digit is the same in base sixteen, else its pattern in base
// sixteen. At a size that has no width it has no text.
pub fn number(size: u8, value: u64) -> Shown
    ensures { Shows result (sized_text (width_of size) value) }
{
    let Some(width) = alu::width_of(size) else {
        return Shown {
            front: b"",
            number: 0,
            digits: 0,
        };
    };
    let x = alu::cut(width, value);
    if x <= 9 {
        return Shown {
            front: b"",
            number: x,
            digits: 1,
        };
    }
    let below = alu::cut(width, u64::MAX) - x;
    if below <= 8 {
        return Shown {
            front: b"-",
            number: below + 1,
            digits: 1,
        };
    }
    Shown {
        front: b"0x",
        number: x,
        digits: text::places(x, 16),
    }
}
