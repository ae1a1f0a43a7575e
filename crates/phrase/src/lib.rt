// What a sentence gives as the cause of a flag's value, and its text put into a buffer.
#![tactic(auto)]

ghost use Rattle.std.specs.Prelude.{◌≡◌, ◌++◌, ◌+◌, ◌≤◌, length};
ghost use Rattle.text.specs.Promises.{Puts};
ghost use Rattle.wording.specs.Values.{is_text};
ghost use Rattle.phrase.specs.Promises.{cause_text, cleared_text};

use isa::{Binary, Register};
use text::Writer;

// Why a flag has its value. Values are those before the instruction. That there is no cause is one of them: as `None` it would make an `Option` of
// each cause of a sentence and in each function here, and none of them asks for it; its text is the empty one.
#[derive(Clone, Copy)]
pub enum Cause {
    // no instruction has set the flag
    Nothing,
    Stc,
    Clc,
    // a register's value
    Value(Register, u64),
    // the values of two registers, both at the first one's size
    Values(Register, u64, Register, u64),
    // cmp of a register with itself
    Itself(Register),
    // an instruction that clears CF, or OF, whatever its operands
    ClearsCarry(Binary),
    ClearsOverflow(Binary),
}

// The flags that a cause is asked for: CF, or the others that an instruction sets.
#[derive(Clone, Copy, PartialEq, Eq, Debug)]
pub enum FlagGroup {
    Carry,
    Result,
}

// An instruction that clears CF, or, of the other flags, OF.
pub fn cleared(op: Binary, group: FlagGroup) -> Cause
    ensures { cause_text result ≡ cleared_text op group }
{
    match group {
        FlagGroup::Carry => Cause::ClearsCarry(op),
        FlagGroup::Result => Cause::ClearsOverflow(op),
    }
}

// Puts that a register is a value, at a size in bits, and what stands behind it.
#[tactic(auto, using(wording::proofs::Lengths::short))]
fn put_value(register: Register, size: u8, value: u64, behind: &[u8], out: &mut Writer)
    requires behind_len_bound { length behind.now ≤ 5 }
    requires at_in_bounds { out.old.at + 31 ≤ length out.old.out.now }
    ensures put { Puts out.old out.new (is_text register size value ++ behind.now) }
    ensures upper_bound { out.new.at ≤ out.old.at + 31 }
{
    let shown = wording::number(size, value);
    out.put_word(wording::name(register));
    out.put_word(b" is ");
    out.put_word(shown.front);
    out.put_digits(shown.number, 16, shown.digits);
    out.put_word(behind);
}

// Puts a cause's text, which has at most 102 bytes.
#[tactic(auto, using(wording::proofs::Lengths::short, text::proofs::Puts::puts_then), unfolding(crate::specs::Causes::value_text, crate::specs::Causes::carry_text, crate::specs::Causes::overflow_text))]
pub fn put_cause(cause: Cause, out: &mut Writer)
    requires { out.old.at + 102 ≤ length out.old.out.now }
    ensures put { Puts out.old out.new (cause_text cause) }
    ensures upper_bound { out.new.at ≤ out.old.at + 102 }
{
    match cause {
        Cause::Nothing => {}
        Cause::Stc => out.put_word(b"stc sets the carry"),
        Cause::Clc => out.put_word(b"clc clears the carry"),
        Cause::Value(register, value) => put_value(register, register.size, value, b" here", out),
        Cause::Values(first, value, second, other) => {
            put_value(first, first.size, value, b" and ", out);
            put_value(second, first.size, other, b" here", out);
        }
        Cause::Itself(register) => {
            out.put_word(wording::name(register));
            out.put_word(b" is compared with itself");
        }
        Cause::ClearsCarry(by) => {
            out.put_word(wording::mnemonic(by));
            out.put_word(b" clears the carry");
        }
        Cause::ClearsOverflow(by) => {
            out.put_word(wording::mnemonic(by));
            out.put_word(b" clears the overflow");
        }
    }
}
