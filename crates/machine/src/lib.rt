// What is known of registers and flags; stepping over an instruction; what is known of a jump. A state is changed in place, since
// it is large.
#![tactic(auto)]

ghost use Rattle.std.specs.Prelude.{◌≡◌};
ghost use Rattle.machine.specs.Registers.{nothing_known, slot_at, read_of, written, operand_of, forget_register, forgotten};
ghost use Rattle.machine.specs.States.{replaced};
ghost use Rattle.machine.specs.Finish.{finished};
ghost use Rattle.machine.specs.Rules.{writes, same_register, carry_step, arith_step, unary_unknown, unary_step, register_step, on_first, modelled_step, stepped};
ghost use Rattle.machine.specs.Conditions.{count_register, condition_of};

use alu::Flags;
use isa::{Binary, CarryChange, Counter, Instruction, Mnemonic, Operand, Register, Unary};
use known::{Effect, Slot};

// What is known of each register, and of the flags.
#[derive(Clone, Copy)]
pub struct State {
    pub registers: [Slot; State::REGISTERS],
    pub flags: Flags,
}

impl State {
    pub const REGISTERS: usize = 16;

    // The state of which nothing is known.
    #[tactic(auto, unfolding(crate::specs::Registers::nothing_known))]
    pub fn unknown() -> Self
        ensures { result ≡ nothing_known }
    {
        State {
            registers: [Slot::unknown(); Self::REGISTERS],
            flags: known::no_flags(),
        }
    }

    // What is known of the register of that index.
    #[tactic(auto, unfolding(crate::specs::Registers::slot_at))]
    fn slot_at(&self, index: u8) -> Slot
        ensures { result ≡ slot_at self.now index }
    {
        self.registers
            .get(index as usize)
            .copied()
            .unwrap_or(Slot::unknown())
    }

    // Something else is known of a register. Not by `get_mut`: of what is written through an array's, a proof learns nothing.
    #[tactic(auto, unfolding(crate::specs::States::replaced))]
    fn replace(&mut self, index: u8, slot: Slot)
        ensures { self.new ≡ replaced self.old index slot }
    {
        let k = index as usize;
        if k < Self::REGISTERS {
            self.registers[k] = slot;
        }
    }

    // A register of another class than 1 is unknown.
    #[tactic(auto, unfolding(crate::specs::Registers::read_of))]
    pub fn read(&self, r: Register) -> Option<u64>
        ensures { result ≡ read_of self.now r }
    {
        if r.class == 1 {
            self.slot_at(r.index).read(alu::width_of(r.size), r.offset)
        } else {
            None
        }
    }

    // To a register of another class than 1 nothing is written.
    #[tactic(auto, unfolding(crate::specs::Registers::written))]
    fn write(&mut self, r: Register, v: Option<u64>)
        ensures { self.new ≡ written self.old r v }
    {
        if r.class == 1 {
            let new = self
                .slot_at(r.index)
                .write(alu::width_of(r.size), r.offset, v);
            self.replace(r.index, new);
        }
    }

    // The value of an operand beside a register of that size.
    #[tactic(auto, unfolding(crate::specs::Registers::operand_of))]
    pub fn operand(&self, size: u8, o: Operand) -> Option<u64>
        ensures { result ≡ operand_of self.now size o }
    {
        match o {
            Operand::Reg(r) => self.read(r),
            Operand::Imm(x) => known::immediate_of(alu::width_of(size), x),
            Operand::Absent | Operand::Mem => None,
        }
    }

    // Forget a register that is declared as written, whole.
    #[tactic(auto, unfolding(crate::specs::Registers::forget_register))]
    fn forget_register(&mut self, r: Register)
        ensures { self.new ≡ forget_register self.old r }
    {
        if r.class == 1 {
            self.replace(r.index, Slot::unknown());
        }
    }

    // Forget what the instruction declares as written. Inlined, as a call would have every instruction put into memory.
    #[inline(always)]
    #[tactic(auto, unfolding(crate::specs::Registers::forgotten, crate::specs::Registers::forget_registers))]
    fn forget(&mut self, i: Instruction)
        ensures { self.new ≡ forgotten self.old i }
    {
        let n = i.count.min(8) as usize;
        for r in &i.written[..n] {
            self.forget_register(*r);
        }
        self.flags = known::forget_flags(i.flags, self.flags);
    }

    // stc, clc, cmc.
    #[tactic(auto, unfolding(crate::specs::Rules::carry_step))]
    fn carry(&mut self, c: CarryChange)
        ensures { self.new ≡ carry_step self.old c }
    {
        self.flags.cf = known::carry_rule(c, self.flags.cf);
    }

    // Write the value, if the instruction writes, and set the flags.
    #[tactic(auto, unfolding(crate::specs::Finish::finished))]
    fn finish(&mut self, there: bool, d: Register, e: Effect)
        ensures { self.new ≡ finished self.old there d e }
    {
        if there {
            self.write(d, e.value);
        }
        self.flags = e.flags;
    }

    // add, sub, cmp, and, or, xor, test.
    #[tactic(auto, unfolding(crate::specs::Rules::arith_step))]
    fn arith(&mut self, op: Binary, d: Register, o: Operand)
        ensures { self.new ≡ arith_step self.old op d o }
    {
        let a = self.read(d);
        let b = self.operand(d.size, o);
        let e = known::arith_effect(op, alu::width_of(d.size), is_same(d, o), a, b);
        self.finish(is_writing(op), d, e);
    }

    // inc, dec, neg of an unknown register.
    #[tactic(auto, unfolding(crate::specs::Rules::unary_unknown))]
    fn unary_unknown(&mut self, i: Instruction, op: Unary)
        ensures { self.new ≡ unary_unknown self.old i op }
    {
        let cf = self.flags.cf;
        self.forget(i);
        self.flags.cf = known::unknown_carry(op, cf);
    }

    // inc, dec, neg.
    #[tactic(auto, unfolding(crate::specs::Rules::unary_step))]
    fn unary(&mut self, i: Instruction, op: Unary, d: Register)
        ensures { self.new ≡ unary_step self.old i op d }
    {
        match self.read(d) {
            Some(a) => {
                let w = alu::width_of(d.size);
                self.finish(true, d, known::unary_effect(op, w, self.flags.cf, a));
            }
            None => self.unary_unknown(i, op),
        }
    }

    // A modelled instruction with a register first; any other forgets what it declares.
    #[tactic(auto, unfolding(crate::specs::Rules::register_step))]
    fn on_register(&mut self, i: Instruction, d: Register)
        ensures { self.new ≡ register_step self.old i i.mnemonic d }
    {
        match i.mnemonic {
            Mnemonic::Mov => self.write(d, self.operand(d.size, i.second)),
            Mnemonic::Not => self.write(d, known::complement_of(self.read(d))),
            Mnemonic::TwoOperand(op) => self.arith(op, d, i.second),
            Mnemonic::OneOperand(op) => self.unary(i, op, d),
            Mnemonic::Other | Mnemonic::Carry(_) | Mnemonic::Jump(_) | Mnemonic::CountJump(_) =>
                self.forget(i),
        }
    }

    fn on_first(&mut self, i: Instruction)
        ensures { self.new ≡ on_first self.old i i.mnemonic i.first }
    {
        match i.first {
            Operand::Reg(d) => self.on_register(i, d),
            Operand::Absent | Operand::Imm(_) | Operand::Mem => self.forget(i),
        }
    }

    // stc, clc, cmc whatever their operands, all others by their first one.
    #[tactic(auto, unfolding(crate::specs::Rules::modelled_step))]
    fn step_modelled(&mut self, i: Instruction)
        ensures { self.new ≡ modelled_step self.old i i.mnemonic }
    {
        match i.mnemonic {
            Mnemonic::Carry(c) => self.carry(c),
            Mnemonic::Other | Mnemonic::Jump(_) | Mnemonic::CountJump(_) => self.forget(i),
            Mnemonic::Mov | Mnemonic::Not | Mnemonic::TwoOperand(_) | Mnemonic::OneOperand(_) =>
                self.on_first(i),
        }
    }

    // What is known after an instruction.
    #[tactic(auto, unfolding(crate::specs::Rules::stepped))]
    pub fn step(&mut self, i: Instruction)
        ensures { self.new ≡ stepped self.old i }
    {
        if i.call {
            *self = State::unknown();
        } else if isa::is_modelled(i) {
            self.step_modelled(i);
        } else {
            self.forget(i);
        }
    }

    // What is known of a conditional branch of that mnemonic: whether it jumps.
    #[tactic(auto, unfolding(crate::specs::Conditions::condition_of))]
    pub fn condition(&self, m: Mnemonic) -> Option<bool>
        ensures { result ≡ condition_of self.now m }
    {
        match m {
            Mnemonic::Jump(c) => known::holds(c, self.flags),
            Mnemonic::CountJump(c) => known::is_zero(self.read(count_register(c))),
            Mnemonic::Other
            | Mnemonic::Carry(_)
            | Mnemonic::Mov
            | Mnemonic::Not
            | Mnemonic::TwoOperand(_)
            | Mnemonic::OneOperand(_) => None,
        }
    }
}

// Whether the operand is that very register.
pub fn is_same(d: Register, o: Operand) -> bool
    ensures { result ≡ same_register d o }
{
    o == Operand::Reg(d)
}

// cmp and test write no result.
fn is_writing(op: Binary) -> bool
    ensures { result ≡ writes op }
{
    !matches!(op, Binary::Cmp | Binary::Test)
}

// The part of register 1 that a count-register jump reads.
pub fn count_register(c: Counter) -> Register
    ensures { result ≡ count_register c }
{
    let size = match c {
        Counter::Rcx => 64,
        Counter::Ecx => 32,
        Counter::Cx => 16,
    };
    Register {
        class: 1,
        index: 1,
        size,
        offset: 0,
    }
}
