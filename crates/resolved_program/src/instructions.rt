//! The instructions of a program's methods, with what they name (JVM Specification SE 8, 4.4, 4.7.3 and 5.4.3).
ghost use Rattle.std.specs.Prelude.{◌≡◌, ◌<◌, false, length, option_map, Some, IfSome, slice_get};
ghost use Rattle.std.specs.Option.{option_map_or};
ghost use Rattle.bytecode_model.specs.Lists.{onto};
ghost use Rattle.bytecode_model.specs.Program.{instr_at};
ghost use Rattle.class_pool.specs.declared.class.ClassFile.{ClassFile};
ghost use Rattle.class_pool.specs.Grammar.{entry_at};
ghost use Rattle.program_tables.specs.Instructions.{index_of_entry};
ghost use Rattle.program_tables.specs.Kinds.{kind_of_entry};
ghost use Rattle.program_tables.specs.Meanings.{operand_seen, handler_seen};
ghost use Rattle.program_tables.specs.Numbers.{methods_by_number};
ghost use Rattle.program_tables.specs.Operands.{operand_in, guarded_in};
ghost use Rattle.program_tables.specs.Resolved.{handler_of, resolved};
ghost use Rattle.program_tables.specs.Tables.{kind_seen};
ghost use Rattle.program_tables.specs.Taken.{takes_entry};

use crate::program::Program;
use opcodes::laws::instructions_end_within;
use opcodes::mnemonics::INVOKESPECIAL;
use opcodes::{Instr, decode};
use program_tables::laws::methods_stand_by_number;
use program_tables::{Handler, Instruction, ObjectKind, Operand, entry_of, kind_in, takes_entry};

impl Program {
    /// Whether an instruction of the class takes what the entry gives that it names.
    fn takes(&self, class: u32, instr: &Instr) -> bool
        requires { class < length self.now }
        ensures { (c : ClassFile) → slice_get self.now class ≡ Some c
            → result ≡ option_map_or (takes_entry c.major instr.now.op) (entry_at c.pool (index_of_entry instr.now)) false }
    {
        let file = self.class(class);
        match entry_of(&file.pool, instr.first.unsigned_abs()) {
            Some(entry) => takes_entry(file.major, instr.op, entry),
            None => false,
        }
    }

    /// An instruction of the class, with what it names.
    fn with_operand(&self, class: u32, instr: &Instr) -> Instruction
        requires { class < length self.now }
        ensures instr { result.instr ≡ instr.now }
        ensures operand { (c : ClassFile) → slice_get self.now class ≡ Some c → operand_seen result.operand ≡ operand_in self.now class c instr.now }
        ensures guarded { (c : ClassFile) → slice_get self.now class ≡ Some c → result.guarded ≡ guarded_in self.now class c instr.now }
    {
        let instr = *instr;
        if !self.takes(class, &instr) {
            return Instruction {
                instr,
                operand: Operand::Nothing,
                guarded: false,
            };
        }
        let meaning = self.meaning(class, instr.first.unsigned_abs());
        let guarded = meaning.guarded;
        if instr.op == INVOKESPECIAL {
            Instruction {
                instr,
                operand: meaning.special,
                guarded,
            }
        } else {
            Instruction {
                instr,
                operand: meaning.usual,
                guarded,
            }
        }
    }

    /// What the pool entry means that an instruction of the class names.
    pub fn operand(&self, class: u32, instr: &Instr) -> Operand
        requires { class < length self.now }
        ensures { (c : ClassFile) → slice_get self.now class ≡ Some c → operand_seen result ≡ operand_in self.now class c instr.now }
    {
        self.with_operand(class, instr).operand
    }

    /// Whether it names a protected member of a superclass in another package (4.10.1.8).
    pub fn is_guarded(&self, class: u32, instr: &Instr) -> bool
        requires { class < length self.now }
        ensures { (c : ClassFile) → slice_get self.now class ≡ Some c → result ≡ guarded_in self.now class c instr.now }
    {
        self.with_operand(class, instr).guarded
    }

    /// What objects are of the type that a Class entry of the class names.
    pub fn kind_of_entry(&self, class: u32, index: u16) -> Option<ObjectKind>
        requires { class < length self.now }
        ensures { option_map kind_seen result ≡ onto (slice_get self.now class) (λ c. kind_of_entry self.now c.pool index) }
    {
        match self.class(class).pool.class_name(index) {
            Some(_) => kind_in(self.meaning(class, u32::from(index)).usual),
            None => None,
        }
    }

    /// An entry of the exception table of a method of the class, with what it catches (4.7.3).
    pub fn handler(&self, class: u32, entry: (u16, u16, u16, u16)) -> Handler
        requires { class < length self.now }
        ensures { (c : ClassFile) → slice_get self.now class ≡ Some c → handler_seen result ≡ handler_of self.now c entry }
    {
        let (start, end, target, caught) = entry;
        Handler {
            start,
            end,
            target,
            caught: if caught == 0 {
                None
            } else {
                self.kind_of_entry(class, caught)
            },
        }
    }

    /// The instruction that begins at a place of a method's code, if a whole one does.
    pub fn instruction(&self, method: u32, pc: u32) -> Option<Instruction>
        requires { method < length (methods_by_number self.now) }
        ensures instr { option_map (λ i. i.instr) result ≡ instr_at (resolved self.now) method pc }
        ensures operand { IfSome result (λ i. operand_seen i.operand ≡ (resolved self.now).operand method pc) }
        ensures guarded { IfSome result (λ i. i.guarded ≡ (resolved self.now).guarded method pc) }
    {
        methods_stand_by_number();
        instructions_end_within();
        let class = self.method(method).class;
        let code = self.code(method)?.code.as_slice();
        if pc as usize >= code.len() {
            return None;
        }
        match decode(code, pc) {
            Ok(instr) => Some(self.with_operand(class, &instr)),
            Err(_) => None,
        }
    }
}
