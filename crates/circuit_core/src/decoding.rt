//! Words of the ROM, taken apart.

ghost use Rattle.std.specs.Prelude.{◌≡◌, ◌<◌, ◌^◌, ℕ};
ghost use Rattle.netlist.specs.Meaning.{word_on};
ghost use Rattle.circuit_build.specs.Wiring.{Gives};
ghost use Rattle.circuit_cycles.specs.Words.{is, pops_word, pushes_word};
ghost use Rattle.circuit_core.specs.Decoding.{Decodes, Tells, is_any, picked};

use crate::word::Word;
use circuit_build::Logic;
use microcode::isa::Operation;
use netlist::Net;

impl Word {
    /// What these 16 bits say.
    pub fn new(logic: &mut Logic, bits: Net) -> Self
        ensures gives { Gives logic.old logic.new (λ ws. Decodes ws result (word_on ws bits)) }
    {
        // Bodies differ in the bits above their number of 6, 5 or 11 bits.
        let above_code = logic.part(bits, 6, 8);
        let above_number = logic.part(bits, 5, 9);
        let above_target = logic.part(bits, 11, 3);
        Word {
            is_plain: logic.is(above_code, 0),
            code: logic.part(bits, 0, 6),
            is_stm: logic.is(above_number, 0x0100 >> 5),
            is_ldm: logic.is(above_number, 0x0120 >> 5),
            is_ldi: logic.is(above_number, 0x0140 >> 5),
            number: logic.part(bits, 0, 5),
            is_bz: logic.is(above_target, 0x0800 >> 11),
            is_bnz: logic.is(above_target, 0x1000 >> 11),
            is_jmp: logic.is(above_target, 0x1800 >> 11),
            target: logic.part(bits, 0, 11),
            opd: logic.part(bits, 14, 1),
            nxt: logic.part(bits, 15, 1),
        }
    }

    /// Whether it is the operation with this code.
    pub fn is(&self, logic: &mut Logic, code: u64) -> Net
        requires { code < 2 ^ 6 }
        ensures width { result.width ≡ 1 }
        ensures gives { Gives logic.old logic.new
            (Tells self.now result (λ word. is code word)) }
    {
        let named = logic.is(self.code, code);
        logic.and(self.is_plain, named)
    }

    /// Whether it is the operation with one of these codes.
    pub fn is_any(&self, logic: &mut Logic, codes: &[u64]) -> Net
        ensures width { result.width ≡ 1 }
        ensures gives { Gives logic.old logic.new (Tells self.now result (λ word. is_any codes.now word)) }
    {
        let named = logic.is_any(self.code, codes);
        logic.and(self.is_plain, named)
    }

    /// x where it is the operation with one of these codes, else y.
    pub fn choose(&self, logic: &mut Logic, codes: &[u64], x: Net, y: Net) -> Net
        ensures width { result.width ≡ x.width }
        ensures gives { Gives logic.old logic.new
            (λ ws. (word : ℕ) → Decodes ws self.now word
            → word_on ws result ≡ picked codes.now word (word_on ws x) (word_on ws y)) }
    {
        let is_any = self.is_any(logic, codes);
        logic.choose(is_any, x, y)
    }

    /// Whether it pushes a word.
    pub fn pushes(&self, logic: &mut Logic) -> Net
        ensures width { result.width ≡ 1 }
        ensures gives { Gives logic.old logic.new
            (Tells self.now result pushes_word) }
    {
        let named = logic.is_any(self.code, &PUSHING);
        let plain = logic.and(self.is_plain, named);
        let constant = logic.or(self.is_ldm, self.is_ldi);
        logic.or(plain, constant)
    }

    /// Whether it pops.
    pub fn pops(&self, logic: &mut Logic) -> Net
        ensures width { result.width ≡ 1 }
        ensures gives { Gives logic.old logic.new
            (Tells self.now result pops_word) }
    {
        let named = logic.is_any(self.code, &POPPING);
        let plain = logic.and(self.is_plain, named);
        let branch = logic.or(self.is_bz, self.is_bnz);
        let other = logic.or(self.is_stm, branch);
        logic.or(plain, other)
    }
}

/// The codes of the operations that push.
const PUSHING: [u64; 15] = [
    Operation::Dup as u64,
    Operation::Ldo as u64,
    Operation::Ldo8 as u64,
    Operation::Ldo16 as u64,
    Operation::Ldl as u64,
    Operation::Ld0 as u64,
    Operation::Ld1 as u64,
    Operation::Ld2 as u64,
    Operation::Ld3 as u64,
    Operation::Ldvp as u64,
    Operation::Ldsp as u64,
    Operation::Ldjpc as u64,
    Operation::Ldmi as u64,
    Operation::Ldmrd as u64,
    Operation::Ldin as u64,
];

/// The codes of the operations that pop.
const POPPING: [u64; 28] = [
    Operation::Pop as u64,
    Operation::Add as u64,
    Operation::Sub as u64,
    Operation::And as u64,
    Operation::Or as u64,
    Operation::Xor as u64,
    Operation::Shl as u64,
    Operation::Shr as u64,
    Operation::Ushr as u64,
    Operation::Mul as u64,
    Operation::Slt as u64,
    Operation::Sltu as u64,
    Operation::Stl as u64,
    Operation::St0 as u64,
    Operation::St1 as u64,
    Operation::St2 as u64,
    Operation::St3 as u64,
    Operation::Stvp as u64,
    Operation::Stsp as u64,
    Operation::Stjpc as u64,
    Operation::Star as u64,
    Operation::Stmi as u64,
    Operation::Stmra as u64,
    Operation::Stmwa as u64,
    Operation::Stmwd as u64,
    Operation::Stbc as u64,
    Operation::Jbr as u64,
    Operation::Stout as u64,
];
