//! Verified programs (JVM Specification SE 8, 4.10.1).
ghost use Rattle.std.specs.Prelude.{◌≡◌, IfOk, IfErr};
ghost use Rattle.bytecode_typing.specs.Lawful.{Lawful};
ghost use Rattle.bytecode_typing.specs.Typed.{Typed};
ghost use Rattle.program_tables.specs.Resolved.{resolved};
ghost use Rattle.bytecode_typing.specs.WellPlaced.{WellPlaced};
ghost use Rattle.bytecode_verifier.specs.Failure.{IsVerified, types_found};
ghost use Rattle.bytecode_verifier.specs.Verdict.{IsFaultOf};

use crate::fault::VerifyFault;
use crate::methods::first_failure;
use bytecode_typing::{programs_with_typings_are_typed, the_walk_finds_a_typing};
use class_rules::laws::methods_have_code;
use frame_types::laws::frames_stand_at_instructions;
use opcodes::laws::starts_follow_one_another;
use program_laws::laws::resolved_programs_are_lawful;
use program_tables::laws::methods_stand_by_number;
use resolved_program::Program;
use std::alloc::Global;
use std::marker::Model;

/// A program in which no method breaks a rule of the verifier. Contracts see it as the list of its classes.
#[derive(Drop)]
pub struct Verified {
    program: Program,
}

impl Model for Verified {
    ghost use Rattle.std.specs.Prelude.{List};
    ghost use Rattle.class_pool.specs.declared.class.ClassFile.{ClassFile};
    ghost use Rattle.bytecode_verifier.specs.Failure.{IsVerified};

    ghost Value = { List ClassFile };

    ghost view = { λ a. a.program };

    ghost invariant = { λ a. IsVerified a.program };
}

impl Verified {
    /// The program, which is well placed (4.7.3 and 4.9.1).
    pub fn program(&self) -> &Program
        ensures program { result.now ≡ self.now }
        ensures verified { IsVerified self.now }
        ensures placed { WellPlaced (resolved self.now) }
    {
        self.is_typed();
        &self.program
    }

    /// The program is typed and well placed, and has what typing presupposes of a program. It does nothing; a caller whose proof
    /// needs the facts calls it.
    pub fn is_typed(&self)
        ensures verified { IsVerified self.now }
        ensures lawful { Lawful (resolved self.now) }
        ensures typed { Typed (resolved self.now) (types_found self.now) }
        ensures placed { WellPlaced (resolved self.now) }
    {
        self.program.is_resolved();
        the_walk_finds_a_typing();
        programs_with_typings_are_typed();
        resolved_programs_are_lawful();
        methods_stand_by_number();
        methods_have_code();
        frames_stand_at_instructions();
        starts_follow_one_another();
    }
}

/// Verifies the methods of a program in the order of their numbers. The program is verified exactly where no method breaks a rule.
///
/// # Errors
///
/// [`VerifyFault::At`] exactly where a method breaks a rule, with the least such method and the place and the rule that fail there
/// first.
pub fn verify(alloc: Global, program: Program) -> Result<Verified, VerifyFault>
    ensures verified { IfOk result (λ verified. (verified ≡ program) × IsVerified program) }
    ensures fault { IfErr result (IsFaultOf program) }
{
    let found = first_failure(alloc, &program);
    match found {
        Ok(None) => Ok(Verified { program }),
        Ok(Some((method, pc, rule))) => Err(VerifyFault::At(method, pc, rule, program)),
        Err(_) => Err(VerifyFault::NoMemory(program)),
    }
}
