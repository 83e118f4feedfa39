//! Which fields of a program hold null or arrays of one length.

ghost use Rattle.std.specs.Prelude.{◌≡◌, ℕ, ℤ, Option, IfOk};
ghost use Rattle.loop_rules.specs.Further.Arrays.{AreTables, IsKnownBy};
ghost use Rattle.loop_rules.specs.Further.Found.{only_constants};
ghost use Rattle.program_tables.specs.Resolved.{resolved};
ghost use Rattle.loop_rules.specs.Further.Arrays.{length_at};
ghost use Rattle.array_fields.specs.Lengths.{array_of, known_by, natural_length};
ghost use Rattle.array_fields.specs.declared.rows.Field.TheVariants.{Static, Instance};

use crate::lengths::{class_lengths, static_lengths};
use crate::puts::puts_of;
use crate::rows::Field;
use base::{Items, NoMemory};
use loop_rules::further::KnownTable;
use resolved_program::Program;
use std::alloc::Global;
use std::marker::Model;

/// What is known of the fields of a program: by number of the static field, and by class and index among the fields of its
/// instances, the length of the arrays that the field holds.
#[derive(Drop)]
pub struct FieldArrays {
    statics: Vec<Option<i32>>,
    fields: Vec<Items<Option<i32>>>,
}

impl Model for FieldArrays {
    ghost use Rattle.array_fields.specs.Lengths.{FieldLengths};

    ghost Value = { FieldLengths };

    ghost view = { λ a. record { statics = a.statics.items; fields = a.fields.items } };
}

/// A length, which isn't negative.
fn natural_length(length: Option<i32>) -> Option<i32>
    ensures { result ≡ natural_length length }
{
    let length = length?;
    if length >= 0 { Some(length) } else { None }
}

/// The length of an index.
fn length_in(lengths: &[Option<i32>], index: u32) -> Option<i32>
    ensures { result ≡ natural_length (length_at lengths.now index) }
{
    let index = index as usize;
    if index < lengths.len() {
        natural_length(lengths[index])
    } else {
        None
    }
}

impl FieldArrays {
    /// The length of the arrays that the static field of this number holds.
    fn of_static(&self, field: u32) -> Option<i32>
        ensures { result ≡ array_of self.now (Static field) }
    {
        length_in(&self.statics, field)
    }

    /// The length of the arrays that the field of this index of a class's instances holds.
    fn of_instance(&self, owner: u32, index: u32) -> Option<i32>
        ensures { result ≡ array_of self.now (Instance owner index) }
    {
        let owner = owner as usize;
        if owner < self.fields.len() {
            length_in(self.fields[owner].as_slice(), index)
        } else {
            None
        }
    }

    /// The length of the arrays that the field holds.
    pub(crate) fn of(&self, field: Field) -> Option<i32>
        ensures { result ≡ array_of self.now field }
    {
        match field {
            Field::Static(field) => self.of_static(field),
            Field::Instance(owner, index) => self.of_instance(owner, index),
        }
    }
}

/// The fields to which only arrays are put whose lengths are known by the tables of the methods.
pub fn field_arrays(
    alloc: Global,
    program: &Program,
    tables: &[KnownTable],
) -> Result<FieldArrays, NoMemory>
    ensures { IfOk result (λ x. (constants : ℕ → Option ℤ) → AreTables (resolved program.now) (only_constants constants) tables.now
        → IsKnownBy (resolved program.now) constants (known_by constants x)) }
{
    let puts = puts_of(alloc, program, tables)?;
    let statics = static_lengths(alloc, program, &puts)?;
    let fields = class_lengths(alloc, program, &puts)?;
    Ok(FieldArrays { statics, fields })
}
