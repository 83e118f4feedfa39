//! What the entries of a class's pool name (JVM Specification SE 8, 4.4, 5.4.3 and 5.1).
ghost use Rattle.std.specs.Prelude.{◌≡◌, ◌<◌, is_some, length, Some, IfSome, IsTrue, slice_get};
ghost use Rattle.class_pool.specs.declared.class.ClassFile.{ClassFile};
ghost use Rattle.class_pool.specs.Grammar.{entry_at};
ghost use Rattle.class_lookup.specs.Lookup.{method_at};
ghost use Rattle.program_tables.specs.Entries.{field_found, method_found};
ghost use Rattle.program_tables.specs.Meanings.{operand_seen};
ghost use Rattle.resolved_program.specs.Strings.{object_in, object_of_entry};

use crate::entries::{field_found, method_found};
use crate::program::Program;
use class_hierarchy::Place;
use class_lookup::laws::members_are_found_above;
use program_tables::Operand;

/// The object of the string that an operand is, if it is one.
fn object_in(operand: Operand) -> Option<u32>
    ensures { result ≡ object_in (operand_seen operand) }
{
    match operand {
        Operand::Text(object) => Some(object),
        Operand::Nothing
        | Operand::Int(_)
        | Operand::Long(_)
        | Operand::Static(_)
        | Operand::Field(_, _, _)
        | Operand::Method(_, _)
        | Operand::Type(_) => None,
    }
}

impl Program {
    /// The class through which an entry of a class names a field, and the field that is found from it (5.4.3.2).
    pub fn field_found(&self, class: u32, owner: u16, member: u16) -> Option<(u32, Place)>
        requires { class < length self.now }
        ensures { (c : ClassFile) → slice_get self.now class ≡ Some c → result ≡ field_found self.now c owner member }
    {
        field_found(self.hierarchy(), class, self.class(class), owner, member)
    }

    /// The class through which an entry of a class names a method, and the method that is found from it (5.4.3.3, 5.4.3.4).
    pub fn method_found(&self, class: u32, owner: u16, member: u16) -> Option<(u32, Place)>
        requires { class < length self.now }
        ensures found { (c : ClassFile) → slice_get self.now class ≡ Some c → result ≡ method_found self.now c owner member }
        ensures there { IfSome result (λ found. IsTrue (is_some (method_at self.now found.1))) }
    {
        members_are_found_above();
        self.hierarchy().is_without_cycle();
        method_found(self.hierarchy(), class, self.class(class), owner, member)
    }

    /// The number of the object of the string that a String entry of a class gives. None where it is no such entry, or where no
    /// instruction loads its string and no field has it as its constant.
    pub fn string_object(&self, class: u32, index: u16) -> Option<u32>
        requires { class < length self.now }
        ensures { (c : ClassFile) → slice_get self.now class ≡ Some c → result ≡ object_of_entry self.now c.pool (entry_at c.pool index) }
    {
        object_in(self.meaning(class, u32::from(index)).usual)
    }
}
