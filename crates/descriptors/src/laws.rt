//! Laws of names and of descriptors.
ghost use Rattle.std.specs.Prelude.{◌≡◌, ◌↔◌, ℕ, List, Some};
ghost use Rattle.descriptors.specs.declared.descriptor.FieldType.{FieldType};
ghost use Rattle.descriptors.specs.declared.descriptor.MethodType.{MethodType};
ghost use Rattle.descriptors.specs.Descriptors.{IsFieldDescriptor, IsMethodDescriptor};
ghost use Rattle.descriptors.specs.Parts.{ClassNames};
ghost use Rattle.descriptors.specs.Parsing.{field_in, method_in};

/// The name of a class is unqualified names with a `/` between each two (JVM Specification SE 8, 4.2.1).
pub fn class_names()
    ensures { ClassNames }
{}

/// What is read as a field descriptor is spelled so, and what is spelled so is read (JVM Specification SE 8, 4.3.2).
pub fn field_descriptors()
    ensures { (units : List ℕ) (t : FieldType) → (field_in units ≡ Some t) ↔ IsFieldDescriptor units t }
{}

/// The same of method descriptors (JVM Specification SE 8, 4.3.3).
pub fn method_descriptors()
    ensures { (units : List ℕ) (m : MethodType) → (method_in units ≡ Some m) ↔ IsMethodDescriptor units m }
{}
