//! Laws of the rules.
ghost use Rattle.class_rules.specs.Found.{RulesAreTests, MethodsHaveCode, FieldsHaveConstants};

use descriptors::laws::{field_descriptors, method_descriptors};

/// The tests of the rules are true exactly where the rules hold.
pub(crate) fn rules_are_tests()
    ensures { RulesAreTests }
{
    field_descriptors();
    method_descriptors();
}

/// The code that a method of a class file has is right, and a method has code exactly where it is neither abstract
/// nor native (JVM Specification SE 8, 4.7.3).
pub fn methods_have_code()
    ensures { MethodsHaveCode }
{}

/// The constant that a field of a class file has is right (JVM Specification SE 8, 4.7.2).
pub fn fields_have_constants()
    ensures { FieldsHaveConstants }
{}
