//! What is found in the attributes of a member or of code (JVM Specification SE 8, 4.7.2 to 4.7.4).
ghost use Rattle.std.specs.Prelude.{◌≡◌, option_map};
ghost use Rattle.std.specs.Option.{option_copied};
ghost use Rattle.class_pool.specs.Found.{code_of, constant_value_of, stack_map_of};

use crate::class::{Body, Code, Member};
use crate::kind::is_named;
use crate::pool::Pool;

impl Member {
    /// The code of a method: what its first Code attribute says.
    pub fn code(&self) -> Option<&Code>
        ensures { option_copied result ≡ code_of self.now }
    {
        for attribute in self.attributes.as_slice() {
            if let Body::Code(code) = &attribute.body {
                return Some(code);
            }
        }
        None
    }

    /// The index of a field's constant: what its first ConstantValue attribute says.
    pub fn constant_value(&self) -> Option<u16>
        ensures { result ≡ constant_value_of self.now }
    {
        for attribute in self.attributes.as_slice() {
            if let Body::ConstantValue(constant) = attribute.body {
                return Some(constant);
            }
        }
        None
    }
}

impl Code {
    /// The bytes of the first StackMapTable attribute.
    pub fn stack_map(&self, pool: &Pool) -> Option<&[u8]>
        ensures { option_map (λ bytes. bytes.now) result ≡ stack_map_of pool.now self.now }
    {
        for (name, bytes) in self.attributes.as_slice() {
            if is_named(pool, *name, b"StackMapTable") {
                return Some(bytes.as_slice());
            }
        }
        None
    }
}
