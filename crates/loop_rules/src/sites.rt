//! Ints that methods push, told of a program apart from its code.

ghost use Rattle.std.specs.Prelude.{◌≡◌, ◌<◌, length, Some, slice_get};
ghost use Rattle.loop_rules.specs.Sites.{int_at};

use std::marker::Model;

/// Of a method, by place, in bytes of code: the int constants that its instructions push, and the constants of the static final ints
/// that they read.
#[derive(Drop)]
pub struct MethodSites {
    pushed: Vec<Option<i32>>,
    fields: Vec<Option<i32>>,
}

impl Model for MethodSites {
    ghost use Rattle.loop_rules.specs.Sites.{SitesOf};

    ghost Value = { SitesOf };

    ghost view = { λ s. record { pushed = s.pushed.items; fields = s.fields.items } };
}

/// The int of a place, where there is one.
fn int_at(ints: &[Option<i32>], place: u32) -> Option<i32>
    ensures { result ≡ int_at ints.now place }
{
    let index = place as usize;
    if index < ints.len() {
        ints[index]
    } else {
        None
    }
}

impl MethodSites {
    /// The sites of a method.
    pub fn new(pushed: Vec<Option<i32>>, fields: Vec<Option<i32>>) -> Self
        ensures { result ≡ record { pushed = pushed.items; fields = fields.items } }
    {
        MethodSites { pushed, fields }
    }

    /// The int constant that the instruction at a place pushes.
    pub fn pushed(&self, place: u32) -> Option<i32>
        ensures { result ≡ int_at self.now.pushed place }
    {
        int_at(&self.pushed, place)
    }

    /// The constant of the static final int that the instruction at a place reads.
    pub fn field(&self, place: u32) -> Option<i32>
        ensures { result ≡ int_at self.now.fields place }
    {
        int_at(&self.fields, place)
    }
}

/// The sites of each method with code, by number, and the constants of static final ints that no instruction writes, by number of the
/// static field.
#[derive(Drop)]
pub struct IntSites {
    methods: Vec<MethodSites>,
    constants: Vec<Option<i32>>,
}

impl Model for IntSites {
    ghost use Rattle.loop_rules.specs.Sites.{Sites};

    ghost Value = { Sites };

    ghost view = { λ s. record { methods = s.methods.items; constants = s.constants.items } };
}

impl IntSites {
    /// The sites of methods, and constants.
    pub fn new(methods: Vec<MethodSites>, constants: Vec<Option<i32>>) -> Self
        ensures { result ≡ record { methods = methods.items; constants = constants.items } }
    {
        IntSites { methods, constants }
    }

    /// How many methods there are.
    pub fn method_count(&self) -> usize
        ensures { result ≡ length self.now.methods }
    {
        self.methods.len()
    }

    /// The sites of the method of this number.
    pub fn method(&self, number: u32) -> &MethodSites
        requires { number < length self.now.methods }
        ensures { slice_get self.now.methods number ≡ Some result.now }
    {
        &self.methods[number as usize]
    }
}
