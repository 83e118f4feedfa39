//! The words of an image, and where its parts lie.
ghost use Rattle.std.specs.Prelude.{◌≡◌, ◌<◌, length, Some, slice_get};

use std::marker::Model;

/// The words of an image, and the places of its methods, types, pools, fields and strings by their numbers. Contracts see it as
/// these lists.
#[derive(Drop)]
pub struct Layout {
    pub words: Vec<u32>,
    pub methods: Vec<u32>,
    pub types: Vec<u32>,
    pub pools: Vec<u32>,
    pub fields: Vec<u32>,
    pub strings: Vec<u32>,
}

impl Model for Layout {
    ghost use Rattle.image_builder.specs.Laid.{Laid};

    ghost Value = { Laid };

    ghost view = { λ a. record {
      words = a.words.items;
      methods = a.methods.items;
      types = a.types.items;
      pools = a.pools.items;
      fields
          = a.fields.items;
      strings = a.strings.items;
    } };
}

impl Layout {
    /// The words of the image.
    pub fn words(&self) -> &[u32]
        ensures { result.now ≡ self.now.words }
    {
        &self.words
    }

    /// The place of the record of the method of this number.
    pub fn method_place(&self, method: u32) -> u32
        requires { method < length self.now.methods }
        ensures { slice_get self.now.methods method ≡ Some result }
    {
        self.methods[method as usize]
    }

    /// The place of the record of the type of this number.
    pub fn type_place(&self, number: u32) -> u32
        requires { number < length self.now.types }
        ensures { slice_get self.now.types number ≡ Some result }
    {
        self.types[number as usize]
    }

    /// The place of the pool of the class of this number.
    pub fn pool_place(&self, class: u32) -> u32
        requires { class < length self.now.pools }
        ensures { slice_get self.now.pools class ≡ Some result }
    {
        self.pools[class as usize]
    }

    /// The place of the static field of this number among all fields; 0 for an instance field.
    pub fn static_place(&self, field: u32) -> u32
        requires { field < length self.now.fields }
        ensures { slice_get self.now.fields field ≡ Some result }
    {
        self.fields[field as usize]
    }
}
