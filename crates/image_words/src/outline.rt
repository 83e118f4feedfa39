//! Where the parts of an image lie, before its words are written.
ghost use Rattle.std.specs.Prelude.{◌≡◌, List, map, option_map, IfOk};
ghost use Rattle.class_pool.specs.declared.class.ClassFile.{ClassFile};
ghost use Rattle.image_facts.specs.Places.{static_place};
ghost use Rattle.image_facts.specs.Says.{field_place};
ghost use Rattle.program_tables.specs.Numbers.{types_of};
ghost use Rattle.program_tables.specs.Resolved.{resolved};
ghost use Rattle.program_tables.specs.Tables.{kind_seen};
ghost use Rattle.image_words.specs.Layout.{type_place, table_place, interface_place, interfaces_place, pool_place, method_place, outline_of};
ghost use Rattle.image_words.specs.Outline.{IsOutline};
ghost use Rattle.image_words.specs.Pools.{numbered_place};
ghost use Rattle.image_words.specs.Regions.{first_place};

use crate::slots::Slots;
use base::NoMemory;
use class_lookup::Place;
use image_builder::{Run, add, times};
use program_tables::{ObjectKind, Types};

/// Where the parts of an image lie, and for which methods the tables have words.
#[derive(Drop)]
pub struct Outline {
    /// The methods of interfaces, by number.
    pub interface_methods: Vec<Place>,
    /// The slots of the classes.
    pub slots: Slots,
    /// The places of the instance fields in the objects of each class.
    pub instances: Vec<Run>,
    /// The places of the static fields, by index; the types lie behind them.
    pub statics: Run,
    /// The words of each type.
    pub type_words: u32,
    /// The places of the method tables, by class; the table of zeros lies behind them.
    pub tables: Run,
    /// The places of the tables of interface methods, by class.
    pub interface_tables: Run,
    pub pools: Run,
    pub methods: Run,
    /// The places of the objects that are there at the start, by number.
    pub objects: Run,
}

impl Outline {
    /// The place of a type.
    pub fn type_place(&self, number: u32) -> Result<u32, NoMemory>
        ensures { (cs : List ClassFile) → IsOutline cs self.now → IfOk result (λ place. place ≡ type_place cs number) }
    {
        let place = add(self.statics.end, times(number, self.type_words)?)?;
        Ok(place)
    }

    /// The place of the type of this kind, 0 where it has no number.
    pub fn kind_place(&self, types: &Types, kind: Option<ObjectKind>) -> Result<u32, NoMemory>
        ensures { (cs : List ClassFile) → IsOutline cs self.now → map kind_seen types.now ≡ types_of cs
            → IfOk result (λ place. place ≡ numbered_place cs (outline_of cs) (option_map kind_seen kind)) }
    {
        match kind {
            Some(kind) => match types.number(kind) {
                Some(number) => self.type_place(number),
                None => Ok(0),
            },
            None => Ok(0),
        }
    }

    /// The place of a static field, by its index.
    pub fn static_place(&self, index: u32) -> u32
        ensures { (cs : List ClassFile) → IsOutline cs self.now → result ≡ static_place (resolved cs) (outline_of cs) index }
    {
        self.statics.at(index)
    }

    /// The word of an instance field in the objects of a class, by its index there.
    pub fn field_place(&self, class: u32, index: u32) -> u32
        ensures { (cs : List ClassFile) → IsOutline cs self.now → result ≡ field_place (resolved cs) class index }
    {
        let class = class as usize;
        if class < self.instances.len() {
            self.instances[class].at(index)
        } else {
            1
        }
    }

    /// The place of the method table of a class.
    pub fn table_place(&self, class: u32) -> u32
        ensures { (cs : List ClassFile) → IsOutline cs self.now → result ≡ table_place cs class }
    {
        self.tables.at(class)
    }

    /// The place of its table of interface methods.
    pub fn interface_place(&self, class: u32) -> u32
        ensures { (cs : List ClassFile) → IsOutline cs self.now → result ≡ interface_place cs class }
    {
        self.interface_tables.at(class)
    }

    /// The place of the table of zeros.
    pub fn zeros_place(&self) -> u32
        ensures { (cs : List ClassFile) → IsOutline cs self.now → result ≡ interfaces_place cs }
    {
        self.tables.end
    }

    /// The place of the pool of a class.
    pub fn pool_place(&self, class: u32) -> u32
        ensures { (cs : List ClassFile) → IsOutline cs self.now → result ≡ pool_place cs class }
    {
        self.pools.at(class)
    }

    /// The place of the record of a method.
    pub fn method_place(&self, method: u32) -> u32
        ensures { (cs : List ClassFile) → IsOutline cs self.now → result ≡ method_place cs method }
    {
        self.methods.at(method)
    }

    /// The place of an object that is there at the start.
    pub fn object_place(&self, object: u32) -> u32
        ensures { (cs : List ClassFile) → IsOutline cs self.now → result ≡ first_place cs (outline_of cs) object }
    {
        self.objects.at(object)
    }
}
