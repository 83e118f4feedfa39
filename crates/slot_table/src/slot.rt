//! A slot.
ghost use Rattle.std.specs.Prelude.{◌≡◌, ◌++◌, IfOk, OnOk};
ghost use Rattle.slot_table.specs.Slots.{name_text, slot_word};

use base::NoMemory;
use class_pool::Units;
use class_pool::utf8::put_text;
use name_laws::put_written;
use std::alloc::Global;

/// A slot: the static method without arguments that it calls, and how many cycles the call may take.
#[derive(Drop)]
pub struct Slot {
    /// The name of the method's class.
    pub class: Units,
    /// The name of the method.
    pub method: Units,
    /// In cycles.
    pub length: u64,
}

impl Slot {
    /// Its name, `Class.name()V`.
    fn name(&self, alloc: Global) -> Result<Vec<u8>, NoMemory>
        ensures { IfOk result (λ name. name.items ≡ name_text self.now) }
    {
        let mut name = Vec::new(alloc);
        put_text(&mut name, self.class.as_slice())?;
        name.push(b'.')?;
        put_text(&mut name, self.method.as_slice())?;
        name.extend_from_slice(b"()V")?;
        Ok(name)
    }

    /// Puts its name last, as it is written.
    pub fn put_name(&self, alloc: Global, out: &mut Vec<u8>) -> Result<(), NoMemory>
        ensures { OnOk result (out.new.items ≡ out.old.items ++ slot_word self.now) }
    {
        let name = self.name(alloc)?;
        put_written(out, &name)
    }
}
