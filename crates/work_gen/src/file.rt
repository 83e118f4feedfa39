//! The file of the class.
ghost use Rattle.std.specs.Prelude.{◌≡◌, ◌≤◌, IfOk};
ghost use Rattle.class_pool.specs.ClassSpelling.{class_bytes};
ghost use Rattle.class_rules.specs.Grammar.{IsClass};
ghost use Rattle.work_gen.specs.Work.{work};

use crate::class::make;
use crate::laws::work_is_a_class;
use base::NoMemory;
use class_file::writing::write_class;
use class_pool::ClassFile;
use std::alloc::Global;

/// The bytes of a class file.
fn spelled(alloc: Global, class: &ClassFile) -> Result<Vec<u8>, NoMemory>
    requires { IsClass class.now }
    ensures { IfOk result (λ file. file.items ≡ class_bytes class.now) }
{
    write_class(alloc, class)
}

/// The bytes of the file of the class `W` with this number of adders (JVM Specification SE 8, 4.1).
pub fn work_file(alloc: Global, n: u32) -> Result<Vec<u8>, NoMemory>
    requires some { 1 ≤ n }
    requires few { n ≤ 1000 }
    ensures { IfOk result (λ file. file.items ≡ class_bytes (work n)) }
{
    // The law is for the proof.
    work_is_a_class();
    let classes = make(alloc, n)?;
    match classes.as_slice() {
        [class] => spelled(alloc, class),
        _ => unreachable!(),
    }
}
