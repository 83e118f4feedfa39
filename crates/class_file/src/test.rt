//! Whether a class file made by hand is one.
ghost use Rattle.std.specs.Prelude.{◌≡◌, ◌↔◌, IfOk, IsTrue};
ghost use Rattle.class_rules.specs.Grammar.{IsClass};

use crate::checking::is_inside;
use crate::reader::{NEWEST, OLDEST};
use base::NoMemory;
use class_pool::{ClassFile, is_pool};
use class_rules::follows_rules;
use std::alloc::Global;

/// Whether a value is a class file: of a version that is read, with a pool, with bytes behind it, and following the
/// rules. `write_class` needs such a value.
pub fn is_class(alloc: Global, class: &ClassFile) -> Result<bool, NoMemory>
    ensures { IfOk result (λ b. IsTrue b ↔ IsClass class.now) }
{
    let (_minor, major) = (class.minor, class.major);
    if major < OLDEST || NEWEST < major {
        return Ok(false);
    }
    if !is_pool(class.pool.entries()) || !is_inside(class) {
        return Ok(false);
    }
    follows_rules(alloc, class)
}
