//! A law of class files.

ghost use Rattle.std.specs.Prelude.{◌≡◌, ℕ, List};
ghost use Rattle.class_pool.specs.declared.class.ClassFile.{ClassFile};
ghost use Rattle.class_rules.specs.Grammar.{IsClassOf};
ghost use Rattle.class_file.specs.InsideGrammar.{OneInside};

use class_pool::laws::one_pool;

/// The bytes of a class file are those of no other.
pub fn one_class()
    ensures { (bytes : List ℕ) (c d : ClassFile) → IsClassOf bytes c → IsClassOf bytes d → c ≡ d }
{
    one_pool();
    one_inside();
}

/// The bytes behind a pool are those of one class file.
pub fn one_inside()
    ensures { OneInside }
{}
