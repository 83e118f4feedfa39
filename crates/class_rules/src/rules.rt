//! The rules on a class file (JVM Specification SE 8, 4.1 and 4.4 to 4.7).
ghost use Rattle.std.specs.Prelude.{◌≡◌, ◌↔◌, IsTrue, IfOk};
ghost use Rattle.class_rules.specs.Forms.{forms_of};
ghost use Rattle.class_rules.specs.Tests.{has_class_flags, has_right_classes, have_right_members, have_distinct, are_right, passes};
ghost use Rattle.class_rules.specs.Rules.{FollowsRules};

use crate::attributes::are_named;
use crate::distinct::{are_distinct, numbers_of};
use crate::fields::are_right_fields;
use crate::flags::{ACC_ABSTRACT, ACC_INTERFACE, has};
use crate::forms::{Form, forms_of};
use crate::laws::rules_are_tests;
use crate::methods::are_right_methods;
use crate::pool::{all_name_classes, all_name_rightly, names_class};
use base::NoMemory;
use class_pool::ClassFile;
use std::alloc::Global;

fn has_class_flags(flags: u16) -> bool
    ensures { result ≡ has_class_flags flags }
{
    !has(flags, ACC_INTERFACE) || has(flags, ACC_ABSTRACT)
}

fn has_right_classes(forms: &[Form], class: &ClassFile) -> bool
    ensures { result ≡ has_right_classes class.now.pool forms.now class.now }
{
    let pool = &class.pool;
    names_class(pool, forms, class.this_class)
        && (class.super_class == 0 || names_class(pool, forms, class.super_class))
        && all_name_classes(pool, forms, class.interfaces.as_slice())
}

fn have_right_members(forms: &[Form], class: &ClassFile) -> bool
    ensures { result ≡ have_right_members forms.now class.now }
{
    let pool = &class.pool;
    are_right_fields(pool, forms, class.flags, class.fields.as_slice())
        && are_right_methods(pool, forms, class.flags, class.methods.as_slice())
        && are_named(pool, class.attributes.as_slice())
}

/// Whether no two members are alike.
fn have_distinct(alloc: Global, class: &ClassFile) -> Result<bool, NoMemory>
    ensures { IfOk result (λ b. b ≡ have_distinct class.now) }
{
    let numbers = numbers_of(alloc, &class.pool)?;
    let fields = are_distinct(alloc, &class.pool, &numbers, class.fields.as_slice())?;
    let methods = are_distinct(alloc, &class.pool, &numbers, class.methods.as_slice())?;
    Ok(fields && methods)
}

/// Whether the other tests pass, where the forms are those of the pool.
fn are_right(forms: &[Form], class: &ClassFile) -> bool
    ensures { result ≡ are_right forms.now class.now }
{
    all_name_rightly(&class.pool, forms)
        && has_right_classes(forms, class)
        && has_class_flags(class.flags)
        && have_right_members(forms, class)
}

/// Whether the class file passes the tests.
fn passes(alloc: Global, class: &ClassFile) -> Result<bool, NoMemory>
    ensures { IfOk result (λ b. b ≡ passes (forms_of class.now.pool) class.now) }
{
    let forms = forms_of(alloc, class.pool.entries())?;
    let distinct = have_distinct(alloc, class)?;
    Ok(are_right(&forms, class) && distinct)
}

/// Whether a class file follows the rules.
pub fn follows_rules(alloc: Global, class: &ClassFile) -> Result<bool, NoMemory>
    ensures { IfOk result (λ b. IsTrue b ↔ FollowsRules class.now) }
{
    rules_are_tests();
    passes(alloc, class)
}
