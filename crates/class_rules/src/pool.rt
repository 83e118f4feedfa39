//! What the entries of a pool name, and what is named by them (JVM Specification SE 8, 4.4).
ghost use Rattle.std.specs.Prelude.{◌≡◌};
ghost use Rattle.std.specs.List.{list_all};
ghost use Rattle.class_pool.specs.Grammar.{entry_at, is_utf8, is_class};
ghost use Rattle.class_rules.specs.Tests.{described, names_rightly, names_class};

use crate::forms::{Form, form_at};
use class_pool::{Entry, Pool};

pub(crate) fn is_utf8(pool: &Pool, index: u16) -> bool
    ensures { result ≡ is_utf8 (entry_at pool.now index) }
{
    pool.utf8(index).is_some()
}

pub(crate) fn is_class(pool: &Pool, index: u16) -> bool
    ensures { result ≡ is_class (entry_at pool.now index) }
{
    pool.class_name(index).is_some()
}

/// What the descriptor of a name and type is.
fn described(pool: &Pool, forms: &[Form], index: u16) -> Form
    ensures { result ≡ described forms.now (entry_at pool.now index) }
{
    match pool.name_and_type(index) {
        Some((_, descriptor)) => form_at(forms, descriptor),
        None => form_at(forms, 0),
    }
}

/// Whether the name and the descriptor of an entry have their forms.
fn names_rightly(pool: &Pool, forms: &[Form], entry: &Entry) -> bool
    ensures { result ≡ names_rightly pool.now forms.now entry.now }
{
    match entry {
        Entry::Class(name) => {
            let form = form_at(forms, *name);
            form.is_class || form.is_array
        }
        Entry::Field(_, member) => described(pool, forms, *member).is_field,
        Entry::Method(_, member) | Entry::InterfaceMethod(_, member) | Entry::Dynamic(_, member) =>
            described(pool, forms, *member).method.is_some(),
        Entry::NameAndType(name, descriptor) => {
            let name = form_at(forms, *name);
            let descriptor = form_at(forms, *descriptor);
            (descriptor.is_field && name.is_unqualified)
                || (descriptor.method.is_some() && name.is_method)
        }
        Entry::MethodType(descriptor) => form_at(forms, *descriptor).method.is_some(),
        _ => true,
    }
}

pub(crate) fn all_name_rightly(pool: &Pool, forms: &[Form]) -> bool
    ensures { result ≡ list_all (names_rightly pool.now forms.now) pool.now }
{
    for entry in pool.entries() {
        if !names_rightly(pool, forms, entry) {
            return false;
        }
    }
    true
}

/// Whether the entry is a class that is no array class.
pub(crate) fn names_class(pool: &Pool, forms: &[Form], index: u16) -> bool
    ensures { result ≡ names_class forms.now (entry_at pool.now index) }
{
    match pool.class_name(index) {
        Some(name) => form_at(forms, name).is_class,
        None => false,
    }
}

pub(crate) fn all_name_classes(pool: &Pool, forms: &[Form], indexes: &[u16]) -> bool
    ensures { result ≡ list_all (λ i. names_class forms.now (entry_at pool.now i)) indexes.now }
{
    for index in indexes {
        if !names_class(pool, forms, *index) {
            return false;
        }
    }
    true
}
