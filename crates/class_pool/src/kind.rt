//! What the body of an attribute is, by its name and by what it is an attribute of.
ghost use Rattle.std.specs.Prelude.{◌≡◌};
ghost use Rattle.class_pool.specs.Kind.{is_named, kind_of};

use crate::pool::Pool;
use base::is_text;

/// What an attribute is an attribute of.
#[derive(Clone, Copy)]
pub enum Owner {
    Class,
    Field,
    Method,
}

/// The forms of bodies.
#[derive(Clone, Copy)]
pub enum Kind {
    Code,
    ConstantValue,
    Bytes,
}

/// Whether the entry of the index is this ASCII text.
pub fn is_named(pool: &Pool, index: u16, text: &[u8]) -> bool
    ensures { result ≡ is_named pool.now index text.now }
{
    match pool.utf8(index) {
        Some(units) => is_text(units, text),
        None => false,
    }
}

/// The body of an attribute of this name.
pub fn kind_of(owner: Owner, pool: &Pool, name: u16) -> Kind
    ensures { result ≡ kind_of owner pool.now name }
{
    match owner {
        Owner::Class => Kind::Bytes,
        Owner::Field => {
            if is_named(pool, name, b"ConstantValue") {
                Kind::ConstantValue
            } else {
                Kind::Bytes
            }
        }
        Owner::Method => {
            if is_named(pool, name, b"Code") {
                Kind::Code
            } else {
                Kind::Bytes
            }
        }
    }
}
