//! Names that are written.
ghost use Rattle.std.specs.Prelude.{◌≡◌, ◌<◌, ◌≤◌, ◌+◌, ◌*◌, ◌++◌, ◌∷◌, [], length, flat_map, vec_capacity, IfOk, OnOk};
ghost use Rattle.std.specs.List.{list_all};
ghost use Rattle.name_laws.specs.Written.{is_plain, capital_digit, escaped, written_byte, written_first, written, stands};

use base::NoMemory;
use std::alloc::Global;

// ---- where there is room

/// Whether a byte of a name stands as it is.
fn is_plain(byte: u8) -> bool
    ensures { result ≡ is_plain byte }
{
    32 < byte && byte != b'\\' && byte != 127
}

/// A hexadecimal digit, of a number below 16.
fn capital_digit(digit: u8) -> u8
    requires { digit < 16 }
    ensures { result ≡ capital_digit digit }
{
    if digit < 10 { 48 + digit } else { 55 + digit }
}

/// Puts a byte last.
fn push_within(room: &mut Vec<u8>, byte: u8)
    requires { length room.old.items < vec_capacity room.old }
    ensures items { room.new.items ≡ room.old.items ++ byte ∷ [] }
    ensures room { vec_capacity room.old ≤ vec_capacity room.new }
{
    match room.push(byte) {
        Ok(()) => {}
        Err(_) => unreachable!(),
    }
}

/// Puts `\xHH` last.
fn put_escaped(room: &mut Vec<u8>, byte: u8)
    requires { length room.old.items + 4 ≤ vec_capacity room.old }
    ensures items { room.new.items ≡ room.old.items ++ escaped byte }
    ensures room { vec_capacity room.old ≤ vec_capacity room.new }
{
    push_within(room, b'\\');
    push_within(room, b'x');
    push_within(room, capital_digit(byte / 16));
    push_within(room, capital_digit(byte % 16));
}

/// Puts what is written of a byte of a name last, where there is room. It takes no memory.
pub fn put_byte(room: &mut Vec<u8>, byte: u8)
    requires { length room.old.items + 4 ≤ vec_capacity room.old }
    ensures items { room.new.items ≡ room.old.items ++ written_byte byte }
    ensures room { vec_capacity room.old ≤ vec_capacity room.new }
{
    if is_plain(byte) {
        push_within(room, byte);
    } else {
        put_escaped(room, byte);
    }
}

/// The same of a name's first byte.
pub fn put_first(room: &mut Vec<u8>, byte: u8)
    requires { length room.old.items + 4 ≤ vec_capacity room.old }
    ensures items { room.new.items ≡ room.old.items ++ written_first byte }
    ensures room { vec_capacity room.old ≤ vec_capacity room.new }
{
    if byte == b'#' {
        put_escaped(room, byte);
    } else {
        put_byte(room, byte);
    }
}

fn put_rest(room: &mut Vec<u8>, bytes: &[u8])
    requires { length room.old.items + 4 * length bytes.now ≤ vec_capacity room.old }
    ensures { room.new.items ≡ room.old.items ++ flat_map written_byte bytes.now }
{
    for byte in bytes {
        put_byte(room, *byte);
    }
}

// ---- names

/// Appends what is written of a name.
pub fn put_written(text: &mut Vec<u8>, name: &[u8]) -> Result<(), NoMemory>
    ensures { OnOk result (text.new.items ≡ text.old.items ++ written name.now) }
{
    let Some((first, rest)) = name.split_first() else {
        return Ok(());
    };
    let Some(most) = name.len().checked_mul(4) else {
        return Err(NoMemory);
    };
    text.reserve(most)?;
    put_first(text, *first);
    put_rest(text, rest);
    Ok(())
}

fn are_plain(bytes: &[u8]) -> bool
    ensures { result ≡ list_all is_plain bytes.now }
{
    bytes.iter().all(|byte| is_plain(*byte))
}

/// Whether a name stands as it is.
fn stands(name: &[u8]) -> bool
    ensures { result ≡ stands name.now }
{
    match name {
        [] => true,
        [first, ..] => *first != b'#' && are_plain(name),
    }
}

/// What is written of a name: mostly the name itself.
pub fn write_name(alloc: Global, name: Vec<u8>) -> Result<Vec<u8>, NoMemory>
    ensures { IfOk result (λ text. text.items ≡ written name.items) }
{
    if stands(&name) {
        return Ok(name);
    }
    let mut text = Vec::new(alloc);
    put_written(&mut text, &name)?;
    Ok(text)
}
