//! A name, put where there is room.
ghost use Rattle.std.specs.Prelude.{◌≡◌, ◌<◌, ◌≤◌, ◌+◌, ◌*◌, ◌++◌, ◌∷◌, [], length, flat_map, slice_get, Some, vec_capacity};
ghost use Rattle.class_pool.specs.declared.class.ClassFile.{ClassFile};
ghost use Rattle.class_pool.specs.Utf8.{unit_bytes, utf8_bytes};
ghost use Rattle.class_lookup.specs.Parts.{name_of};
ghost use Rattle.name_laws.specs.Written.{written_byte, written};
ghost use Rattle.refusal_lines.specs.Room.{HasRoom};

use class_lookup::parts::name_of;
use name_laws::{put_byte, put_first};
use resolved_program::Program;

/// Puts a byte last.
fn push_within(room: &mut Vec<u8>, byte: u8)
    requires { length room.old.items < vec_capacity room.old }
    ensures items { room.new.items ≡ room.old.items ++ byte ∷ [] }
    ensures room { vec_capacity room.old ≤ vec_capacity room.new }
{
    match room.push(byte) {
        Ok(()) => {}
        Err(_) => unreachable!(),
    }
}

/// Puts what is written of a unit that isn't a name's first last.
fn put_unit(room: &mut Vec<u8>, unit: u16)
    requires { length room.old.items + 4 ≤ vec_capacity room.old }
    ensures items { room.new.items ≡ room.old.items ++ flat_map written_byte (unit_bytes unit) }
    ensures most { length room.new.items ≤ length room.old.items + 4 }
    ensures room { vec_capacity room.old ≤ vec_capacity room.new }
{
    // The bytes of the others stand as they are.
    if 0 < unit && unit < 128 {
        put_byte(room, unit as u8);
    } else if unit < 2048 {
        push_within(room, (192 + unit / 64) as u8);
        push_within(room, (128 + unit % 64) as u8);
    } else {
        push_within(room, (224 + unit / 4096) as u8);
        push_within(room, (128 + unit / 64 % 64) as u8);
        push_within(room, (128 + unit % 64) as u8);
    }
}

fn put_rest(room: &mut Vec<u8>, units: &[u16])
    requires { length room.old.items + 4 * length units.now ≤ vec_capacity room.old }
    ensures { room.new.items ≡ room.old.items ++ flat_map written_byte (utf8_bytes units.now) }
{
    for unit in units {
        put_unit(room, *unit);
    }
}

/// Puts what is written of a name.
fn put_name(room: &mut Vec<u8>, units: &[u16])
    requires empty { room.old.items ≡ [] }
    requires room { 4 * length units.now ≤ vec_capacity room.old }
    ensures { room.new.items ≡ written (utf8_bytes units.now) }
{
    let Some((first, rest)) = units.split_first() else {
        return;
    };
    if *first == 35 {
        put_first(room, b'#');
    } else {
        put_unit(room, *first);
    }
    put_rest(room, rest);
}

/// Puts what is written of the name of a class where there is room for that of any class of the program. It takes no memory.
pub fn tell_name(room: &mut Vec<u8>, program: &Program, class: u32)
    requires empty { room.old.items ≡ [] }
    requires room { HasRoom program.now (vec_capacity room.old) }
    requires class { class < length program.now }
    ensures { (k : ClassFile) → slice_get program.now class ≡ Some k → room.new.items ≡ written (utf8_bytes (name_of k)) }
{
    put_name(room, name_of(program.class(class)));
}
