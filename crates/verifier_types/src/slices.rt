//! Slices of verification types: operands from the bottom to the top.
ghost use Rattle.std.specs.Prelude.{◌≡◌, map};
ghost use Rattle.bytecode_typing.specs.Types.{stack_words, substituted, holds_made};
ghost use Rattle.verifier_types.specs.Seen.{type_seen, types_seen, stack_seen};

use crate::types::VarType;

/// How many words the types take on an operand stack.
pub(crate) fn words_of(items: &[VarType]) -> usize
    ensures { result ≡ stack_words (stack_seen items.now) }
{
    let mut words = 0usize;
    for item in items {
        words += item.words();
    }
    words
}

/// Whether one of them is the type of what the `new` at a place made.
pub(crate) fn holds_made(items: &[VarType], place: u32) -> bool
    ensures { result ≡ holds_made place (stack_seen items.now) }
{
    for item in items {
        if item.is_made(place) {
            return true;
        }
    }
    false
}

/// Puts one type in the place of each uninitialised type `old`.
pub(crate) fn substitute(types: &mut [VarType], old: VarType, new: VarType)
    ensures { types_seen types.new ≡ map (substituted (type_seen old) (type_seen new)) (types_seen types.old) }
{
    for i in 0..types.len() {
        types[i] = types[i].substituted(old, new);
    }
}
