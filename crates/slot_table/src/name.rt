//! The name of a slot's method.
ghost use Rattle.std.specs.Prelude.{ℕ, List, IfOk, IfErr};
ghost use Rattle.slot_table.specs.Grammar.{OnBad};
ghost use Rattle.slot_table.specs.Parts.{IsTextOf, IsClassText, IsMethodText, IsNameOf, IsWordOf};

use crate::line::cut;
use crate::units::units_of;
use base::FormatFault;
use class_pool::Units;
use descriptors::names::{is_class_name, is_method_name};
use name_laws::laws::written_are_read;
use name_laws::read_name;
use std::alloc::Global;

/// The most bytes of a text in a constant pool (JVM Specification SE 8, 4.4.7).
const MOST_BYTES: usize = 65535;

/// The class and the method of a name `Class.name()V` that is written so.
pub(crate) fn read_word(alloc: Global, word: &[u8]) -> Result<(Units, Units), FormatFault>
    ensures named { IfOk result (λ r. IsWordOf word.now r.0 r.1) }
    ensures bad { IfErr result (λ fault. OnBad fault ((class : List ℕ) (method : List ℕ) → ¬ IsWordOf word.now class method)) }
{
    // The law is for the proof.
    written_are_read();
    match read_name(alloc, word) {
        Ok(name) => parts_of(alloc, &name),
        Err(_) => Err(FormatFault::NoMemory),
    }
}

/// The class and the method of a name `Class.name()V`.
fn parts_of(alloc: Global, text: &[u8]) -> Result<(Units, Units), FormatFault>
    ensures named { IfOk result (λ r. IsNameOf text.now r.0 r.1) }
    ensures bad { IfErr result (λ fault. OnBad fault ((class : List ℕ) (method : List ℕ) → ¬ IsNameOf text.now class method)) }
{
    let Some((class, behind)) = cut(text, b'.') else {
        return Err(FormatFault::Bad);
    };
    let Some(method) = behind.strip_suffix(b"()V") else {
        return Err(FormatFault::Bad);
    };
    let class = read_class(alloc, class)?;
    let name = read_method(alloc, method)?;
    Ok((class, name))
}

/// The text that bytes spell, where a constant pool can hold it.
fn read_text(alloc: Global, bytes: &[u8]) -> Result<Units, FormatFault>
    ensures text { IfOk result (IsTextOf bytes.now) }
    ensures bad { IfErr result (λ fault. OnBad fault ((text : List ℕ) → ¬ IsTextOf bytes.now text)) }
{
    if bytes.len() > MOST_BYTES {
        return Err(FormatFault::Bad);
    }
    units_of(alloc, bytes)
}

/// The name of a class that bytes spell.
fn read_class(alloc: Global, bytes: &[u8]) -> Result<Units, FormatFault>
    ensures named { IfOk result (IsClassText bytes.now) }
    ensures bad { IfErr result (λ fault. OnBad fault ((name : List ℕ) → ¬ IsClassText bytes.now name)) }
{
    let name = read_text(alloc, bytes)?;
    if !is_class_name(name.as_slice()) {
        return Err(FormatFault::Bad);
    }
    Ok(name)
}

/// The name of a method that bytes spell.
fn read_method(alloc: Global, bytes: &[u8]) -> Result<Units, FormatFault>
    ensures named { IfOk result (IsMethodText bytes.now) }
    ensures bad { IfErr result (λ fault. OnBad fault ((name : List ℕ) → ¬ IsMethodText bytes.now name)) }
{
    let name = read_text(alloc, bytes)?;
    if !is_method_name(name.as_slice()) {
        return Err(FormatFault::Bad);
    }
    Ok(name)
}
