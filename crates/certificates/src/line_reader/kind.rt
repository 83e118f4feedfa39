//! The words in a line.
ghost use Rattle.std.specs.Prelude.{decimal};
ghost use Rattle.certificates.specs.Finding.{Finds};
ghost use Rattle.certificates.specs.CertLines.{kind_text, bound_text, IsBoundValue, IsVersion};

use crate::SectionKind;
use crate::line_reader::number::{method, number};

/// The kind of section that the text is, if it is one.
pub(crate) fn kind(text: &[u8]) -> Option<SectionKind>
    ensures { Finds kind_text (λ _. Unit {0}) text.now result }
{
    match text {
        b"inside" => Some(SectionKind::Inside),
        b"alone" => Some(SectionKind::Alone),
        b"loops" => Some(SectionKind::Loops),
        _ => None,
    }
}

/// The version that the text is, if it is one.
pub(crate) fn version(text: &[u8]) -> Option<u32>
    ensures { Finds decimal IsVersion text.now result }
{
    let number = method(text)?;
    if number == 1 {
        return Some(1);
    }
    if number == 2 {
        return Some(2);
    }
    None
}

/// The bound that the text is, if it is one.
pub(crate) fn bound(text: &[u8]) -> Option<Option<u64>>
    ensures { Finds bound_text IsBoundValue text.now result }
{
    match text {
        b"never" => Some(None),
        _ => Some(Some(number(text)?)),
    }
}
