//! Kinds of lines, by their first words.
ghost use Rattle.std.specs.Prelude.{◌≡◌, ◌↔◌, IsTrue};
ghost use Rattle.priced_cert.specs.Texts.{version_line};
ghost use Rattle.priced_cert.specs.Parting.{kind_of};

/// What a line is, by its first words.
#[derive(Clone, Copy)]
pub(crate) enum LineKind {
    /// It is of a price.
    OfPrice,
    /// A section of the kind alone begins.
    OfAlone,
    /// Another section begins.
    OfSection,
    /// It is of the bound.
    OfBound,
    /// None of these.
    Other,
}

/// What a line is.
pub(crate) fn kind_of(line: &[u8]) -> LineKind
    ensures { result ≡ kind_of line.now }
{
    if line.starts_with(b"price ") {
        LineKind::OfPrice
    } else if line.starts_with(b"section alone ") {
        LineKind::OfAlone
    } else if line.starts_with(b"section ") {
        LineKind::OfSection
    } else if line.starts_with(b"bound ") {
        LineKind::OfBound
    } else {
        LineKind::Other
    }
}

/// Whether a line says version 3.
pub(crate) fn is_version(line: &[u8]) -> bool
    ensures { IsTrue result ↔ (line.now ≡ version_line) }
{
    line == b"JOPC 3".as_slice()
}
