//! What a line bounds.
ghost use Rattle.std.specs.Prelude.{◌≡◌};
ghost use Rattle.bound_texts.specs.Sources.Meaning.{is_line, name_of, number_of, subject_seen};

/// What a line bounds, by names that stand elsewhere.
#[derive(Clone, Copy)]
pub enum SubjectRef<'a> {
    /// Each loop whose header is of this line of this file.
    Line(&'a [u8], u32),
    /// The loop of this method whose header is at this place.
    Place(&'a [u8], u32),
}

/// A subject, and how often it goes round at most.
#[derive(Clone, Copy)]
pub struct Note<'a> {
    pub subject: SubjectRef<'a>,
    pub bound: u32,
}

impl<'a> SubjectRef<'a> {
    /// Whether it is a line of a file.
    pub(crate) fn is_line(self) -> bool
        ensures { result ≡ is_line (subject_seen self.entry) }
    {
        matches!(self, SubjectRef::Line(_, _))
    }

    /// The name of the file or of the method.
    pub(crate) fn name(self) -> &'a [u8]
        ensures { result.now ≡ name_of (subject_seen self.entry) }
    {
        match self {
            SubjectRef::Line(name, _) | SubjectRef::Place(name, _) => name,
        }
    }

    /// The number of the line or the place.
    pub(crate) fn number(self) -> u32
        ensures { result ≡ number_of (subject_seen self.entry) }
    {
        match self {
            SubjectRef::Line(_, number) | SubjectRef::Place(_, number) => number,
        }
    }
}
