//! The parts of a line, between its spaces.
ghost use Rattle.std.specs.Prelude.{◌≡◌, ◌==◌, ◌++◌, ◌∷◌, position, MatchOption};
ghost use Rattle.certificates.specs.Finding.{HasNoSpace, IsFirstPart};

/// The text up to its first space, and the rest.
pub(crate) fn first_part(text: &[u8]) -> (&[u8], &[u8])
    ensures { IsFirstPart text.now result.0.now result.1.now }
{
    match first_space(text) {
        Some(end) => text.split_at(end),
        None => text.split_at(text.len()),
    }
}

/// The place of the first space, if there is one.
fn first_space(text: &[u8]) -> Option<usize>
    ensures { result ≡ position (λ byte. byte == 32) text.now }
{
    text.iter().position(|byte| *byte == b' ')
}

/// What stands before the first space and behind it, if there is one.
pub(crate) fn cut(text: &[u8]) -> Option<(&[u8], &[u8])>
    ensures { MatchOption result (HasNoSpace text.now) (λ r. (text.now ≡ r.0.now ++ 32 ∷ r.1.now) × HasNoSpace r.0.now) }
{
    let (part, rest) = first_part(text);
    match rest {
        [b' ', behind @ ..] => Some((part, behind)),
        _ => None,
    }
}
