//! Texts of bytes among 16-bit units.

ghost use Rattle.std.specs.Prelude.{◌≡◌, bytes_eq};

/// Whether the 16-bit units are the characters of this ASCII text.
pub fn is_text(units: &[u16], text: &[u8]) -> bool
    ensures { result ≡ bytes_eq units.now text.now }
{
    if units.len() != text.len() {
        return false;
    }
    for (i, unit) in units.iter().enumerate() {
        if *unit != u16::from(text[i]) {
            return false;
        }
    }
    true
}
