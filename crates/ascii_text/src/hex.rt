//! Numbers in hexadecimal digits, lower case.
ghost use Rattle.std.specs.Prelude.{◌≡◌, ◌%◌};
ghost use Rattle.ascii_text.specs.Hex.{hex, hex_digit, short_hex};

/// The digit of a number's last four bits.
fn digit(n: u32) -> u8
    ensures { result ≡ hex_digit (n % 16) }
{
    let value = (n % 16) as u8;
    if value < 10 {
        b'0' + value
    } else {
        b'a' + (value - 10)
    }
}

/// The eight digits of a word.
pub fn hex_digits(n: u32) -> [u8; 8]
    ensures { result ≡ hex 8 n }
{
    let second = n / 16;
    let third = second / 16;
    let fourth = third / 16;
    let fifth = fourth / 16;
    let sixth = fifth / 16;
    let seventh = sixth / 16;
    let eighth = seventh / 16;
    [
        digit(eighth),
        digit(seventh),
        digit(sixth),
        digit(fifth),
        digit(fourth),
        digit(third),
        digit(second),
        digit(n),
    ]
}

/// Three of these, or all where the others aren't 0.
pub fn short_hex(n: u32, digits: &[u8; 8]) -> &[u8]
    requires { digits.now ≡ hex 8 n }
    ensures { result.now ≡ short_hex n }
{
    if n < 4096 { &digits[5..] } else { digits }
}
