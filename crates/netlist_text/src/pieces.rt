//! Numbers, nets and declarations in a text.
ghost use Rattle.std.specs.Prelude.{◌≡◌, ◌++◌, OnOk, decimal};
ghost use Rattle.netlist_text.specs.Text.{range_text, number_text, declared_text, given_word, net_text};

use ascii_text::put_u64;
use base::NoMemory;
use netlist::{Driver, Net};

/// Appends a text.
pub fn put(out: &mut Vec<u8>, text: &[u8]) -> Result<(), NoMemory>
    ensures { OnOk result (out.new.items ≡ out.old.items ++ text.now) }
{
    Ok(out.extend_from_slice(text)?)
}

/// Appends a text and a number behind it.
pub fn put_number(out: &mut Vec<u8>, text: &[u8], number: u64) -> Result<(), NoMemory>
    ensures { OnOk result (out.new.items ≡ out.old.items ++ (text.now ++ decimal number)) }
{
    out.extend_from_slice(text)?;
    put_u64(out, number)
}

/// Appends which bits there are of so many.
pub fn put_range(out: &mut Vec<u8>, width: u64) -> Result<(), NoMemory>
    ensures { OnOk result (out.new.items ≡ out.old.items ++ range_text width) }
{
    put_number(out, b" [", width.saturating_sub(1))?;
    put(out, b":0] ")
}

/// Appends a word of so many bits.
pub fn put_word(out: &mut Vec<u8>, width: u64, word: u64) -> Result<(), NoMemory>
    ensures { OnOk result (out.new.items ≡ out.old.items ++ number_text width word) }
{
    put_u64(out, width)?;
    put_number(out, b"'d", word)
}

/// Appends the end of a line that gives a word to what stands before it.
pub fn put_given(out: &mut Vec<u8>, before: &[u8], width: u64, word: u64) -> Result<(), NoMemory>
    ensures { OnOk result (out.new.items ≡ out.old.items ++ given_word before.now width word) }
{
    put(out, before)?;
    put_word(out, width, word)?;
    put(out, b";\n")
}

/// Appends what is declared: its kind, its bits, its letter and its number.
pub fn put_declared(
    out: &mut Vec<u8>,
    kind: &[u8],
    width: u64,
    letter: &[u8],
    k: usize,
) -> Result<(), NoMemory>
    ensures { OnOk result (out.new.items ≡ out.old.items ++ declared_text kind.now width letter.now k) }
{
    put(out, kind)?;
    put_range(out, width)?;
    put_number(out, letter, k as u64)
}

/// Appends a net.
pub fn put_net(out: &mut Vec<u8>, net: &Net) -> Result<(), NoMemory>
    ensures { OnOk result (out.new.items ≡ out.old.items ++ net_text net.now) }
{
    match net.driver {
        Driver::Constant(word) => put_word(out, net.width as u64, word),
        Driver::Input(k) => put_number(out, b"i", k as u64),
        Driver::Register(k) => put_number(out, b"r", k as u64),
        Driver::ReadOut(k) => put_number(out, b"q", k as u64),
        Driver::Wire(k) => put_number(out, b"w", k as u64),
    }
}

/// Appends a text and a net behind it.
pub fn put_behind(out: &mut Vec<u8>, text: &[u8], net: &Net) -> Result<(), NoMemory>
    ensures { OnOk result (out.new.items ≡ out.old.items ++ (text.now ++ net_text net.now)) }
{
    put(out, text)?;
    put_net(out, net)
}
