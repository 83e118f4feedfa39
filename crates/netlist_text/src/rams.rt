//! Block RAMs in a text.
ghost use Rattle.std.specs.Prelude.{◌≡◌, ◌++◌, ◌-◌, OnOk, codes, decimal, length};
ghost use Rattle.netlist_text.specs.Text.{each_from, declared_text, given_word, zeros_text, first_text, ram_text, write_text, clash_text, net_text, read_text};

use crate::pieces::{put, put_behind, put_declared, put_given, put_net, put_number};
use base::NoMemory;
use netlist::BlockRam;

/// Appends a loop's head over the places of block RAM k behind its first words.
fn put_loop(out: &mut Vec<u8>, k: usize, m: &BlockRam) -> Result<(), NoMemory>
    ensures { OnOk result (out.new.items ≡ out.old.items ++ (codes "        for (k" ++ decimal k ++ codes " = "
        ++ decimal (length m.now.first) ++ codes "; k" ++ decimal k ++ codes " < " ++ decimal m.now.words)) }
{
    put_number(out, b"        for (k", k as u64)?;
    put_number(out, b" = ", m.first.as_slice().len() as u64)?;
    put_number(out, b"; k", k as u64)?;
    put_number(out, b" < ", m.words as u64)?;
    Ok(())
}

/// Appends how the loop goes on, and that a place of it is 0.
fn put_zero(out: &mut Vec<u8>, k: usize, width: u32) -> Result<(), NoMemory>
    ensures { OnOk result (out.new.items ≡ out.old.items ++ (codes "; k" ++ decimal k ++ codes " = k" ++ decimal k
        ++ codes " + 1) m" ++ decimal k ++ codes "[k" ++ decimal k ++ given_word (codes "] = ") width 0)) }
{
    put_number(out, b"; k", k as u64)?;
    put_number(out, b" = k", k as u64)?;
    put_number(out, b" + 1) m", k as u64)?;
    put_number(out, b"[k", k as u64)?;
    put_given(out, b"] = ", width as u64, 0)?;
    Ok(())
}

/// Appends that the places of block RAM k behind its first words are 0.
fn put_zeros(out: &mut Vec<u8>, k: usize, m: &BlockRam) -> Result<(), NoMemory>
    ensures { OnOk result (out.new.items ≡ out.old.items ++ zeros_text k m.now) }
{
    put_loop(out, k, m)?;
    put_zero(out, k, m.write.word.width)
}

/// Appends a first word of block RAM k.
fn put_first(
    out: &mut Vec<u8>,
    k: usize,
    width: u32,
    place: usize,
    word: u64,
) -> Result<(), NoMemory>
    ensures { OnOk result (out.new.items ≡ out.old.items ++ first_text k width place word) }
{
    put_number(out, b"        m", k as u64)?;
    put_number(out, b"[", place as u64)?;
    put_given(out, b"] = ", width as u64, word)
}

/// Appends the first words of block RAM k.
fn put_first_words(out: &mut Vec<u8>, k: usize, width: u32, first: &[u64]) -> Result<(), NoMemory>
    ensures { OnOk result (out.new.items ≡ out.old.items ++ each_from (first_text k width) 0 first.now) }
{
    for (place, word) in first.iter().enumerate() {
        put_first(out, k, width, place, *word)?;
    }
    Ok(())
}

/// Appends the array of block RAM k.
fn put_array(out: &mut Vec<u8>, k: usize, m: &BlockRam) -> Result<(), NoMemory>
    ensures { OnOk result (out.new.items ≡ out.old.items
        ++ (declared_text (codes "    reg") m.now.write.word.width (codes "m") k ++ codes " [0:"
        ++ decimal (m.now.words - 1) ++ codes "];\n")) }
{
    put_declared(out, b"    reg", m.write.word.width as u64, b"m", k)?;
    put_number(out, b" [0:", m.words.saturating_sub(1) as u64)?;
    put(out, b"];\n")
}

/// Appends the output register of block RAM k, and where its first words begin.
fn put_output(out: &mut Vec<u8>, k: usize, m: &BlockRam) -> Result<(), NoMemory>
    ensures { OnOk result (out.new.items ≡ out.old.items
        ++ (declared_text (codes "    reg") m.now.write.word.width (codes "q") k ++ codes ";\n    integer k"
        ++ decimal k ++ codes ";\n    initial begin\n")) }
{
    put_declared(out, b"    reg", m.write.word.width as u64, b"q", k)?;
    put_number(out, b";\n    integer k", k as u64)?;
    put(out, b";\n    initial begin\n")
}

/// Appends what block RAM k has at the start.
fn put_contents(out: &mut Vec<u8>, k: usize, m: &BlockRam) -> Result<(), NoMemory>
    ensures { OnOk result (out.new.items ≡ out.old.items
        ++ (zeros_text k m.now ++ each_from (first_text k m.now.write.word.width) 0 m.now.first ++ codes "    end\n")) }
{
    put_zeros(out, k, m)?;
    put_first_words(out, k, m.write.word.width, m.first.as_slice())?;
    put(out, b"    end\n")?;
    Ok(())
}

/// Appends block RAM k.
fn put_ram(out: &mut Vec<u8>, k: usize, m: &BlockRam) -> Result<(), NoMemory>
    ensures { OnOk result (out.new.items ≡ out.old.items ++ ram_text k m.now) }
{
    put_array(out, k, m)?;
    put_output(out, k, m)?;
    put_contents(out, k, m)
}

/// Appends the block RAMs.
pub fn put_rams(out: &mut Vec<u8>, memories: &[BlockRam]) -> Result<(), NoMemory>
    ensures { OnOk result (out.new.items ≡ out.old.items ++ each_from ram_text 0 memories.now) }
{
    for (k, m) in memories.iter().enumerate() {
        put_ram(out, k, m)?;
    }
    Ok(())
}

/// Appends what block RAM k writes.
fn put_write(out: &mut Vec<u8>, k: usize, m: &BlockRam) -> Result<(), NoMemory>
    ensures { OnOk result (out.new.items ≡ out.old.items ++ write_text k m.now) }
{
    put_behind(out, b"        if (", &m.write.when)?;
    put_number(out, b") m", k as u64)?;
    put_behind(out, b"[", &m.write.place)?;
    put_behind(out, b"] <= ", &m.write.word)?;
    put(out, b";\n")?;
    Ok(())
}

/// Appends what the block RAMs write.
pub fn put_writes(out: &mut Vec<u8>, memories: &[BlockRam]) -> Result<(), NoMemory>
    ensures { OnOk result (out.new.items ≡ out.old.items ++ each_from write_text 0 memories.now) }
{
    for (k, m) in memories.iter().enumerate() {
        put_write(out, k, m)?;
    }
    Ok(())
}

/// Appends whether the place that is read is written.
fn put_clash(out: &mut Vec<u8>, m: &BlockRam) -> Result<(), NoMemory>
    ensures { OnOk result (out.new.items ≡ out.old.items ++ clash_text m.now) }
{
    put_net(out, &m.write.when)?;
    put_behind(out, b" & (", &m.write.place)?;
    put_behind(out, b" == ", &m.read.place)?;
    put(out, b")")?;
    Ok(())
}

/// Appends the two words of which block RAM k gives one.
fn put_either(out: &mut Vec<u8>, k: usize, m: &BlockRam) -> Result<(), NoMemory>
    ensures { OnOk result (out.new.items ≡ out.old.items ++ (codes " ? " ++ decimal m.now.write.word.width
        ++ codes "'bx : m" ++ decimal k ++ codes "[" ++ net_text m.now.read.place ++ codes "];\n")) }
{
    put_number(out, b" ? ", m.write.word.width as u64)?;
    put_number(out, b"'bx : m", k as u64)?;
    put_behind(out, b"[", &m.read.place)?;
    put(out, b"];\n")?;
    Ok(())
}

/// Appends what block RAM k reads.
fn put_read(out: &mut Vec<u8>, k: usize, m: &BlockRam) -> Result<(), NoMemory>
    ensures { OnOk result (out.new.items ≡ out.old.items ++ read_text k m.now) }
{
    put_behind(out, b"        if (", &m.read.when)?;
    put_number(out, b") q", k as u64)?;
    put(out, b" <= ")?;
    put_clash(out, m)?;
    put_either(out, k, m)?;
    Ok(())
}

/// Appends what the block RAMs read.
pub fn put_reads(out: &mut Vec<u8>, memories: &[BlockRam]) -> Result<(), NoMemory>
    ensures { OnOk result (out.new.items ≡ out.old.items ++ each_from read_text 0 memories.now) }
{
    for (k, m) in memories.iter().enumerate() {
        put_read(out, k, m)?;
    }
    Ok(())
}
