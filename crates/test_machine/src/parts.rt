//! The on-chip words, the memory behind its port and the method cache.

use machine_memory::stack::StackCache;
use machine_memory::timing::{Config, Memory};
use method_cache::MethodCache;
use std::io;
use test_rows::RowFault;

/// Writes a word into the on-chip words.
pub fn show_stack(rt: &HostRuntime, words: &[&str]) -> Result<(), RowFault> {
    let [place, word] = words else {
        return Err(RowFault::Malformed);
    };
    let place = place.parse::<u32>()?;
    let word = word.parse::<u32>()?;
    if place >= 1024 {
        return Err(RowFault::Malformed);
    }
    let mut stack: StackCache<1024> = StackCache::new(rt.alloc())?;
    stack.write(place, word);
    Ok(show_ends(rt, &stack)?)
}

/// Shows on-chip words at both ends.
fn show_ends(rt: &HostRuntime, stack: &StackCache<1024>) -> io::Result<()> {
    println!(*rt;
        "0: {}, 1022: {}, 1023: {}, limit {}",
        stack.read(0),
        stack.read(1022),
        stack.read(1023),
        stack.limit()
    )
}

/// The cycles of `stmra`, `wait` and `ldmrd`: one, those until the port is ready, and one more.
fn cycles_of_a_read(memory: &mut Memory, place: u32) -> Option<u32> {
    memory.start_read(place);
    for waited in 1..100 {
        memory.tick();
        if memory.ready() {
            return Some(1 + waited + 1);
        }
    }
    None
}

/// Reads a place of four words.
pub fn show_read(rt: &HostRuntime, words: &[&str]) -> Result<(), RowFault> {
    let [wait, place] = words else {
        return Err(RowFault::Malformed);
    };
    let wait = wait.parse::<u32>()?;
    let place = place.parse::<u32>()?;
    if wait > 63 {
        return Err(RowFault::Malformed);
    }
    let mut memory = Memory::with_image(rt.alloc(), &[5, 6, 7, 8], 4, wait, 0)?;
    show_cycles(rt, &mut memory, place)
}

/// Reads a place, and shows how many cycles that takes, and the word there.
fn show_cycles(rt: &HostRuntime, memory: &mut Memory, place: u32) -> Result<(), RowFault> {
    match cycles_of_a_read(memory, place) {
        Some(cycles) => Ok(println!(*rt; "{cycles} cycles, {}", memory.value())?),
        None => Err(RowFault::Malformed),
    }
}

/// Writes and reads past the end of four words.
pub fn show_past(rt: &HostRuntime) -> Result<(), RowFault> {
    let mut memory = Memory::new(rt.alloc(), 4, 3, 2)?;
    memory.start_write(4, 9);
    memory.set(0, 1);
    memory.start_read(4);
    println!(*rt;
        "value {}, {} words, 0: {}",
        memory.value(),
        memory.word_count(),
        memory.peek(0)
    )?;
    Ok(())
}

/// Shows the settings that nobody chose.
pub fn show_settings(rt: &HostRuntime) -> Result<(), RowFault> {
    let config = Config::default();
    println!(*rt;
        "memory {}, read {}, write {}, {} blocks of {}",
        config.memory, config.read, config.write, config.blocks, config.block_words
    )?;
    Ok(())
}

/// Loads a method where the cache doesn't hold it, as the machine does. Its words are its place and the next.
fn fetch(cache: &mut MethodCache, m: u32, count: u32) {
    let words = [m, m.wrapping_add(1)];
    if count <= 2 && !cache.select(m) && cache.can_load(count) {
        cache.load(m, &words[..count as usize]);
    }
}

/// Fetches methods into a method cache, and shows what each block holds and the words of the last method.
pub fn show_methods(rt: &HostRuntime, words: &[&str]) -> Result<(), RowFault> {
    let [blocks, block_words, methods @ ..] = words else {
        return Err(RowFault::Malformed);
    };
    let blocks = blocks.parse::<u32>()?;
    let block_words = block_words.parse::<u32>()?;
    if blocks == 0 || blocks > 256 || block_words == 0 || block_words > 1024 {
        return Err(RowFault::Malformed);
    }
    let mut cache = MethodCache::new(rt.alloc(), blocks, block_words)?;
    for method in methods {
        show_fetch(rt, &mut cache, method)?;
    }
    Ok(())
}

/// Fetches a method of so many words, such as `7:2`.
fn show_fetch(rt: &HostRuntime, cache: &mut MethodCache, method: &str) -> Result<(), RowFault> {
    let Some((m, count)) = method.split_once(':') else {
        return Err(RowFault::Malformed);
    };
    let m = m.parse::<u32>()?;
    fetch(cache, m, count.parse::<u32>()?);
    show_blocks(rt, cache)?;
    Ok(show_words(rt, cache, m)?)
}

/// Shows the block that is filled next, and the first words of a method.
fn show_words(rt: &HostRuntime, cache: &MethodCache, m: u32) -> io::Result<()> {
    println!(*rt;
        " next {}, holds {}: {} {} {}",
        cache.next(),
        cache.look(m),
        cache.word(m, 0),
        cache.word(m, 1),
        cache.word(m, 2)
    )
}

fn show_blocks(rt: &HostRuntime, cache: &MethodCache) -> io::Result<()> {
    for block in 0..cache.blocks() {
        match cache.tag(block) {
            Some(m) => print!(*rt; "{m} ")?,
            None => print!(*rt; "- ")?,
        }
    }
    Ok(())
}
