//! A machine on its way from boundary to boundary, and what it is compared with.

use crate::device::Keeper;
use crate::frames::{Layout, agrees, is_word};
use jop_core::{Config, Halt, Machine, Tick, can_start, places};
use microcode::RAISE;
use std::alloc::Global;
use test_rows::{RowFault, numbers};

/// More cycles than there are from one boundary to the next.
const CYCLES: u32 = 10_000;

/// A machine on its way, and how it has compared.
#[derive(Drop)]
pub struct Course {
    name: String,
    machine: Machine<1024>,
    device: Keeper,
    layout: Layout,
    // How many boundaries there were, and at how many of them the machine stood otherwise.
    boundaries: u32,
    different: u32,
}

/// The default settings, but for the words of memory.
fn config_of(memory: u32) -> Option<Config> {
    if !(16..=16_777_216).contains(&memory) {
        return None;
    }
    let usual = Config::default();
    Some(Config {
        memory,
        read: usual.read,
        write: usual.write,
        blocks: usual.blocks,
        block_words: usual.block_words,
    })
}

/// A machine at reset over an image, in a memory of so many words.
fn at_reset(alloc: Global, image: &[u32], memory: u32) -> Result<Machine<1024>, RowFault> {
    match config_of(memory) {
        Some(config) if can_start(image, config) => {
            Ok(Machine::<1024>::new(alloc, image, config)?)
        }
        _ => Err(RowFault::Malformed),
    }
}

/// Runs a machine to its next boundary.
fn go_on(machine: &mut Machine<1024>, device: &mut Keeper) {
    for _ in 0..CYCLES {
        if machine.clock() == u64::MAX {
            return;
        }
        let Ok(Tick::Went) = machine.cycle(device) else {
            return;
        };
        if machine.at_boundary() {
            return;
        }
    }
}

/// Whether these are all bytes that a device was given.
fn has_put(device: &Keeper, bytes: &[u32]) -> bool {
    for (byte, number) in device.output.iter().zip(bytes) {
        if u32::from(*byte) != *number {
            return false;
        }
    }
    device.output.len() == bytes.len()
}

/// Whether an on-chip word is the only one that is written.
fn is_only(word: u32, written: &[&str]) -> bool {
    match written {
        [text] => is_word(word, text),
        _ => false,
    }
}

/// Whether a machine stands before an instruction, with the frames that are written.
fn stands_at(
    alloc: Global,
    machine: &Machine<1024>,
    layout: &Layout,
    written: &[&str],
) -> Result<bool, RowFault> {
    let is_before = machine.halt() == Halt::Running && machine.mpc() != RAISE;
    Ok(is_before && agrees(alloc, machine, layout, written)?)
}

/// Whether a machine is about to look for a handler of the object at the place that is written.
fn is_raising(machine: &Machine<1024>, written: &[&str]) -> bool {
    machine.halt() == Halt::Running
        && machine.mpc() == RAISE
        && is_only(machine.on_chip(places::RAISED), written)
}

impl Course {
    /// A machine at reset over an image, in a memory of so many words. Method 0 is that of boot.
    pub fn new(
        alloc: Global,
        name: &str,
        memory: &str,
        image: &[&str],
    ) -> Result<Course, RowFault> {
        let memory = memory.parse::<u32>()?;
        let name = name.to_string(alloc)?;
        let layout = Layout::new(alloc, image)?;
        let machine = at_reset(alloc, &layout.image, memory)?;
        Ok(Course {
            name,
            machine,
            device: Keeper::without_input(alloc),
            layout,
            boundaries: 0,
            different: 0,
        })
    }

    /// The places of the records of the methods, by number.
    pub fn set_methods(&mut self, alloc: Global, places: &[&str]) -> Result<(), RowFault> {
        self.layout.methods = numbers(alloc, places)?;
        Ok(())
    }

    /// Counts a comparison, and says where it fails.
    fn compare(&mut self, rt: &HostRuntime, same: bool) -> Result<(), RowFault> {
        if !same {
            println!(*rt; "{} boundary {} differs", self.name, self.boundaries)?;
            self.different = self.different.wrapping_add(1);
        }
        Ok(())
    }

    /// Counts a boundary, and runs to the next one.
    fn pass(&mut self) {
        self.boundaries = self.boundaries.wrapping_add(1);
        go_on(&mut self.machine, &mut self.device);
    }

    /// Compares the frames at a boundary, and goes on.
    pub fn compare_frames(&mut self, rt: &HostRuntime, written: &[&str]) -> Result<(), RowFault> {
        let same = stands_at(rt.alloc(), &self.machine, &self.layout, written)?;
        self.compare(rt, same)?;
        self.pass();
        Ok(())
    }

    /// Compares the object that is raised at a boundary, and goes on.
    pub fn compare_raised(&mut self, rt: &HostRuntime, written: &[&str]) -> Result<(), RowFault> {
        let same = is_raising(&self.machine, written);
        self.compare(rt, same)?;
        self.pass();
        Ok(())
    }

    /// Compares the place where the next object would be made.
    pub fn compare_free(&mut self, rt: &HostRuntime, written: &[&str]) -> Result<(), RowFault> {
        let same = is_only(self.machine.on_chip(places::NEXT_FREE), written);
        self.compare(rt, same)
    }

    /// Says whether the machine has ended, having put these bytes out, and how it compared.
    pub fn show_end(&self, rt: &HostRuntime, bytes: &[&str]) -> Result<(), RowFault> {
        let bytes: Vec<u32> = numbers(rt.alloc(), bytes)?;
        let ended = self.machine.halt() == Halt::Ended && has_put(&self.device, &bytes);
        let how = if ended { "ended" } else { "didn't end so" };
        println!(*rt;
            "{} boundaries={} different={} {how}",
            self.name, self.boundaries, self.different
        )?;
        Ok(())
    }
}
