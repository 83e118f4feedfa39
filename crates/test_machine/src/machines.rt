//! Machines at reset, and cycle by cycle.

use crate::device::Keeper;
use crate::words::{bytes, parted};
use jop_core::{
    BareFault, Config, DeviceFault, Halt, Machine, Tick, can_start, can_start_bare, places,
    read_bare,
};
use microcode::entry;
use std::alloc::Global;
use std::io;
use test_rows::{RowFault, numbers};

/// Reads a bare image.
pub fn show_bare(rt: &HostRuntime, words: &[&str]) -> Result<(), RowFault> {
    match words {
        [word] => show_bare_image(rt, &bytes(rt.alloc(), word)?),
        _ => Err(RowFault::Malformed),
    }
}

/// Shows what the bytes of a bare image are read as.
fn show_bare_image(rt: &HostRuntime, image: &[u8]) -> Result<(), RowFault> {
    match read_bare(rt.alloc(), image) {
        Ok(bare) => Ok(println!(*rt;
            "{} locals, {} operands, {} bytes of code",
            bare.max_locals(),
            bare.max_stack(),
            bare.code().len()
        )?),
        Err(BareFault::Bad) => Ok(println!(*rt; "bad image")?),
        Err(BareFault::NoMemory) => Err(RowFault::NoMemory),
    }
}

/// The bytes of some words, one after another.
fn code_of(alloc: Global, parts: &[&str]) -> Result<Vec<u8>, RowFault> {
    let mut code = Vec::new(alloc);
    for part in parts {
        code.extend_from_slice(&bytes(alloc, part)?)?;
    }
    Ok(code)
}

/// The bare image of a code without locals.
fn bare_image(alloc: Global, code: &[u8]) -> Result<Vec<u8>, RowFault> {
    let count = code.len();
    let mut image = b"JOPB\x00\x01\x00\x00\x00\x04\x00\x00".to_vec(alloc)?;
    image.push((count / 256 % 256) as u8)?;
    image.push((count % 256) as u8)?;
    image.extend_from_slice(code)?;
    Ok(image)
}

/// A machine at reset over a bare image.
fn at_reset(alloc: Global, image: &[u8]) -> Result<Machine<1024>, RowFault> {
    let config = Config::default();
    match read_bare(alloc, image) {
        Ok(bare) if can_start_bare(&bare, config) => {
            Ok(Machine::<1024>::bare(alloc, &bare, config)?)
        }
        Err(BareFault::NoMemory) => Err(RowFault::NoMemory),
        _ => Err(RowFault::Malformed),
    }
}

/// Runs a bare image that has this code and no locals.
pub fn show_run(rt: &HostRuntime, words: &[&str]) -> Result<(), RowFault> {
    let (parts, clocks) = parted(words)?;
    let image = bare_image(rt.alloc(), &code_of(rt.alloc(), parts)?)?;
    let mut machine = at_reset(rt.alloc(), &image)?;
    show_clocks(rt, &mut machine, clocks)
}

/// Runs an image of words.
pub fn show_image(rt: &HostRuntime, words: &[&str]) -> Result<(), RowFault> {
    let (parts, clocks) = parted(words)?;
    let image: Vec<u32> = numbers(rt.alloc(), parts)?;
    run_image(rt, &image, clocks)
}

/// Runs an image from its reset.
fn run_image(rt: &HostRuntime, image: &[u32], clocks: &[&str]) -> Result<(), RowFault> {
    let config = Config::default();
    if !can_start(image, config) {
        return Ok(println!(*rt; "can't start")?);
    }
    let mut machine = Machine::<1024>::new(rt.alloc(), image, config)?;
    show_places(rt, &machine)?;
    show_clocks(rt, &mut machine, clocks)
}

/// Shows some of the on-chip words of a machine.
fn show_places(rt: &HostRuntime, machine: &Machine<1024>) -> io::Result<()> {
    print!(*rt;
        "places {} {} {} {} {} {} {}",
        machine.on_chip(places::POOL),
        machine.on_chip(places::METHOD),
        machine.on_chip(places::NEXT_FREE),
        machine.on_chip(places::MEMORY_END),
        machine.on_chip(places::FRAME_SUM),
        machine.on_chip(places::FRAME_LIMIT),
        machine.on_chip(places::RAISE_LIST)
    )?;
    println!(*rt;
        ", constant 3: {}, boot's first local: {}",
        machine.on_chip(places::CONSTANTS + 3),
        machine.on_chip(places::STACK)
    )
}

/// Runs a machine, and shows its registers at some clocks, which rise, and then what it put out.
fn show_clocks(
    rt: &HostRuntime,
    machine: &mut Machine<1024>,
    clocks: &[&str],
) -> Result<(), RowFault> {
    let clocks: Vec<u64> = numbers(rt.alloc(), clocks)?;
    let mut device = Keeper::new(rt.alloc());
    for clock in &clocks {
        let last = run_to(machine, &mut device, *clock);
        show_registers(rt, machine, last)?;
    }
    Ok(show_device(rt, &device)?)
}

/// Shows what a machine put out, and which of its states were seen.
fn show_device(rt: &HostRuntime, device: &Keeper) -> io::Result<()> {
    let last_byte = match device.output.last() {
        Some(byte) => *byte,
        None => 0,
    };
    let states = device.watch.held();
    let last_clock = match states.last() {
        Some(seen) => seen.clock,
        None => 0,
    };
    println!(*rt;
        "{} bytes, the last {last_byte}; {} states, the last at {last_clock}",
        device.output.len(),
        states.len()
    )
}

/// Goes on to a clock, or as far as the machine goes. The answer is that of the last cycle.
fn run_to(
    machine: &mut Machine<1024>,
    device: &mut Keeper,
    clock: u64,
) -> Result<Tick, DeviceFault> {
    for _ in 0..clock {
        if machine.clock() >= clock || machine.clock() == u64::MAX {
            return Ok(Tick::Went);
        }
        if machine.cycle(device)? == Tick::Halted {
            return Ok(Tick::Halted);
        }
    }
    Ok(Tick::Went)
}

/// The words for the answer of a cycle.
fn answer_text(last: Result<Tick, DeviceFault>) -> &'static str {
    match last {
        Ok(Tick::Went) => "went",
        Ok(Tick::Halted) => "halted",
        Err(DeviceFault::Input) => "read fault",
        Err(DeviceFault::Output) => "write fault",
        Err(DeviceFault::Seen) => "seen fault",
    }
}

/// The word for how a machine has halted.
fn halt_text(halt: Halt) -> &'static str {
    match halt {
        Halt::Running => "running",
        Halt::Ended => "ended",
        Halt::Uncaught => "uncaught",
    }
}

fn show_registers(
    rt: &HostRuntime,
    machine: &Machine<1024>,
    last: Result<Tick, DeviceFault>,
) -> io::Result<()> {
    print!(*rt;
        "{}: {}, {}, a {} b {} sp {} vp {} jpc {}",
        machine.clock(),
        answer_text(last),
        halt_text(machine.halt()),
        machine.a(),
        machine.b(),
        machine.sp(),
        machine.vp(),
        machine.jpc()
    )?;
    println!(*rt;
        " opcode {} at {} boundary {} method {} hits {} misses {}",
        machine.opcode(),
        machine.mpc().wrapping_sub(entry(machine.opcode())),
        machine.at_boundary(),
        machine.method(),
        machine.hits(),
        machine.misses()
    )
}
