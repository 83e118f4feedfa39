//! What a watch in memory holds after a run.
ghost use Rattle.std.specs.Prelude.{◌≡◌, length};

use jop_cli::jop;
use jop_core::{MemWatch, Seen};
use outside::{SureFiles, SureSink, SureSource};
use std::alloc::{AllocError, Global};
use std::io;
use test_rows::{RowFault, hex_bytes};

/// Of more states than this only the first and the last are shown.
const SHOWN: usize = 8;

/// Runs the last of two files, with a watch.
fn run(alloc: Global, files: Vec<Option<Vec<u8>>>, watch: &mut MemWatch)
    requires { length files.items ≡ 2 }
{
    let mut files = SureFiles::new(files);
    let mut input = SureSource::new(Vec::new(alloc));
    let mut out = SureSink::new(alloc);
    let mut err = SureSink::new(alloc);
    let outcome = jop(
        alloc,
        &["run", "b"],
        &mut files,
        &mut input,
        &mut out,
        &mut err,
        watch,
    );
    // The contract alone speaks of it.
    let _ = outcome;
}

/// The watch after a run of an image.
fn watched(alloc: Global, image: &[u8], mut watch: MemWatch) -> Result<MemWatch, AllocError> {
    let image = image.to_vec(alloc)?;
    let files = vec![in alloc; None, Some(image)]?;
    run(alloc, files, &mut watch);
    Ok(watch)
}

fn show_state(rt: &HostRuntime, state: &Seen) -> io::Result<()> {
    println!(rt;
        "  clock {} mpc {} a {} b {} sp {} vp {}",
        state.clock, state.mpc, state.a, state.b, state.sp, state.vp
    )
}

/// Prints the states that a watch holds, of many the first and the last.
fn show_states(rt: &HostRuntime, states: &[Seen]) -> io::Result<()> {
    println!(rt; "{} states", states.len())?;
    let last = states.len().saturating_sub(1);
    for (number, state) in states.iter().enumerate() {
        if states.len() <= SHOWN || number == 0 || number == last {
            show_state(rt, state)?;
        }
    }
    Ok(())
}

/// Prints what a watch holds after a run of an image: of one that finds its memory as it goes, and of one that has it.
pub fn show_watches(rt: &HostRuntime, digits: &str) -> Result<(), RowFault> {
    let image = hex_bytes(rt.alloc(), digits.as_bytes())?;
    let grown = watched(rt.alloc(), &image, MemWatch::new(rt.alloc()))?;
    show_states(rt, grown.held())?;
    let with_room = MemWatch::with_capacity(rt.alloc(), 4096).map_err(|_| AllocError)?;
    let filled = watched(rt.alloc(), &image, with_room)?;
    show_states(rt, filled.held())?;
    Ok(())
}
