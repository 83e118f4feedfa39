//! A certificate that is checked, and a run of the same image.
ghost use Rattle.std.specs.Prelude.{◌≡◌, ◌<◌, ◌^◌, length, map, IfOk};
ghost use Rattle.command_line.specs.Command.{texts};
ghost use Rattle.outside.specs.Memory.{bytes_or_empty};
ghost use Rattle.test_commands.specs.Checked.{Came, AreKept, CheckedCallsAreKept, check_words, check_files, run_words, run_files};

use crate::row::files_of;
use endings::outcome::Outcome;
use jop_cli::jop;
use jop_cli::laws::{bounds_are_kept, bounds_hold_in_runs, runs_are_the_bytecodes};
use jop_core::NoWatch;
use outside::{SureFiles, SureSink, SureSource};
use std::alloc::{AllocError, Global};
use test_rows::RowFault;

/// What came of the two calls.
#[derive(Drop)]
pub struct Outcomes {
    pub check: Outcome,
    pub run: Outcome,
}

/// What comes of a call of these words over files that never fail.
fn come(alloc: Global, words: &[&str], contents: Vec<Option<Vec<u8>>>) -> Outcome
    requires words { length words.now ≡ length contents.items }
    requires few { length words.now < 2 ^ 32 }
    ensures { Came (texts words.now) (map bytes_or_empty contents.items) result }
{
    let mut files = SureFiles::new(contents);
    let mut input = SureSource::new(Vec::new(alloc));
    let mut out = SureSink::new(alloc);
    let mut err = SureSink::new(alloc);
    jop(
        alloc,
        words,
        &mut files,
        &mut input,
        &mut out,
        &mut err,
        &mut NoWatch,
    )
}

/// What comes of `check` of these three files.
fn checked(
    alloc: Global,
    image: &[u8],
    bounds: &[u8],
    certificate: &[u8],
) -> Result<Outcome, AllocError>
    ensures { IfOk result (λ outcome. Came check_words (check_files image.now bounds.now certificate.now) outcome) }
{
    let image = Some(image.to_vec(alloc)?);
    let bounds = Some(bounds.to_vec(alloc)?);
    let certificate = Some(certificate.to_vec(alloc)?);
    let files = vec![in alloc; None, image, bounds, certificate]?;
    Ok(come(alloc, &["check", "m", "b", "c"], files))
}

/// What comes of `run` of this file.
fn ran(alloc: Global, image: &[u8]) -> Result<Outcome, AllocError>
    ensures { IfOk result (λ outcome. Came run_words (run_files image.now) outcome) }
{
    let files = vec![in alloc; None, Some(image.to_vec(alloc)?)]?;
    Ok(come(alloc, &["run", "m"], files))
}

/// Where `check` holds and a run is over, the activations of the certificate's method in the run keep its bound.
fn checked_calls_are_kept()
    ensures { CheckedCallsAreKept }
{
    bounds_are_kept();
    bounds_hold_in_runs();
    runs_are_the_bytecodes();
}

/// Checks a certificate against an image and a text of bounds, and runs the image, both with the usual settings. Where the
/// certificate holds and the run is over, the activations of its method in the run keep its bound.
pub fn check_and_run(
    alloc: Global,
    image: &[u8],
    bounds: &[u8],
    certificate: &[u8],
) -> Result<Outcomes, AllocError>
    ensures { IfOk result (λ r. AreKept image.now bounds.now certificate.now r.check r.run) }
{
    checked_calls_are_kept();
    Ok(Outcomes {
        check: checked(alloc, image, bounds, certificate)?,
        run: ran(alloc, image)?,
    })
}

/// Prints the statuses of `check` and of `run` of the files of a row: an image, a text of bounds and a certificate.
pub fn show_checked(rt: &HostRuntime, row: &str, last: &[u8]) -> Result<(), RowFault> {
    let files = files_of(rt.alloc(), row, last)?;
    match files.as_slice() {
        [Some(image), Some(bounds), Some(certificate)] => {
            let came = check_and_run(rt.alloc(), image, bounds, certificate)?;
            println!(*rt;
                "check -> {}, run -> {}",
                came.check.status(),
                came.run.status()
            )?;
            Ok(())
        }
        _ => Err(RowFault::Malformed),
    }
}
