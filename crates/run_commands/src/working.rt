//! Making a program of any size, linking it, running it, and bounding its main method.
ghost use Rattle.std.specs.Prelude.{◌≡◌, ◌≤◌, [], ℕ, List, Option, IfOk, IfErr};
ghost use Rattle.class_pool.specs.ClassSpelling.{class_bytes};
ghost use Rattle.device_traits.specs.declared.seen.Seen.{Seen};
ghost use Rattle.work_gen.specs.Work.{class_name, work, bounds_text};
ghost use Rattle.analysis_commands.specs.Analysis.{EachFits};
ghost use Rattle.endings.specs.World.{world};
ghost use Rattle.endings.specs.Leaving.{Leaves};
ghost use Rattle.endings.specs.Linking.{LinkFault};
ghost use Rattle.run_commands.specs.Working.{work_files, IsWork, Returned, StopsAs, IsMainBound, ForbidsAs, IsWorkLine, NotWorked, Works};
ghost use Rattle.endings.specs.Settings.{usual_settings};

use crate::linked_file::run_program;
use analysis_commands::{NotBounded, bound_number};
use answer_lines::{AnalysisFault, Cause, Counts, work_line};
use endings::linking::not_linked;
use endings::outcome::Ending;
use endings::settings::usual_settings;
use endings::show::Show;
use jop_core::NoWatch;
use jopizer::{Linked, link};
use outside::{MemSink, Sink, put_all};
use run_devices::NoSource;
use std::alloc::Global;
use work_gen::laws::bounds_are_read;
use work_gen::{work_bounds, work_file};

/// What the file of the class is linked to.
fn linked_file(alloc: Global, n: u32, file: Vec<u8>) -> Result<Linked, Ending>
    requires { file.items ≡ class_bytes (work n) }
    ensures linked { IfOk result (IsWork n) }
    ensures fault { IfErr result (LinkFault (work_files n) class_name) }
{
    let files = [file];
    match link(alloc, &files, b"W") {
        Ok(linked) => Ok(linked),
        Err(refusal) => Err(not_linked(alloc, &files, refusal)),
    }
}

/// What the class with this number of methods is linked to.
fn linked_work(alloc: Global, n: u32) -> Result<Linked, Ending>
    requires some { 1 ≤ n }
    requires few { n ≤ 1000 }
    ensures linked { IfOk result (IsWork n) }
    ensures fault { IfErr result (LinkFault (work_files n) class_name) }
{
    match work_file(alloc, n) {
        Ok(file) => linked_file(alloc, n, file),
        Err(_) => Err(Ending::NoMemory),
    }
}

/// Runs what was linked, with nothing to read, and gives its counts where it returns. The output is held in memory.
fn run_work(alloc: Global, linked: &Linked, output: &mut MemSink) -> Result<Counts, Ending>
    requires empty { output.old.held ≡ [] }
    requires unfailed { output.old.faults ≡ 0 }
    ensures returned { IfOk result (Returned linked.now output.new.held) }
    ensures stops { IfErr result (StopsAs linked.now) }
{
    let settings = usual_settings();
    match run_program(
        alloc,
        linked,
        &settings,
        Show::Output,
        &mut NoSource,
        output,
        &mut NoWatch,
    ) {
        Ending::Ended(counts) => Ok(counts),
        // The output finds no room.
        Ending::WriteFault => Err(Ending::NoMemory),
        Ending::InputFault => unreachable!(),
        stopped => Err(stopped),
    }
}

/// The bound of main by the text of the bounds of the class's loops.
fn main_bound(alloc: Global, linked: &Linked, n: u32, bounds: &[u8]) -> Result<Option<u64>, Ending>
    requires few { n ≤ 1000 }
    requires codes { EachFits usual_settings linked.now.classes }
    requires bounds { bounds.now ≡ bounds_text n }
    ensures bound { IfOk result (IsMainBound n linked.now.classes) }
    ensures forbids { IfErr result (ForbidsAs n linked.now.classes) }
{
    // The laws are for the proof.
    bounds_are_read();
    bound_laws::soundness::certificates_are_sound();
    let settings = usual_settings();
    let name = b"W.main([Ljava/lang/String;)V";
    match bound_number(alloc, linked.program(), &settings, name, bounds) {
        Ok(bound) => Ok(bound),
        Err(NotBounded::Forbidden(cause, subject)) => {
            Err(Ending::NotAnswered(Cause::Bound(cause), subject))
        }
        Err(NotBounded::NoMemory) => Err(Ending::NoMemory),
        Err(NotBounded::NoAnalysis(fault)) => match fault {
            AnalysisFault::NoMemory => Err(Ending::NoMemory),
            // The codes fit, since they were run, and the text is one of bounds.
            _ => unreachable!(),
        },
    }
}

/// The bound of main.
fn bound_main(alloc: Global, linked: &Linked, n: u32) -> Result<Option<u64>, Ending>
    requires some { 1 ≤ n }
    requires few { n ≤ 1000 }
    requires codes { EachFits usual_settings linked.now.classes }
    ensures bound { IfOk result (IsMainBound n linked.now.classes) }
    ensures forbids { IfErr result (ForbidsAs n linked.now.classes) }
{
    match work_bounds(alloc, n) {
        Ok(bounds) => main_bound(alloc, linked, n, &bounds),
        Err(_) => Err(Ending::NoMemory),
    }
}

/// The line, where the run of what was linked returned, with these counts, and put these bytes out.
fn returned_line(
    alloc: Global,
    linked: &Linked,
    n: u32,
    output: &[u8],
    counts: Counts,
) -> Result<Vec<u8>, Ending>
    requires some { 1 ≤ n }
    requires few { n ≤ 1000 }
    requires work { IsWork n linked.now }
    requires returned { Returned linked.now output.now counts }
    ensures line { IfOk result (λ line. IsWorkLine n line.items) }
    ensures fault { IfErr result (NotWorked n) }
{
    let bound = match bound_main(alloc, linked, n) {
        Ok(bound) => bound,
        Err(ending) => return Err(ending),
    };
    match work_line(alloc, n, output, counts, bound) {
        Ok(line) => Ok(line),
        Err(_) => Err(Ending::NoMemory),
    }
}

/// The line, where the class is linked.
fn linked_line(alloc: Global, linked: &Linked, n: u32) -> Result<Vec<u8>, Ending>
    requires some { 1 ≤ n }
    requires few { n ≤ 1000 }
    requires work { IsWork n linked.now }
    ensures line { IfOk result (λ line. IsWorkLine n line.items) }
    ensures fault { IfErr result (NotWorked n) }
{
    let mut output = MemSink::new(alloc, Vec::new(alloc));
    match run_work(alloc, linked, &mut output) {
        Ok(counts) => returned_line(alloc, linked, n, output.held(), counts),
        Err(ending) => Err(ending),
    }
}

/// The line that says what came of the class with this number of methods.
fn line_of(alloc: Global, n: u32) -> Result<Vec<u8>, Ending>
    requires some { 1 ≤ n }
    requires few { n ≤ 1000 }
    ensures line { IfOk result (λ line. IsWorkLine n line.items) }
    ensures fault { IfErr result (NotWorked n) }
{
    match linked_work(alloc, n) {
        Ok(linked) => {
            let line = linked_line(alloc, &linked, n);
            // By a call: what its parts' destructors do is proved there.
            drop(linked);
            line
        }
        Err(ending) => Err(ending),
    }
}

/// Puts the line that says what came of the class with this number of methods: it is linked, run with the usual settings and nothing to
/// read, and its main method is bounded. Nothing is put before the whole line stands.
pub fn work<O: Sink>(alloc: Global, n: u32, out: &mut O) -> Ending
    requires some { 1 ≤ n }
    requires few { n ≤ 1000 }
    ensures works { (words : ℕ) (files : ℕ → Option (List ℕ)) (file_faults : ℕ → ℕ) (left : Option (List ℕ)) (read_faults : ℕ) (watch : Option (List Seen))
        → Works n
        (world words files file_faults left read_faults (O.held out.old) (O.faults out.old) watch)
        (world words files file_faults left read_faults (O.held out.new) (O.faults out.new) watch) result }
    ensures leaves { Leaves result → out.new ≡ out.old }
{
    let line = match line_of(alloc, n) {
        Ok(line) => line,
        Err(ending) => return ending,
    };
    match put_all(out, &line) {
        Ok(()) => Ending::Written,
        Err(_) => Ending::WriteFault,
    }
}
