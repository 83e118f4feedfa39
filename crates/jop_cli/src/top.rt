//! The top call.
ghost use Rattle.std.specs.Prelude.{◌≡◌, ◌<◌, ◌^◌, ℕ, List, [], length, Some, true, false};
ghost use Rattle.run_devices.specs.Lent.{lent};
ghost use Rattle.command_line.specs.Command.{texts};
ghost use Rattle.command_line.specs.Range.{AreSettings};
ghost use Rattle.endings.specs.Phase.{is_linked};
ghost use Rattle.run_commands.specs.BareFile.{RunsBareBytes};
ghost use Rattle.run_commands.specs.LinkedFile.{RunsLinkedBytes};
ghost use Rattle.endings.specs.World.{world};
ghost use Rattle.endings.specs.Show.{IsTrace};
ghost use Rattle.endings.specs.Leaving.{Leaves, LeavesAll, FailsRisen};
ghost use Rattle.jop_cli.specs.Tasks.{IsAmong};
ghost use Rattle.jop_cli.specs.Answer.{ReadsLinked, RunsFile, DoesTask, ShowsOutput, TakesFor, TakesInput, RunsProgram, Executed, Answered, SaidEnding};
ghost use Rattle.jop_cli.specs.Answer.{refusal_of, outcome_of, outcome_unsaid};

use crate::task::{Task, task_of};
use answer_lines::Cause;
use ask_commands::asking::ask_files;
use ask_commands::assembling::assemble_file;
use ask_commands::priced_files::ask_files_with;
use command_line::{Settings, read_words};
use endings::image::{Image, open_image};
use endings::lines::say_ending;
use endings::linking::link_files;
use endings::load::load;
use endings::outcome::{Ending, Outcome, Refusal};
use endings::show::Show;
use jop_core::Watch;
use outside::{Files, Sink, Source};
use run_commands::bare_file::run_fitting;
use run_commands::cycling::cycle_files;
use run_commands::linked_file::run_program;
use run_commands::profiling::profile_files;
use run_commands::working::work;
use slot_plans::plan_files;
use std::alloc::Global;

/// Runs the image that the bytes are.
fn run_bytes<S: Source, O: Sink, V: Watch>(
    alloc: Global,
    bytes: &[u8],
    settings: &Settings,
    show: Show,
    input: &mut S,
    out: &mut O,
    watch: &mut V,
) -> Ending
    requires { AreSettings settings.now }
    ensures bare { is_linked bytes.now ≡ false → RunsBareBytes settings.now show bytes.now
        (lent (Some []) 0 (O.held out.old) (O.faults out.old) (V.held watch.old))
        (lent (Some []) 0 (O.held out.new) (O.faults out.new) (V.held watch.new)) result }
    ensures linked { is_linked bytes.now ≡ true → RunsLinkedBytes settings.now show bytes.now
        (lent (S.left input.old) (S.faults input.old) (O.held out.old) (O.faults out.old) (V.held watch.old))
        (lent (S.left input.new) (S.faults input.new) (O.held out.new) (O.faults out.new) (V.held watch.new)) result }
    ensures leaves { Leaves result → (input.new ≡ input.old) × (out.new ≡ out.old) × (watch.new ≡ watch.old) }
    ensures watch { IsTrace show → watch.new ≡ watch.old }
    ensures input { is_linked bytes.now ≡ false → input.new ≡ input.old }
    ensures rose { FailsRisen result (S.faults input.old) (S.faults input.new) }
{
    match open_image(alloc, bytes) {
        Ok(Image::Linked(linked)) => {
            let ending = run_program(alloc, &linked, settings, show, input, out, watch);
            // By a call: what its parts' destructors do is proved there.
            drop(linked);
            ending
        }
        Ok(Image::Bare(bare)) => run_fitting(alloc, &bare, settings, show, out, watch),
        Err(ending) => ending,
    }
}

/// Runs the image of a word.
fn run_file<F: Files, S: Source, O: Sink, V: Watch>(
    alloc: Global,
    settings: &Settings,
    show: Show,
    word: u32,
    files: &mut F,
    input: &mut S,
    out: &mut O,
    watch: &mut V,
) -> Ending
    requires settings { AreSettings settings.now }
    requires there { word < F.words files.old }
    ensures runs { RunsFile settings.now show word
        (world (F.words files.old) (F.told files.old) (F.faults files.old) (S.left input.old) (S.faults input.old) (O.held out.old) (O.faults out.old)
        (V.held watch.old))
        (world (F.words files.new) (F.told files.new) (F.faults files.new) (S.left input.new) (S.faults input.new) (O.held out.new) (O.faults out.new)
        (V.held watch.new)) result }
    ensures leaves { Leaves result → (input.new ≡ input.old) × (out.new ≡ out.old) × (watch.new ≡ watch.old) }
    ensures watch { IsTrace show → watch.new ≡ watch.old }
    ensures input { ((bytes : List ℕ) → ReadsLinked word bytes
        (world (F.words files.old) (F.told files.old) (F.faults files.old) (S.left input.old) (S.faults input.old) (O.held out.old) (O.faults out.old)
        (V.held watch.old))
        (world (F.words files.new) (F.told files.new) (F.faults files.new) (S.left input.new) (S.faults input.new) (O.held out.new) (O.faults out.new)
        (V.held watch.new)) → ⊥) → input.new ≡ input.old }
    ensures rose { FailsRisen result (S.faults input.old) (S.faults input.new) }
{
    match load(alloc, files, word) {
        Ok(bytes) => run_bytes(alloc, &bytes, settings, show, input, out, watch),
        Err(ending) => ending,
    }
}

/// Does what a command does, but for its line.
fn perform<F: Files, S: Source, O: Sink, V: Watch>(
    alloc: Global,
    words: &[&str],
    task: Task,
    files: &mut F,
    input: &mut S,
    out: &mut O,
    watch: &mut V,
) -> Ending
    requires words { length words.now ≡ F.words files.old }
    requires few { length words.now < 2 ^ 32 }
    requires among { IsAmong (length words.now) task }
    ensures does { DoesTask (texts words.now) task
        (world (F.words files.old) (F.told files.old) (F.faults files.old) (S.left input.old) (S.faults input.old) (O.held out.old) (O.faults out.old)
        (V.held watch.old))
        (world (F.words files.new) (F.told files.new) (F.faults files.new) (S.left input.new) (S.faults input.new) (O.held out.new) (O.faults out.new)
        (V.held watch.new)) result }
    ensures leaves { Leaves result → (input.new ≡ input.old) × (out.new ≡ out.old) × (watch.new ≡ watch.old) }
    ensures watch { (ShowsOutput task → ⊥) → watch.new ≡ watch.old }
    ensures input { (TakesFor task
        (world (F.words files.old) (F.told files.old) (F.faults files.old) (S.left input.old) (S.faults input.old) (O.held out.old) (O.faults out.old)
        (V.held watch.old))
        (world (F.words files.new) (F.told files.new) (F.faults files.new) (S.left input.new) (S.faults input.new) (O.held out.new) (O.faults out.new)
        (V.held watch.new)) → ⊥) → input.new ≡ input.old }
    ensures rose { FailsRisen result (S.faults input.old) (S.faults input.new) }
{
    match task {
        Task::Run {
            settings,
            show,
            image,
        } => run_file(alloc, &settings, show, image, files, input, out, watch),
        Task::Profile { settings, image } => {
            profile_files(alloc, &settings, image, files, input, out)
        }
        Task::Plan {
            settings,
            rounds,
            table,
        } => plan_files(alloc, &settings, rounds, table, files, out),
        Task::Cycle {
            settings,
            rounds,
            table,
        } => cycle_files(alloc, &settings, rounds, table, files, input, out),
        Task::Assemble { text } => assemble_file(alloc, text, files, out),
        Task::Link { main, first } => link_files(alloc, words, main, first, files, out),
        Task::Ask(asked) => ask_files(alloc, words, &asked, files, out),
        Task::AskWith(asked) => ask_files_with(alloc, words, &asked, files, out),
        Task::Work { count } => work(alloc, count, out),
    }
}

/// Does the command of the words, but for its line.
fn execute<F: Files, S: Source, O: Sink, V: Watch>(
    alloc: Global,
    words: &[&str],
    files: &mut F,
    input: &mut S,
    out: &mut O,
    watch: &mut V,
) -> Ending
    requires words { length words.now ≡ F.words files.old }
    requires few { length words.now < 2 ^ 32 }
    ensures executed { Executed (texts words.now)
        (world (F.words files.old) (F.told files.old) (F.faults files.old) (S.left input.old) (S.faults input.old) (O.held out.old) (O.faults out.old)
        (V.held watch.old))
        (world (F.words files.new) (F.told files.new) (F.faults files.new) (S.left input.new) (S.faults input.new) (O.held out.new) (O.faults out.new)
        (V.held watch.new)) result }
    ensures leaves { Leaves result → (input.new ≡ input.old) × (out.new ≡ out.old) × (watch.new ≡ watch.old) }
    ensures watch { (RunsProgram (texts words.now) → ⊥) → watch.new ≡ watch.old }
    ensures input { (TakesInput (texts words.now)
        (world (F.words files.old) (F.told files.old) (F.faults files.old) (S.left input.old) (S.faults input.old) (O.held out.old) (O.faults out.old)
        (V.held watch.old))
        (world (F.words files.new) (F.told files.new) (F.faults files.new) (S.left input.new) (S.faults input.new) (O.held out.new) (O.faults out.new)
        (V.held watch.new)) → ⊥) → input.new ≡ input.old }
    ensures rose { FailsRisen result (S.faults input.old) (S.faults input.new) }
{
    match read_words(words) {
        Ok(command) => perform(alloc, words, task_of(command), files, input, out, watch),
        Err(k) => Ending::Refused(Refusal::Usage(k)),
    }
}

/// Puts the line of an ending, and gives the outcome.
fn conclude<E: Sink>(err: &mut E, words: &[&str], ending: Ending) -> Outcome
    ensures { SaidEnding (texts words.now) ending (E.held err.old) (E.held err.new) (E.faults err.old) (E.faults err.new) result }
{
    match say_ending(err, words, &ending) {
        Ok(()) => outcome_for(&ending),
        Err(_) => outcome_unsaid(&ending),
    }
}

/// The outcome where the line of an ending couldn't be put.
fn outcome_unsaid(ending: &Ending) -> Outcome
    ensures { result ≡ outcome_unsaid ending.now }
{
    match ending {
        Ending::ReadFault | Ending::InputFault => Outcome::ReadFault,
        Ending::NoMemory => Outcome::NoMemory,
        Ending::Ended(_)
        | Ending::Written
        | Ending::Linked(_)
        | Ending::Holds(_)
        | Ending::Uncaught(_, _, _)
        | Ending::Refused(_)
        | Ending::TooLong(_, _, _, _)
        | Ending::NotLinked(_, _)
        | Ending::NotHeld(_, _)
        | Ending::NotPriced(_, _, _)
        | Ending::NotAnswered(_, _)
        | Ending::Spent(_)
        | Ending::CycleEnded(_)
        | Ending::CycleUncaught(_, _, _)
        | Ending::CycleSpent(_)
        | Ending::WriteFault => Outcome::WriteFault,
    }
}

/// The refusal of what isn't answered.
fn refusal_of(cause: Cause) -> Refusal
    ensures { result ≡ refusal_of cause }
{
    match cause {
        Cause::Bound(cause) => Refusal::Bound(cause),
        Cause::Memory(cause) => Refusal::Memory(cause),
        Cause::NoLoop => Refusal::NoLoop,
        Cause::Plan(cause) => Refusal::Plan(cause),
    }
}

fn outcome_for(ending: &Ending) -> Outcome
    ensures { result ≡ outcome_of ending.now }
{
    match ending {
        Ending::Ended(_) | Ending::CycleEnded(_) => Outcome::Ended,
        Ending::Written | Ending::Linked(_) => Outcome::Written,
        Ending::Holds(_) => Outcome::Holds,
        Ending::Uncaught(class, _, _) | Ending::CycleUncaught(class, _, _) => {
            Outcome::Uncaught(*class)
        }
        Ending::Refused(refusal) => Outcome::Refused(*refusal),
        Ending::TooLong(method, _, blocks, limit) => {
            Outcome::Refused(Refusal::MethodTooLong(*method, *blocks, *limit))
        }
        Ending::NotLinked(refusal, _) => Outcome::Refused(Refusal::Link(*refusal)),
        Ending::NotHeld(fault, _) => Outcome::Refused(Refusal::Check(*fault)),
        Ending::NotPriced(method, node, _) => Outcome::Refused(Refusal::Price(*method, *node)),
        Ending::NotAnswered(cause, _) => Outcome::Refused(refusal_of(*cause)),
        Ending::Spent(_) | Ending::CycleSpent(_) => Outcome::Spent,
        Ending::ReadFault | Ending::InputFault => Outcome::ReadFault,
        Ending::WriteFault => Outcome::WriteFault,
        Ending::NoMemory => Outcome::NoMemory,
    }
}

/// Does all that the program does, and puts one line that says how it ended into `err`, unless `asm`, `bound` or `work` have put what
/// they answer.
///
/// Word k names file k. `run` of an image takes the program's input from `input`, puts its output into `out`, and hands the registers
/// of each state of the machine, from reset on, from which a cycle was done or tried to `watch`. `trace` is the same run, and puts its
/// lines into `out`, and hands `watch` nothing: one before each step, one for each byte of the output and, if asked to, one before each
/// cycle. `profile` is the same run, too, and puts in place of the output a line for each method, of what its activations took beside
/// its bound. `cycle` is such a run of an executive that calls slots in turn, whose class stands behind the class files, and says how
/// the slots kept their lengths; `plan` puts a line for each slot with its bound. `asm` puts the words of the text's microprogram into
/// `out`, a line for each, and `link` the file of the image of the class files. `bound` puts the text of a certificate of the method
/// that is asked for, `report` lines that say where its bound comes from, and `work` the line of the class that it makes, links, runs
/// and bounds. `loops` puts a line of bounds for each loop that counts, `headers` a text of bounds with the lines of their sources,
/// `bound --all` a line for each method, `bound --shapes` one for each shape of the method cache, and `memory` the line of what a run
/// needs. `check` puts nothing there: it says whether a certificate meets its conditions.
pub fn jop<F: Files, S: Source, O: Sink, E: Sink, V: Watch>(
    alloc: Global,
    words: &[&str],
    files: &mut F,
    input: &mut S,
    out: &mut O,
    err: &mut E,
    watch: &mut V,
) -> Outcome
    requires words { length words.now ≡ F.words files.old }
    requires few { length words.now < 2 ^ 32 }
    ensures answered { Answered (texts words.now)
        (world (F.words files.old) (F.told files.old) (F.faults files.old) (S.left input.old) (S.faults input.old) (O.held out.old) (O.faults out.old)
        (V.held watch.old))
        (world (F.words files.new) (F.told files.new) (F.faults files.new) (S.left input.new) (S.faults input.new) (O.held out.new) (O.faults out.new)
        (V.held watch.new))
        (E.held err.old) (E.held err.new) (E.faults err.old) (E.faults err.new) result }
    ensures leaves { LeavesAll result (S.faults input.old) (S.faults input.new) → (input.new ≡ input.old) × (out.new ≡ out.old) × (watch.new ≡ watch.old) }
    ensures watch { (RunsProgram (texts words.now) → ⊥) → watch.new ≡ watch.old }
    ensures input { (TakesInput (texts words.now)
        (world (F.words files.old) (F.told files.old) (F.faults files.old) (S.left input.old) (S.faults input.old) (O.held out.old) (O.faults out.old)
        (V.held watch.old))
        (world (F.words files.new) (F.told files.new) (F.faults files.new) (S.left input.new) (S.faults input.new) (O.held out.new) (O.faults out.new)
        (V.held watch.new)) → ⊥) → input.new ≡ input.old }
{
    let ending = execute(alloc, words, files, input, out, watch);
    conclude(err, words, ending)
}
