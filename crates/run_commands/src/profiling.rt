//! The profile of a run: what the activations of each method took, beside its bound.
ghost use Rattle.std.specs.Prelude.{◌≡◌, ◌<◌, ◌≤◌, ◌+◌, ◌^◌, ℕ, List, [], None, length, vec_capacity, All, IfOk, IfErr, true, false};
ghost use Rattle.device_traits.specs.declared.fault.DeviceFault.TheVariants as faults;
ghost use Rattle.std.specs.declared.option.Option.{Option};
ghost use Rattle.base.specs.Sizes.{longest_file};
ghost use Rattle.command_line.specs.Range.{AreSettings};
ghost use Rattle.device_traits.specs.declared.seen.Seen.{Seen};
ghost use Rattle.image_file.specs.Bare.{IsBareContent};
ghost use Rattle.outside.specs.Files.{contents, AreFiles};
ghost use Rattle.outside.specs.Outside.{Rose};
ghost use Rattle.refusal_lines.specs.Room.{HasRoom};
ghost use Rattle.run_devices.specs.Lent.{lent};
ghost use Rattle.run_follower.specs.Watch.Counting.{no_totals};
ghost use Rattle.method_bounds.specs.Lines.{name_in};
ghost use Rattle.method_bounds.specs.Profiles.{profile_lines};
ghost use Rattle.endings.specs.World.{world};
ghost use Rattle.endings.specs.Line.{text_of_word};
ghost use Rattle.endings.specs.Phase.{is_linked};
ghost use Rattle.endings.specs.Leaving.{Leaves, FailsRisen};
ghost use Rattle.run_commands.specs.LinkedRun.{HasClass};
ghost use Rattle.endings.specs.Fitting.{CodesFit};
ghost use Rattle.run_commands.specs.Preparing.{IsPrepared, IsPreparedBy, IsUnprepared};
ghost use Rattle.run_commands.specs.Profiling.{PutsProfile, ProfilesWith, ProfilesHeld, ProfilesLinked, ProfilesBare, ProfilesImage, ProfilesFiles};

use crate::bare_file::run_with;
use crate::following::follow_lent;
use crate::linked_file::said;
use crate::program_end::ProgramEnd;
use activation_laws::seen_are_within;
use analysis_commands::{bounds_in, table_of, timing_of};
use base::NoMemory;
use bound_texts::loops::Bounds;
use boundary::laws::runs_are_in_a_row;
use boundary::uncaught_classes_are_there;
use bytecode_verifier::Verified;
use command_line::Settings;
use endings::faults::fault_ending;
use endings::fitting::{too_long_ending, unheld};
use endings::image::{Image, open_image};
use endings::linking::read_operands;
use endings::operands::operand;
use endings::outcome::Ending;
use endings::show::Show;
use jop_core::{Bare, NoWatch};
use jopizer::Linked;
use method_bounds::{BoundAnswer, method_bounds, put_profile};
use method_flow::FlowProgram;
use outside::{Files, Sink, Source};
use refusal_lines::name_room;
use resolved_program::Program;
use run_devices::NoSink;
use run_follower::watch::MethodTotals;
use run_follower::watch::laws::{profiles_are_exact, profiles_are_told};
use std::alloc::Global;

/// What a profile is told with: the table of the program, what is answered of its methods, and the totals that follow the run.
#[derive(Drop)]
pub(crate) struct Prepared {
    flow: FlowProgram,
    answers: Vec<BoundAnswer>,
    totals: MethodTotals,
}

/// What a profile is told with, by these bounds of loops.
fn prepare_with(
    alloc: Global,
    program: &Verified,
    settings: &Settings,
    bounds: &Bounds,
) -> Result<Prepared, NoMemory>
    requires { AreSettings settings.now }
    ensures { IfOk result (IsPrepared settings.now program.now bounds.now) }
{
    let flow = table_of(alloc, program)?;
    let answers = method_bounds(alloc, &flow, bounds, timing_of(settings))?;
    let totals = MethodTotals::new(alloc, flow.method_count(), settings.stack)?;
    Ok(Prepared {
        flow,
        answers,
        totals,
    })
}

/// What a profile of what was linked is told with.
fn prepare(
    alloc: Global,
    linked: &Linked,
    settings: &Settings,
    bounds: &[u8],
) -> Result<Prepared, Ending>
    requires settings { AreSettings settings.now }
    requires short { length bounds.now ≤ longest_file }
    ensures prepared { IfOk result (IsPreparedBy settings.now linked.now.classes bounds.now) }
    ensures fault { IfErr result (IsUnprepared settings.now bounds.now) }
{
    match bounds_in(alloc, bounds) {
        Ok(bounds) => match prepare_with(alloc, linked.program(), settings, &bounds) {
            Ok(prepared) => Ok(prepared),
            Err(NoMemory) => Err(Ending::NoMemory),
        },
        Err(fault) => Err(fault_ending(settings, fault)),
    }
}

/// Runs what was linked, and adds up what the activations of its methods take. The program's bytes aren't kept.
fn run_totals<S: Source>(
    alloc: Global,
    linked: &Linked,
    settings: &Settings,
    totals: &mut MethodTotals,
    input: &mut S,
) -> Result<ProgramEnd, NoMemory>
    requires settings { AreSettings settings.now }
    requires codes { CodesFit settings.now linked.now }
    requires memory { length linked.now.laid.words ≤ settings.now.memory }
    ensures profiles { IfOk result (λ f. (methods : ℕ) → totals.old ≡ no_totals methods settings.now.stack → ProfilesWith settings.now linked.now
        (lent (S.left input.old) (S.faults input.old) None 0 None) (lent (S.left input.new) (S.faults input.new) None 0 None) methods totals.new.rows f) }
    ensures leaves { IfErr result (λ _. input.new ≡ input.old) }
{
    // The laws are for the proof.
    runs_are_in_a_row();
    seen_are_within();
    profiles_are_told();
    profiles_are_exact();
    let mut sink = NoSink;
    let mut watch = NoWatch;
    follow_lent(
        alloc, linked, settings, input, &mut sink, &mut watch, totals,
    )
}

/// Puts the lines of a run that ended so, and tells how it ended.
fn conclude<O: Sink>(
    program: &Program,
    prepared: &Prepared,
    room: Vec<u8>,
    followed: ProgramEnd,
    out: &mut O,
) -> Ending
    requires empty { room.items ≡ [] }
    requires room { HasRoom program.now (vec_capacity room) }
    requires class { HasClass program.now followed.end }
    requires answers { length prepared.now.answers.items ≡ length prepared.now.flow.methods }
    requires rows { length prepared.now.totals.rows ≡ length prepared.now.flow.methods }
    ensures puts { PutsProfile program.now (profile_lines (name_in prepared.now.flow) 0 prepared.now.totals.rows prepared.now.answers.items) followed
        (O.held out.old) (O.held out.new) (O.faults out.old) (O.faults out.new) result }
    ensures done { Leaves result → ⊥ }
    ensures rose { (before now : ℕ) → (followed.end ≡ Err faults.Input → Rose before now) → FailsRisen result before now }
{
    match put_profile(
        out,
        &prepared.flow,
        prepared.totals.rows(),
        &prepared.answers,
    ) {
        Ok(()) => said(program, room, followed),
        Err(_) => Ending::WriteFault,
    }
}

/// Runs what was linked, which a machine with these settings holds, and puts the lines.
fn profile_held<S: Source, O: Sink>(
    alloc: Global,
    linked: &Linked,
    settings: &Settings,
    prepared: Prepared,
    input: &mut S,
    out: &mut O,
) -> Ending
    requires settings { AreSettings settings.now }
    requires codes { CodesFit settings.now linked.now }
    requires memory { length linked.now.laid.words ≤ settings.now.memory }
    requires answers { length prepared.answers.items ≡ length prepared.flow.methods }
    requires fresh { prepared.totals ≡ no_totals (length prepared.flow.methods) settings.now.stack }
    ensures profiles { (bounds_text : List ℕ) → IsPreparedBy settings.now linked.now.classes bounds_text prepared
        → ProfilesHeld settings.now linked.now bounds_text
        (lent (S.left input.old) (S.faults input.old) (O.held out.old) (O.faults out.old) None)
        (lent (S.left input.new) (S.faults input.new) (O.held out.new) (O.faults out.new) None) result }
    ensures leaves { Leaves result → (input.new ≡ input.old) × (out.new ≡ out.old) }
    ensures rose { FailsRisen result (S.faults input.old) (S.faults input.new) }
{
    // The law is for the proof.
    uncaught_classes_are_there();
    let mut prepared = prepared;
    let program = linked.program().program();
    // After the machine is made no memory is asked for.
    let Ok(room) = name_room(alloc, program) else {
        return Ending::NoMemory;
    };
    match run_totals(alloc, linked, settings, &mut prepared.totals, input) {
        Ok(followed) => conclude(program, &prepared, room, followed, out),
        Err(NoMemory) => Ending::NoMemory,
    }
}

/// The profile of what was linked.
fn profile_linked<S: Source, O: Sink>(
    alloc: Global,
    linked: &Linked,
    settings: &Settings,
    bounds: &[u8],
    input: &mut S,
    out: &mut O,
) -> Ending
    requires settings { AreSettings settings.now }
    requires short { length bounds.now ≤ longest_file }
    ensures profiles { ProfilesLinked settings.now linked.now bounds.now
        (lent (S.left input.old) (S.faults input.old) (O.held out.old) (O.faults out.old) None)
        (lent (S.left input.new) (S.faults input.new) (O.held out.new) (O.faults out.new) None) result }
    ensures leaves { Leaves result → (input.new ≡ input.old) × (out.new ≡ out.old) }
    ensures rose { FailsRisen result (S.faults input.old) (S.faults input.new) }
{
    if let Some(ending) = unheld(alloc, linked, settings) {
        return ending;
    }
    match prepare(alloc, linked, settings, bounds) {
        Ok(prepared) => profile_held(alloc, linked, settings, prepared, input, out),
        Err(ending) => ending,
    }
}

/// The profile of a bare image, whose one method starts the program: no activation of it ends.
fn profile_bare(alloc: Global, bare: &Bare, settings: &Settings, bounds: &[u8]) -> Ending
    requires settings { AreSettings settings.now }
    requires grammar { IsBareContent bare.now }
    requires short { length bounds.now ≤ longest_file }
    ensures { ProfilesBare settings.now bare.now bounds.now result }
{
    if let Some(ending) = too_long_ending(bare, settings) {
        return ending;
    }
    match bounds_in(alloc, bounds) {
        Ok(_) => run_with(
            alloc,
            bare,
            settings,
            Show::Output,
            &mut NoSink,
            &mut NoWatch,
        ),
        Err(fault) => fault_ending(settings, fault),
    }
}

/// The profile of the image that the first operand is, by the bounds of the second.
fn profile_operands<S: Source, O: Sink>(
    alloc: Global,
    settings: &Settings,
    operands: &[Vec<u8>],
    input: &mut S,
    out: &mut O,
) -> Ending
    requires settings { AreSettings settings.now }
    requires short { All (λ text. length text.items ≤ longest_file) operands.now }
    ensures profiles { ProfilesImage settings.now (contents operands.now)
        (lent (S.left input.old) (S.faults input.old) (O.held out.old) (O.faults out.old) None)
        (lent (S.left input.new) (S.faults input.new) (O.held out.new) (O.faults out.new) None) result }
    ensures leaves { Leaves result → (input.new ≡ input.old) × (out.new ≡ out.old) }
    ensures input { is_linked (text_of_word (contents operands.now) 0) ≡ false → input.new ≡ input.old }
    ensures rose { FailsRisen result (S.faults input.old) (S.faults input.new) }
{
    let bounds = operand(operands, 1);
    match open_image(alloc, operand(operands, 0)) {
        Ok(Image::Linked(linked)) => {
            let ending = profile_linked(alloc, &linked, settings, bounds, input, out);
            // By a call: what its parts' destructors do is proved there.
            drop(linked);
            ending
        }
        Ok(Image::Bare(bare)) => profile_bare(alloc, &bare, settings, bounds),
        Err(ending) => ending,
    }
}

/// The profile of the image of a word, by the bounds behind it.
pub fn profile_files<F: Files, S: Source, O: Sink>(
    alloc: Global,
    settings: &Settings,
    image: u32,
    files: &mut F,
    input: &mut S,
    out: &mut O,
) -> Ending
    requires settings { AreSettings settings.now }
    requires there { image + 2 ≤ F.words files.old }
    requires few { F.words files.old < 2 ^ 32 }
    ensures profiles { (watch : Option (List Seen)) → ProfilesFiles settings.now image
        (world (F.words files.old) (F.told files.old) (F.faults files.old) (S.left input.old) (S.faults input.old) (O.held out.old) (O.faults out.old) watch)
        (world (F.words files.new) (F.told files.new) (F.faults files.new) (S.left input.new) (S.faults input.new) (O.held out.new) (O.faults out.new) watch)
        result }
    ensures leaves { Leaves result → (input.new ≡ input.old) × (out.new ≡ out.old) }
    ensures input { ((operands : List (List ℕ)) → AreFiles (F.told files.old) image (image + 2) operands → is_linked (text_of_word operands 0) ≡ true → ⊥)
        → input.new ≡ input.old }
    ensures rose { FailsRisen result (S.faults input.old) (S.faults input.new) }
{
    match read_operands(alloc, files, image, image + 2) {
        Ok(operands) => profile_operands(alloc, settings, &operands, input, out),
        Err(ending) => ending,
    }
}
