//! What the program promises. The functions do nothing; a caller whose proof needs a law calls its function.
//!
//! The laws speak of calls of `jop`: what its contract says of its arguments and of its outcome makes one (`call_of`).
ghost use Rattle.jop_cli.specs.promises.Link.{LinkingIsComplete, LinkRefusalsAreAnswered, LinkRefusalsAreOne, LinkedImagesAreShown};
ghost use Rattle.jop_cli.specs.promises.Run.{RunsAreTheBytecodes, TracesAreTheRuns, BareRunsAreTheBytecodes, BareTracesAreTheRuns, RunsAreOne};
ghost use Rattle.jop_cli.specs.promises.Images.{OneBareImage, OneLinkedImage, NoImageIsBoth};
ghost use Rattle.jop_cli.specs.promises.Asm.{AssemblingIsComplete, AsmRefusalsAreAnswered, AsmRefusalsAreOne, ListingsAreShown};
ghost use Rattle.jop_cli.specs.promises.Bound.{BoundsAreKept, BoundingIsComplete, BoundRefusalsAreCaused, CausesAreAnswered, NamesTellMethods};
ghost use Rattle.jop_cli.specs.promises.Check.{CheckingIsComplete, FaultsAreAnswered, HeldLinesAreOne};
ghost use Rattle.jop_cli.specs.promises.Activations.{BoundsHoldInRuns, MethodsAreLoadedOnce, CheckedRunsAreKept};
ghost use Rattle.jop_cli.specs.promises.Loops.{WrittenLoopsCount, CountedLoopsAreKept, FurtherLoopsAreKept, FoundLoopsAreKept, FurtherFoundLoopsAreKept};
ghost use Rattle.jop_cli.specs.promises.Loops.{LoopLinesAreOne, FurtherLinesAreOne};
ghost use Rattle.jop_cli.specs.promises.Headers.{HeaderFilesAreTaken, HeaderFilesHaveBounds, NotedLoopsAreKept, HeadersAreShown, HeaderFilesAreOne};
ghost use Rattle.jop_cli.specs.promises.Questions.{QuestionsAreAnswered};
ghost use Rattle.jop_cli.specs.promises.Circuits.{CircuitsAreShown};
ghost use Rattle.jop_cli.specs.promises.Memory.{NeedsSuffice, NeedCausesAreTold, NeedsAreNotRefused, NeedsAreOne, NeedsAreShown, NeedsSufficeInRuns};
ghost use Rattle.jop_cli.specs.promises.Profile.{ProfilesAreComplete, ProfilesAreKept, ProfilesAreShown};
ghost use Rattle.jop_cli.specs.promises.Plan.{ExecutivesAreThere, PlansAreAnswered, PlansAreKept, PlansAreOne};
ghost use Rattle.jop_cli.specs.promises.Cycle.{CyclesAreRuns, SlotsAreKept, CyclesAreShown, NoSlotIsLate};
ghost use Rattle.jop_cli.specs.promises.Report.{ReportsAddUp, ReportsAreKept};
ghost use Rattle.jop_cli.specs.promises.Work.{WorkingIsComplete, WorkLinesAreTrue};
ghost use Rattle.jop_cli.specs.promises.AllBounds.{AllBoundsAreKept, ShapesAreKept, AllBoundsAreOne, ShapesAreOne};
ghost use Rattle.jop_cli.specs.promises.Facts.{CheckedFactBoundsAreKept, CheckedWithoutFacts, WrittenFactBoundsAreKept, WrittenWithoutFacts};
ghost use Rattle.jop_cli.specs.promises.Runs.{RunsAreShown, RunsComeToBoundaries};
ghost use Rattle.jop_cli.specs.promises.Refusals.{NoCommandIsRefused, LongFilesAreRefused, BadImagesAreRefused, UnlinkedImagesAreRefused};
ghost use Rattle.jop_cli.specs.promises.Refusals.{DifferingImagesAreRefused, LongMethodsAreRefused, LongBareCodesAreRefused, SmallMemoriesAreRefused};
ghost use Rattle.jop_cli.specs.promises.Texts.{BadBoundsAreRefused, BadSizesAreRefused, BadLinesAreRefused, StrayLinesAreRefused};

use activation_laws::counted::laws::{
    boot_holds_constants, counted_loops_of_runs, found_loops_count, further_found_loops_count,
    further_loops_of_runs,
};
use activation_laws::{activations_are_seen, called_keep_bounds, profiles_keep_bounds};
use activations::laws::{places_tell_words, steps_are_told};
use bound_laws::soundness::certificates_are_sound;
use bound_laws::soundness::loads::{activations_load_once, loads_are_misses, stays_load_once};
use bound_rules::laws::{faults_are_one, graphs_are_one, refused_is_not_met};
use bound_texts::loops::laws::{
    gives_one, lengths_give_one, read_is_not_refused, read_lengths_are_not_refused,
};
use boundary::laws::runs_are_in_a_row;
use jopizer::laws::{
    linked_files_are_not_refused, linked_images_are_read, main_is_there, one_linked,
    refusals_are_one,
};

/// Class files that nothing refuses are linked, and what refuses them is answered, which is one refusal.
pub fn linking_is_exact()
    ensures complete { LinkingIsComplete }
    ensures refused { LinkRefusalsAreAnswered }
    ensures one { LinkRefusalsAreOne }
    ensures shown { LinkedImagesAreShown }
{
    linked_files_are_not_refused();
    refusals_are_one();
}

/// The run of an image that is linked is that of its program, and its trace that of the run, which is one; so it is wherever the answer is
/// how a run ended, and the boundary to which it came is one of its boundaries. Bytes are those of one such image.
pub fn runs_are_the_bytecodes()
    ensures runs { RunsAreTheBytecodes }
    ensures traces { TracesAreTheRuns }
    ensures one { RunsAreOne }
    ensures shown { RunsAreShown }
    ensures boundary { RunsComeToBoundaries }
    ensures image { OneLinkedImage }
{
    one_linked();
    linked_images_are_read();
}

/// Bytes are those of one bare image, and then not those of a linked one.
pub fn one_bare_image()
    ensures one { OneBareImage }
    ensures both { NoImageIsBoth }
{}

/// The run of a bare image is that of its program, and its trace that of the run.
pub fn bare_runs_are_the_bytecodes()
    ensures runs { BareRunsAreTheBytecodes }
    ensures traces { BareTracesAreTheRuns }
{
    one_bare_image();
}

/// The listing of a text that is assembled is put, and what refuses a text is answered, which is one refusal.
pub fn assembling_is_exact()
    ensures complete { AssemblingIsComplete }
    ensures refused { AsmRefusalsAreAnswered }
    ensures one { AsmRefusalsAreOne }
    ensures shown { ListingsAreShown }
{}

/// A certificate that meets the conditions holds, and one that doesn't is refused by the first condition that fails.
pub fn checking_is_exact()
    ensures complete { CheckingIsComplete }
    ensures faults { FaultsAreAnswered }
{
    one_linked();
    linked_images_are_read();
    gives_one();
    read_is_not_refused();
    certificates::has_one_certificate();
    refused_is_not_met();
    faults_are_one();
}

/// A certificate of a method is written where nothing forbids a bound; where none is, the cause that is answered forbids it, and a cause
/// that stands is answered. A name is that of one method with code, and the line of a certificate that holds tells its method and its bound.
pub fn bounding_is_exact()
    ensures complete { BoundingIsComplete }
    ensures caused { BoundRefusalsAreCaused }
    ensures answered { CausesAreAnswered }
    ensures names { NamesTellMethods }
    ensures lines { HeldLinesAreOne }
{
    one_linked();
    linked_images_are_read();
    gives_one();
    read_is_not_refused();
    bound_laws::laws::refusals_are_one();
    bound_laws::laws::own_costs_exist();
    name_laws::laws::written_names_are_one();
    bound_laws::laws::resolved_codes_are_short();
}

/// Where the answer is that a certificate holds, or that one is written, the activations of its method take at most as many cycles as its
/// bound says; and where it is that lines are written, each bound in them is kept: of all methods, of all shapes of the method cache, of a
/// report and of a plan.
pub fn bounds_are_kept()
    ensures certificates { BoundsAreKept }
    ensures all { AllBoundsAreKept }
    ensures shapes { ShapesAreKept }
    ensures reports { ReportsAreKept }
    ensures plans { PlansAreKept }
{
    certificates_are_sound();
}

/// Where the answer is that a certificate holds by facts, or that one is written by them, the activations of its method that keep the
/// facts, too, take at most as many cycles as its bound says.
pub fn fact_bounds_are_kept()
    ensures checked { CheckedFactBoundsAreKept }
    ensures written { WrittenFactBoundsAreKept }
{}

/// With an empty text of facts nothing is supposed beside the bounds of loops.
pub fn no_facts_suppose_nothing()
    ensures written { WrittenWithoutFacts }
    ensures checked { CheckedWithoutFacts }
{
    fact_keeping::laws::no_facts_are_asked();
}

/// A bound of a method holds of the runs of what is linked, that of a certificate that holds of the runs of the same bytes. In them
/// activations of methods that fit the cache load each method at most once.
pub fn bounds_hold_in_runs()
    ensures holds { BoundsHoldInRuns }
    ensures checked { CheckedRunsAreKept }
    ensures loads { MethodsAreLoadedOnce }
{
    one_linked();
    places_tell_words();
    steps_are_told();
    activations_load_once();
    stays_load_once();
    loads_are_misses();
}

/// A profile of what is linked is that of its run, and the bounds in its lines are kept by the numbers beside them.
pub fn profiles_are_complete()
    ensures complete { ProfilesAreComplete }
    ensures kept { ProfilesAreKept }
    ensures shown { ProfilesAreShown }
{
    one_linked();
    linked_images_are_read();
    read_is_not_refused();
    certificates_are_sound();
    runs_are_in_a_row();
    profiles_keep_bounds();
}

/// The lines of a report add up to its bound.
pub fn reports_add_up()
    ensures { ReportsAddUp }
{
    bound_report::laws::parts_add_up();
    report_lines::laws::lines_add_up();
}

/// What is linked with the executive of a table has it; a plan of it is answered, and a cycle is a run of it.
pub fn executives_are_answered()
    ensures there { ExecutivesAreThere }
    ensures plans { PlansAreAnswered }
    ensures cycles { CyclesAreRuns }
    ensures shown { CyclesAreShown }
{
    main_is_there();
    slot_table::laws::gives_one();
    slot_table::laws::read_is_not_refused();
}

/// The lines of a plan are the only answer.
pub fn plans_are_one()
    ensures { PlansAreOne }
{
    gives_one();
    bound_rules::laws::numbers_are_one();
    bound_laws::laws::calls_end_without_recursion();
    bound_rules::laws::methods_have_code();
    method_runs::typed_graphs::laws::typed_methods_reach_starts();
}

/// The lines of all methods are the only answer.
pub fn all_bounds_are_one()
    ensures { AllBoundsAreOne }
{
    gives_one();
    answer_laws::laws::bound_lines_are_one();
    bound_laws::laws::own_costs_exist();
    bound_laws::laws::resolved_codes_are_short();
}

/// The lines of all shapes of the method cache are the only answer.
pub fn shapes_are_one()
    ensures { ShapesAreOne }
{
    gives_one();
    bound_rules::laws::numbers_are_one();
    bound_laws::laws::calls_end_without_recursion();
    bound_rules::laws::methods_have_code();
    method_runs::typed_graphs::laws::typed_methods_reach_starts();
    bound_laws::laws::refusals_are_one();
    bounding_is_exact();
}

/// Where there is a plan, the slots of a cycle keep their lengths, and its line says that none was late.
pub fn slots_are_kept()
    ensures kept { SlotsAreKept }
    ensures late { NoSlotIsLate }
{
    certificates_are_sound();
    runs_are_in_a_row();
    called_keep_bounds();
    activations_are_seen();
}

/// Where the answer is that the lines of loops are written, the loops count to their numbers; in the runs of what is linked, ended or not,
/// each frame keeps these, and a bound of a method asks for the other loops alone. The lines are the only ones.
pub fn loops_count()
    ensures written { WrittenLoopsCount }
    ensures found { FoundLoopsAreKept }
    ensures further_found { FurtherFoundLoopsAreKept }
    ensures kept { CountedLoopsAreKept }
    ensures further_kept { FurtherLoopsAreKept }
    ensures one { LoopLinesAreOne }
    ensures further_one { FurtherLinesAreOne }
{
    graphs_are_one();
    counted_laws::laws::further_loops_keep();
    counted_laws::laws::counted_loops_are_further();
    boot_holds_constants();
    counted_laws::laws::boot_holds_known();
    loop_rules::further::laws::puts_keep_arrays();
    found_loops_count();
    further_found_loops_count();
    places_tell_words();
    steps_are_told();
    counted_loops_of_runs();
    further_loops_of_runs();
}

/// What `bound` takes from the text of headers is just what is written, so that loops are bounded exactly where no remark stands in place
/// of numbers; in the runs of what is linked a bound by it asks for what the lines say alone.
pub fn headers_bound_loops()
    ensures taken { HeaderFilesAreTaken }
    ensures bounds { HeaderFilesHaveBounds }
    ensures kept { NotedLoopsAreKept }
    ensures shown { HeadersAreShown }
    ensures one { HeaderFilesAreOne }
{
    graphs_are_one();
    compact_walks::laws::graphs_are_moved();
    compact_walks::laws::ends_are_one();
    bound_texts::sources::laws::gives_one();
    source_headers::laws::header_files_are_read();
    source_headers::laws::files_bound_headers();
    source_headers::laws::roots_have_lines();
    found_loops_count();
    loops_count();
}

/// Where the answer is that the text of a circuit is written, it is that of the machine with the image in it.
pub fn circuits_are_shown()
    ensures { CircuitsAreShown }
{}

/// What is asked of an image that is linked is answered.
pub fn questions_are_answered()
    ensures { QuestionsAreAnswered }
{
    one_linked();
    linked_images_are_read();
}

/// What `memory` tells suffices, and so it does in the runs of what is linked. The texts give one need, and then nothing refuses them; or
/// one cause at most why there is none.
pub fn needs_suffice()
    ensures suffice { NeedsSuffice }
    ensures shown { NeedsAreShown }
    ensures in_runs { NeedsSufficeInRuns }
    ensures one { NeedsAreOne }
    ensures not_refused { NeedsAreNotRefused }
    ensures causes { NeedCausesAreTold }
{
    boundary::verified_programs_are_told();
    memory_laws::laws::stack_need_suffices();
    memory_laws::laws::heap_need_suffices();
    memory_rules::laws::needs_are_one();
    memory_bound::laws::need_causes_are_one();
    gives_one();
    read_is_not_refused();
    lengths_give_one();
    read_lengths_are_not_refused();
}

/// The line of `work` is put, or what stands in its way is answered; and where the answer is that it is written, it is true.
pub fn working_is_exact()
    ensures complete { WorkingIsComplete }
    ensures right { WorkLinesAreTrue }
{}

/// Words that give no command are answered, and what is wrong with files, with their image, or with its machine, the first of these that
/// stands.
pub fn refusals_are_answered()
    ensures words { NoCommandIsRefused }
    ensures files { LongFilesAreRefused }
    ensures bad { BadImagesAreRefused }
    ensures unlinked { UnlinkedImagesAreRefused }
    ensures differs { DifferingImagesAreRefused }
    ensures methods { LongMethodsAreRefused }
    ensures bare { LongBareCodesAreRefused }
    ensures memory { SmallMemoriesAreRefused }
{
    class_file::laws::one_class();
    image_file::one_image();
    one_linked();
    linked_images_are_read();
    linked_files_are_not_refused();
    refusals_are_one();
    one_bare_image();
    executives_are_answered();
}

/// A text that a question about what is linked is asked of is refused by one line, which is answered.
pub fn texts_are_refused()
    ensures bounds { BadBoundsAreRefused }
    ensures sizes { BadSizesAreRefused }
    ensures lines { BadLinesAreRefused }
    ensures stray { StrayLinesAreRefused }
{
    one_linked();
    linked_images_are_read();
    read_is_not_refused();
    read_lengths_are_not_refused();
    bound_texts::sources::laws::gives_one();
    bound_texts::sources::laws::read_is_not_refused();
    text_laws::laws::bounds_faults_are_one();
    text_laws::laws::length_faults_are_one();
    text_laws::laws::note_faults_are_one();
}
