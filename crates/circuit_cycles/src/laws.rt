//! Laws of the circuit. Each is a function without a body, whose contract says it.

ghost use Rattle.circuit_cycles.specs.Laws.{LookUpsFind, LoadsBegin, WordsAreWritten, LoadsEnd, LoadsGoOn, MethodsHaveOneTag};
ghost use Rattle.circuit_cycles.specs.Runs.{ClocksAreCycles, ClocksSeeTheSame, RunsAreRuns, LinkedRunsAreRuns, BareRunsAreRuns, HaltsStay};
ghost use Rattle.circuit_cycles.specs.Starting.{StartsStand, ResetsStart};
ghost use Rattle.circuit_cycles.specs.Fits.{FitsStay, ResetsFit, LinkedStartsFit, BareStartsFit};
ghost use Rattle.circuit_cycles.specs.Ahead.{StackWordsAreAhead, BytesAreAhead};
ghost use Rattle.circuit_cycles.specs.Rom.{IsFit};
ghost use Rattle.microcode.specs.declared.TheConstants.{WORDS, ENTRIES};

/// A look-up finds each method that the cache holds.
pub fn look_ups_find()
    ensures { LookUpsFind }
{}

/// A load begins with none of its words written.
pub fn loads_begin()
    ensures { LoadsBegin }
{}

/// A word of a load is written behind those before it.
pub fn words_are_written()
    ensures { WordsAreWritten }
{}

/// A load whose words are all written has ended.
pub fn loads_end()
    ensures { LoadsEnd }
{}

/// The ROM is one that the circuit can read ahead.
pub fn rom_is_fit()
    ensures { IsFit WORDS ENTRIES }
{}

/// The on-chip words that a cycle takes are read a clock ahead, and what is written meanwhile is passed on.
pub fn stack_words_are_ahead()
    ensures { StackWordsAreAhead }
{}

/// The byte that a cycle takes is read a clock ahead.
pub fn bytes_are_ahead()
    ensures { BytesAreAhead }
{}

/// A load goes on clock by clock, for as long as the machine stalls.
pub fn loads_go_on()
    ensures { LoadsGoOn }
{}

/// A clock of a circuit that stands for a machine is a cycle of the machine.
pub fn clocks_are_cycles()
    ensures { ClocksAreCycles }
{}

/// A clock puts out, takes and looks up what the machine does at its cycle.
pub fn clocks_see_the_same()
    ensures { ClocksSeeTheSame }
{}

/// So many clocks of a circuit are as many cycles of the machine, with the same bytes.
pub fn runs_are_runs()
    ensures { RunsAreRuns }
{}

/// Behind the start-up clock a circuit stands for the machine.
pub fn starts_stand()
    ensures { StartsStand }
{}

/// The first contents of registers and memories are those of a machine at reset.
pub fn resets_start()
    ensures { ResetsStart }
{}

/// The words of registers and memories fit them at each clock.
pub fn fits_stay()
    ensures { FitsStay }
{}

/// No two tags stand for one method where no load is under way.
pub fn methods_have_one_tag()
    ensures { MethodsHaveOneTag }
{}

/// The first contents of registers and memories fit them.
pub fn resets_fit()
    ensures { ResetsFit }
{}

/// An image that can be linked begins with words that fit.
pub fn linked_starts_fit()
    ensures { LinkedStartsFit }
{}

/// A circuit whose memory begins with a linked image runs as the machine that begins with it.
pub fn linked_runs_are_runs()
    ensures { LinkedRunsAreRuns }
{}

/// A circuit whose cache begins with a bare image runs as the machine that begins with it.
pub fn bare_runs_are_runs()
    ensures { BareRunsAreRuns }
{}

/// A circuit that has halted stays so.
pub fn halts_stay()
    ensures { HaltsStay }
{}

/// A bare image begins with words that fit.
pub fn bare_starts_fit()
    ensures { BareStartsFit }
{}
