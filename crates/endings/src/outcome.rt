//! How a call of the program ends.
ghost use Rattle.std.specs.Prelude.{◌≡◌};
ghost use Rattle.endings.specs.DeviceFaults.{fault_ending};

use answer_lines::{BoundCause, Cause, Counts, Held, PlanCause, Sizes, SlotCounts};
use bound_rules::CheckFault;
use jop_core::DeviceFault;
use jopizer::LinkRefusal;
use memory_rules::NeedCause;
use microcode_asm::AsmKind;

/// Why a command was refused.
#[derive(Clone, Copy)]
pub enum Refusal {
    /// The words give no command. The number is that of the first word at which none can go on, or the
    /// number of words where they end early.
    Usage(u32),
    /// The files of the command are too long: the word of the file at which they are, and the sum of the
    /// lengths so far in bytes.
    TooBig(u32, u128),
    /// The file is in no image grammar.
    BadImage,
    /// The word at this place is the first that the image has otherwise than its class files are linked to: the image's
    /// and the linked one, none past an end.
    Differs(u32, Option<u32>, Option<u32>),
    /// The method of this number takes so many blocks of the method cache, which has fewer.
    MethodTooLong(u32, u32, u32),
    /// The image has so many words, and the memory, of so many, has fewer.
    MemoryTooSmall(u32, u32),
    /// The line of this number, counted from 1, is the first of the bounds that is none of their grammar.
    BadBounds(u32),
    /// The line of this number is the first of the bounds that bounds a loop once more.
    TwiceBound(u32),
    /// The line of this number, counted from 1, is the first of the lengths that is none of their grammar.
    BadSizes(u32),
    /// The line of this number is the first of the lengths that gives one once more.
    TwiceSize(u32),
    /// The line of this number, counted from 1, is the first of the bounds by lines of sources that is none of their grammar.
    BadLines(u32),
    /// The line of this number is the first of them that bounds once more what a line before it bounds.
    TwiceLines(u32),
    /// The line of this number, counted from 1, is the first of the facts that is none of their grammar, or whose facts aren't taken.
    BadFacts(u32),
    /// The line of this number is the first of the facts that says once more what a line before it says.
    TwiceFact(u32),
    /// The line of this number is the first of the facts that says nothing of the program.
    NoFact(u32),
    /// The line of this number, counted from 1, is the first of the table of slots that is none of its grammar.
    BadTable(u32),
    /// The table has so many slots, and not 1 to 64.
    SlotCount(u32),
    /// With the line of this number no certificate begins.
    BadCert(u64),
    /// This is the first condition of the certificate that fails.
    Check(CheckFault),
    /// The first price of the certificate of which no fact is given is at this node of the method of this number.
    Price(u32, u32),
    /// This is why no bound of the method is given.
    Bound(BoundCause),
    /// This is why no need of memory is given.
    Memory(NeedCause),
    /// The circuit of the image isn't made: a net of it would be none.
    NoCircuit,
    /// A bound is said of what heads no loop.
    NoLoop,
    /// This keeps a slot from its length.
    Plan(PlanCause),
    /// The text isn't assembled.
    Asm(AsmRefusal),
    /// The files aren't linked.
    Link(LinkRefusal),
}

/// Why a text of microcode isn't assembled.
#[derive(Clone, Copy)]
pub enum AsmRefusal {
    /// The line of this number, counted from 1, is the first that breaks a rule.
    Line(u32, AsmKind),
    /// No line breaks a rule, and the words, so many, are more than 2,048.
    TooLong(u32),
}

/// How a call of the program ends.
#[derive(Clone, Copy)]
pub enum Outcome {
    /// The program of the image returned from boot.
    Ended,
    /// The whole answer was put.
    Written,
    /// The certificate meets its conditions.
    Holds,
    /// An object of the class of this number wasn't caught.
    Uncaught(u32),
    /// The command was refused.
    Refused(Refusal),
    /// The run was stopped at the first boundary whose clock was at least the given count of cycles.
    Spent,
    /// A file or the input failed.
    ReadFault,
    /// The output failed.
    WriteFault,
    /// There was no memory.
    NoMemory,
}

impl Outcome {
    ghost use Rattle.endings.specs.Status.{status_of};

    /// The status that the process ends with.
    pub fn status(self) -> u8
        ensures { result ≡ status_of self }
    {
        match self {
            Outcome::Ended | Outcome::Written | Outcome::Holds => 0,
            Outcome::Uncaught(_) => 1,
            Outcome::Refused(_) => 2,
            Outcome::Spent => 3,
            Outcome::ReadFault | Outcome::WriteFault => 4,
            Outcome::NoMemory => 5,
        }
    }
}

/// An outcome with what its line shows.
#[derive(Drop)]
pub enum Ending {
    Ended(Counts),
    Written,
    /// What was linked was written, and has these sizes.
    Linked(Sizes),
    /// The certificate holds: its method, the method's name, and its bound.
    Holds(Held),
    /// An object of the class of this number wasn't caught, whose name has these bytes.
    Uncaught(u32, Vec<u8>, Counts),
    Refused(Refusal),
    /// The method of this number, whose name has these bytes, takes so many blocks of the method cache, which has so many.
    TooLong(u32, Vec<u8>, u32, u32),
    /// The files aren't linked, and what the line names in them has these bytes.
    NotLinked(LinkRefusal, Vec<u8>),
    /// The first condition of the certificate that fails, and the name of the method of which it speaks.
    NotHeld(CheckFault, Vec<u8>),
    /// The first price of the certificate of which no fact is given: the number of its method, its node, and the method's name.
    NotPriced(u32, u32, Vec<u8>),
    /// Why what is asked isn't answered, and what the line names.
    NotAnswered(Cause, Vec<u8>),
    Spent(Counts),
    /// The program of an executive returned, and its slots.
    CycleEnded(SlotCounts),
    /// An object of the class of this number, whose name has these bytes, wasn't caught in the run of an executive, and its slots.
    CycleUncaught(u32, Vec<u8>, SlotCounts),
    /// The run of an executive was stopped, and its slots.
    CycleSpent(SlotCounts),
    /// A file failed.
    ReadFault,
    /// The input failed.
    InputFault,
    WriteFault,
    NoMemory,
}

/// The ending of a run on which this call on a device failed. A state that a trace can't show is a line that can't be put.
pub fn fault_ending(fault: DeviceFault) -> Ending
    ensures { result ≡ fault_ending fault }
{
    match fault {
        DeviceFault::Input => Ending::InputFault,
        DeviceFault::Output | DeviceFault::Seen => Ending::WriteFault,
    }
}

/// What answers a question about an image.
#[derive(Drop)]
pub enum Answer {
    /// A text for the output.
    Text(Vec<u8>),
    /// An ending, whose line says the answer, or why there is none.
    Ends(Ending),
}
