//! What a command does, by the words that it means.
ghost use Rattle.std.specs.Prelude.{◌≡◌, ℕ};
ghost use Rattle.command_line.specs.Range.{HasNumbersInRange, AreThere, OperandsFollow};
ghost use Rattle.jop_cli.specs.Tasks.{task_of, IsAmong};

use ask_commands::asking::{Asked, Question};
use ask_commands::priced_files::{AskedWith, PricedQuestion};
use command_line::{Command, Settings};
use endings::show::Show;

/// What a command does.
#[derive(Clone, Copy)]
pub(crate) enum Task {
    /// Runs the image of a word, and shows its output or its trace.
    Run {
        settings: Settings,
        show: Show,
        image: u32,
    },
    /// Runs the image of a word, and tells what the activations of its methods took beside their bounds, by the text behind it.
    Profile {
        settings: Settings,
        image: u32,
    },
    /// Tells the bound of each slot of the table of a word, by the bounds and the class files of the words behind it.
    Plan {
        settings: Settings,
        rounds: u32,
        table: u32,
    },
    /// Runs the executive of the table of a word, and of the class files of the words behind it, so many rounds.
    Cycle {
        settings: Settings,
        rounds: u32,
        table: u32,
    },
    /// Assembles the text of a word.
    Assemble {
        text: u32,
    },
    /// Links the class files of the words from `first` on, with the main class that a word names.
    Link {
        main: u32,
        first: u32,
    },
    /// Asks something of the image of a word.
    Ask(Asked),
    /// Asks something of the image of a word, by facts.
    AskWith(AskedWith),
    /// Makes a class of so many methods, links it, runs it and bounds it.
    Work {
        count: u32,
    },
}

/// The run of the image of a word.
fn run(settings: Settings, show: Show, image: u32) -> Task
    ensures { result ≡ Task.Run settings show image }
{
    Task::Run {
        settings,
        show,
        image,
    }
}

/// A question about the image of a word, with so many operands.
fn ask(question: Question, image: u32, operands: u32) -> Task
    ensures { result ≡ Task.Ask (record { question = question; image = image; operands = operands }) }
{
    Task::Ask(Asked {
        question,
        image,
        operands,
    })
}

/// A question about the image of a word, with so many operands, by the facts of a word.
fn ask_with(question: PricedQuestion, image: u32, operands: u32, facts: u32) -> Task
    ensures { result ≡ Task.AskWith (record { question = question; image = image; operands = operands; facts = facts }) }
{
    Task::AskWith(AskedWith {
        question,
        image,
        operands,
        facts,
    })
}

/// The plan of so many rounds of the table of a word.
fn plan(settings: Settings, rounds: u32, table: u32) -> Task
    ensures { result ≡ Task.Plan settings rounds table }
{
    Task::Plan {
        settings,
        rounds,
        table,
    }
}

/// What the command does.
pub(crate) fn task_of(command: Command) -> Task
    ensures task { result ≡ task_of command }
    ensures among { (words : ℕ) → HasNumbersInRange command → AreThere words command → OperandsFollow command → IsAmong words result }
{
    match command {
        Command::Link { main, first } => Task::Link { main, first },
        Command::Run { settings, image } => run(settings, Show::Output, image),
        Command::Trace {
            settings,
            micro,
            image,
        } => run(settings, Show::Trace { cycles: micro }, image),
        Command::Profile {
            settings,
            image,
            ..
        } => Task::Profile { settings, image },
        Command::Bound {
            settings,
            method,
            image,
            ..
        } => ask(Question::Bound { settings, method }, image, 2),
        Command::BoundAll {
            settings,
            image,
            ..
        } => ask(Question::Bounds { settings }, image, 2),
        Command::BoundShapes {
            settings,
            method,
            image,
            ..
        } => ask(Question::Shapes { settings, method }, image, 2),
        Command::Report {
            settings,
            method,
            image,
            ..
        } => ask(Question::Report { settings, method }, image, 2),
        Command::Check {
            settings,
            image,
            ..
        } => ask(Question::Check { settings }, image, 3),
        Command::BoundWith {
            settings,
            method,
            facts,
            image,
            ..
        } => ask_with(
            PricedQuestion::BoundWith { settings, method },
            image,
            2,
            facts,
        ),
        Command::CheckWith {
            settings,
            facts,
            image,
            ..
        } => ask_with(PricedQuestion::CheckWith { settings }, image, 3, facts),
        Command::Loops { further, image } => ask(Question::Loops { further }, image, 1),
        Command::Headers { image, operands } => ask(Question::Headers, image, operands),
        Command::Memory { image, .. } => ask(Question::Memory, image, 3),
        Command::Plan {
            settings,
            rounds,
            table,
            ..
        } => plan(settings, rounds, table),
        Command::Cycle {
            settings,
            rounds,
            table,
            ..
        } => Task::Cycle {
            settings,
            rounds,
            table,
        },
        Command::Rtl { settings, image } => ask(Question::Rtl { settings }, image, 1),
        Command::Asm { text } => Task::Assemble { text },
        Command::Work { count } => Task::Work { count },
    }
}
