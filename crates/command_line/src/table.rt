//! The table of commands and their options.
ghost use Rattle.std.specs.Prelude.{◌≡◌, ◌∷◌, []};
ghost use Rattle.std.specs.List.{list_any};
ghost use Rattle.command_line.specs.Command.{is_flag};
ghost use Rattle.command_line.specs.Table.{value_of_name, verb_named, name_named, has_name, name_of, same_name, bound_names, machine_names};

/// What a command does.
#[derive(Clone, Copy)]
pub(crate) enum Verb {
    Link,
    Run,
    Trace,
    Profile,
    Bound,
    Report,
    Plan,
    Cycle,
    Check,
    Loops,
    Headers,
    /// What a run needs of memory.
    Need,
    /// The machine as a circuit.
    Rtl,
    Asm,
    Work,
}

/// An option.
#[derive(Clone, Copy)]
pub(crate) enum Name {
    Main,
    Method,
    All,
    Shapes,
    Cycles,
    Stack,
    Memory,
    Blocks,
    BlockWords,
    Read,
    Write,
    Micro,
    Rounds,
    Further,
    /// Facts of how often places are visited.
    Facts,
}

/// The command that a word names.
pub(crate) fn verb_named(word: &str) -> Option<Verb>
    ensures { result ≡ verb_named word.now }
{
    if word == "link" {
        Some(Verb::Link)
    } else if word == "run" {
        Some(Verb::Run)
    } else if word == "trace" {
        Some(Verb::Trace)
    } else if word == "profile" {
        Some(Verb::Profile)
    } else if word == "bound" {
        Some(Verb::Bound)
    } else if word == "report" {
        Some(Verb::Report)
    } else if word == "plan" {
        Some(Verb::Plan)
    } else if word == "cycle" {
        Some(Verb::Cycle)
    } else if word == "check" {
        Some(Verb::Check)
    } else if word == "loops" {
        Some(Verb::Loops)
    } else if word == "headers" {
        Some(Verb::Headers)
    } else if word == "memory" {
        Some(Verb::Need)
    } else if word == "rtl" {
        Some(Verb::Rtl)
    } else if word == "asm" {
        Some(Verb::Asm)
    } else if word == "work" {
        Some(Verb::Work)
    } else {
        None
    }
}

/// The option that a word names.
fn name_named(word: &str) -> Option<Name>
    ensures { result ≡ name_named word.now }
{
    if word == "--main" {
        Some(Name::Main)
    } else if word == "--method" {
        Some(Name::Method)
    } else if word == "--all" {
        Some(Name::All)
    } else if word == "--shapes" {
        Some(Name::Shapes)
    } else if word == "--cycles" {
        Some(Name::Cycles)
    } else if word == "--stack" {
        Some(Name::Stack)
    } else if word == "--memory" {
        Some(Name::Memory)
    } else if word == "--blocks" {
        Some(Name::Blocks)
    } else if word == "--block-words" {
        Some(Name::BlockWords)
    } else if word == "--read" {
        Some(Name::Read)
    } else if word == "--write" {
        Some(Name::Write)
    } else if word == "--micro" {
        Some(Name::Micro)
    } else if word == "--rounds" {
        Some(Name::Rounds)
    } else if word == "--further" {
        Some(Name::Further)
    } else if word == "--facts" {
        Some(Name::Facts)
    } else {
        None
    }
}

/// Whether a command has an option.
fn has_name(verb: Verb, name: Name) -> bool
    ensures { result ≡ has_name verb name }
{
    match verb {
        Verb::Link => matches!(name, Name::Main),
        Verb::Run | Verb::Profile => is_of_run(name),
        Verb::Trace => matches!(name, Name::Micro) || is_of_run(name),
        Verb::Bound => is_of_methods(name) || is_of_bound(name),
        Verb::Report => matches!(name, Name::Method) || is_of_bound(name),
        Verb::Plan => matches!(name, Name::Rounds) || is_of_bound(name),
        Verb::Cycle => matches!(name, Name::Rounds) || is_of_run(name),
        Verb::Check => matches!(name, Name::Facts) || is_of_bound(name),
        Verb::Loops => matches!(name, Name::Further),
        Verb::Rtl => is_of_machine(name),
        Verb::Headers | Verb::Need | Verb::Asm | Verb::Work => false,
    }
}

/// Whether it says of which methods, and by which facts, bounds are asked for.
fn is_of_methods(name: Name) -> bool
    ensures { result ≡ list_any (same_name name) (Name.Method ∷ Name.All ∷ Name.Shapes ∷ Name.Facts ∷ []) }
{
    matches!(name, Name::Method | Name::All | Name::Shapes | Name::Facts)
}

/// Whether it is an option of `run`.
fn is_of_run(name: Name) -> bool
    ensures { result ≡ has_name Verb.Run name }
{
    matches!(name, Name::Cycles) || is_of_machine(name)
}

/// Whether it says what a machine has.
fn is_of_machine(name: Name) -> bool
    ensures { result ≡ list_any (same_name name) machine_names }
{
    matches!(name, Name::Stack | Name::Memory) || is_of_bound(name)
}

/// Whether it is one of the four that a bound depends on.
fn is_of_bound(name: Name) -> bool
    ensures { result ≡ list_any (same_name name) bound_names }
{
    matches!(
        name,
        Name::Blocks | Name::BlockWords | Name::Read | Name::Write
    )
}

/// Whether an option takes no value.
pub(crate) fn is_flag(name: Name) -> bool
    ensures { result ≡ is_flag (value_of_name name) }
{
    matches!(name, Name::Micro | Name::All | Name::Shapes | Name::Further)
}

/// The option of a command that a word names.
pub(crate) fn name_of(verb: Verb, word: &str) -> Option<Name>
    ensures { result ≡ name_of verb word.now }
{
    let name = name_named(word)?;
    if has_name(verb, name) {
        Some(name)
    } else {
        None
    }
}
