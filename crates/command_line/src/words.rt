//! The command that the words give.
ghost use Rattle.std.specs.Prelude.{◌≡◌, ◌+◌, ◌<◌, ◌≤◌, ◌^◌, ◌∷◌, length, IfOk};
ghost use Rattle.command_line.specs.Command.{texts, is_option, none_given, exactly_at, at_most_at, at_least_at, made, operands_at, operands_stop};
ghost use Rattle.command_line.specs.Command.{operand_number, least_operands, words_at, command_of};
ghost use Rattle.command_line.specs.Given.{values_of};
ghost use Rattle.command_line.specs.Range.{HasNumbersInRange, AreThere, OperandsFollow};
ghost use Rattle.command_line.specs.Table.{Number, operands_of};

use crate::command::Command;
use crate::given::{Given, NONE_GIVEN, meaning, number_from};
use crate::table::{Verb, is_flag, name_of, verb_named};

/// Whether a word begins as an option does.
fn is_option(word: &str) -> bool
    ensures { result ≡ is_option word.now }
{
    matches!(word.as_bytes(), [b'-', b'-', ..])
}

/// The command of the words. Else the number of the first word at which no command can go on, or the number of words where they
/// end early.
pub fn read_words(words: &[&str]) -> Result<Command, u32>
    requires { length words.now < 2 ^ 32 }
    ensures exact { result ≡ command_of (texts words.now) }
    ensures ranges { IfOk result HasNumbersInRange }
    ensures there { IfOk result (AreThere (length words.now)) }
    ensures order { IfOk result OperandsFollow }
{
    let [word, rest @ ..] = words else {
        return Err(0);
    };
    let Some(verb) = verb_named(word) else {
        return Err(0);
    };
    read_options(verb, rest)
}

/// The command, whose options and operands are these words, from word 1 on.
fn read_options(verb: Verb, words: &[&str]) -> Result<Command, u32>
    requires { length words.now + 1 < 2 ^ 32 }
    ensures { result ≡ words_at None verb 1 none_given (texts words.now) }
{
    let mut given = NONE_GIVEN;
    let mut k = 1;
    let mut rest = words;
    while let [word, after @ ..] = rest {
        if !is_option(word) {
            return read_operands(verb, &given, k, word, after);
        }
        let Some(name) = name_of(verb, word) else {
            return Err(k);
        };
        if given.is_taken(name) {
            return Err(k);
        }
        if is_flag(name) {
            given = given.with(name, 1);
            k += 1;
            rest = after;
            continue;
        }
        let [value, more @ ..] = after else {
            return Err(k + 1);
        };
        let Some(n) = meaning(name, k + 1, value) else {
            return Err(k + 1);
        };
        given = given.with(name, n);
        k += 2;
        rest = more;
    }
    Err(k)
}

/// The command, whose operands are these words, from word `k` on.
fn read_operands(
    verb: Verb,
    given: &Given,
    k: u32,
    operand: &str,
    rest: &[&str],
) -> Result<Command, u32>
    requires { k + 1 + length rest.now < 2 ^ 32 }
    ensures { result ≡ operands_at verb (values_of given.now) k operand.now (texts rest.now) }
{
    if !given.has_required(verb) {
        return Err(k);
    }
    match operands_stop(verb, k, operand, rest) {
        Some(at) => Err(at),
        None => Ok(made(verb, given, k, operand_number(verb, operand, rest))),
    }
}

/// The first word at which the operands stop being those of the command; word `k` is the first of them.
fn operands_stop(verb: Verb, k: u32, operand: &str, rest: &[&str]) -> Option<u32>
    requires { k + 1 + length rest.now < 2 ^ 32 }
    ensures exact { result ≡ operands_stop (operands_of verb) k operand.now (texts rest.now) }
    // Where they don't stop, as many are there as the command has.
    ensures enough { result ≡ None → least_operands (operands_of verb) ≤ 1 + length rest.now }
{
    match verb {
        Verb::Work => one_number(k, operand, rest),
        Verb::Link => at_least(k, 1, operand, rest),
        Verb::Cycle => at_least(k, 2, operand, rest),
        Verb::Plan => at_least(k, 3, operand, rest),
        Verb::Run | Verb::Trace | Verb::Loops | Verb::Rtl | Verb::Asm => {
            exactly(k, 1, operand, rest)
        }
        Verb::Profile | Verb::Bound | Verb::Report => exactly(k, 2, operand, rest),
        Verb::Headers => at_most(k, 2, operand, rest),
        Verb::Check | Verb::Need => exactly(k, 3, operand, rest),
    }
}

/// The number that the operand is, where it is one, and how many operands there are, where the command leaves that open.
fn operand_number(verb: Verb, operand: &str, rest: &[&str]) -> u32
    requires { 1 + length rest.now < 2 ^ 32 }
    ensures { result ≡ operand_number (operands_of verb) operand.now (texts rest.now) }
{
    match verb {
        Verb::Work => match number_from(1, 1000, operand) {
            Some(count) => count as u32,
            None => 0,
        },
        Verb::Headers => 1 + rest.len() as u32,
        Verb::Link
        | Verb::Run
        | Verb::Trace
        | Verb::Profile
        | Verb::Bound
        | Verb::Report
        | Verb::Plan
        | Verb::Cycle
        | Verb::Check
        | Verb::Loops
        | Verb::Need
        | Verb::Rtl
        | Verb::Asm => 0,
    }
}

/// The first word at which the operands aren't one number from 1 to 1000; word `k` is the first of them.
fn one_number(k: u32, operand: &str, rest: &[&str]) -> Option<u32>
    requires { k + 1 + length rest.now < 2 ^ 32 }
    ensures { result ≡ operands_stop (Number 1 1000) k operand.now (texts rest.now) }
{
    match number_from(1, 1000, operand) {
        Some(_) => { if rest.is_empty() { None } else { Some(k + 1) } }
        None => Some(k),
    }
}

/// The first word at which the operands aren't so many, of which none is empty; word `k` is the first of them.
fn exactly(k: u32, count: u32, operand: &str, rest: &[&str]) -> Option<u32>
    requires some { 0 < count }
    requires few { k + 1 + length rest.now < 2 ^ 32 }
    ensures exact { result ≡ exactly_at k count (operand.now ∷ texts rest.now) }
    ensures enough { result ≡ None → count ≡ 1 + length rest.now }
{
    if operand.is_empty() {
        Some(k)
    } else {
        no_operand(k + 1, count - 1, rest)
    }
}

/// The first of these words, from word `k` on, at which they aren't so many operands, of which none is empty.
fn no_operand(k: u32, count: u32, words: &[&str]) -> Option<u32>
    requires { k + length words.now < 2 ^ 32 }
    ensures exact { result ≡ exactly_at k count (texts words.now) }
    ensures enough { result ≡ None → count ≡ length words.now }
{
    let mut at = k;
    let mut left = count;
    for word in words {
        if left == 0 || word.is_empty() {
            return Some(at);
        }
        at += 1;
        left -= 1;
    }
    if left == 0 { None } else { Some(at) }
}

/// The first word at which the operands aren't so many at most, of which none is empty; word `k` is the first of them.
fn at_most(k: u32, count: u32, operand: &str, rest: &[&str]) -> Option<u32>
    requires some { 0 < count }
    requires few { k + 1 + length rest.now < 2 ^ 32 }
    ensures { result ≡ at_most_at k count (operand.now ∷ texts rest.now) }
{
    if operand.is_empty() {
        Some(k)
    } else {
        past_most(k + 1, count - 1, rest)
    }
}

/// The first of these words, from word `k` on, that is one too many, or is empty.
fn past_most(k: u32, count: u32, words: &[&str]) -> Option<u32>
    requires { k + length words.now < 2 ^ 32 }
    ensures { result ≡ at_most_at k count (texts words.now) }
{
    let mut at = k;
    let mut left = count;
    for word in words {
        if left == 0 || word.is_empty() {
            return Some(at);
        }
        at += 1;
        left -= 1;
    }
    None
}

/// The first word at which the operands aren't so many or more, of which none is empty; word `k` is the first of them.
fn at_least(k: u32, count: u32, operand: &str, rest: &[&str]) -> Option<u32>
    requires some { 0 < count }
    requires few { k + 1 + length rest.now < 2 ^ 32 }
    ensures exact { result ≡ at_least_at k count (operand.now ∷ texts rest.now) }
    ensures enough { result ≡ None → count ≤ 1 + length rest.now }
{
    if operand.is_empty() {
        Some(k)
    } else {
        too_few(k + 1, count - 1, rest)
    }
}

/// The first of these words, from word `k` on, that is empty, or where they end if they are too few.
fn too_few(k: u32, count: u32, words: &[&str]) -> Option<u32>
    requires { k + length words.now < 2 ^ 32 }
    ensures exact { result ≡ at_least_at k count (texts words.now) }
    ensures enough { result ≡ None → count ≤ length words.now }
{
    let mut at = k;
    let mut left = count;
    for word in words {
        if word.is_empty() {
            return Some(at);
        }
        at += 1;
        left = left.saturating_sub(1);
    }
    if left == 0 { None } else { Some(at) }
}

/// The command whose first operand is word `k`; `count` is the number that it is, or how many operands there are.
fn made(verb: Verb, given: &Given, k: u32, count: u32) -> Command
    requires { k + least_operands (operands_of verb) ≤ 2 ^ 32 }
    ensures { result ≡ made verb (values_of given.now) k count }
{
    match verb {
        Verb::Link => Command::Link {
            main: given.main.unwrap_or(0),
            first: k,
        },
        Verb::Run => Command::Run {
            settings: given.settings(),
            image: k,
        },
        Verb::Trace => Command::Trace {
            settings: given.settings(),
            micro: given.micro.is_some(),
            image: k,
        },
        Verb::Profile => Command::Profile {
            settings: given.settings(),
            image: k,
            bounds: k + 1,
        },
        Verb::Bound => bound(given, k),
        Verb::Report => report(given, k),
        Verb::Plan => plan(given, k),
        Verb::Cycle => cycle(given, k),
        Verb::Check => check(given, k),
        Verb::Loops => loops(given, k),
        Verb::Headers => Command::Headers {
            image: k,
            operands: count,
        },
        Verb::Need => Command::Memory {
            image: k,
            bounds: k + 1,
            sizes: k + 2,
        },
        Verb::Rtl => rtl(given, k),
        Verb::Asm => Command::Asm { text: k },
        Verb::Work => Command::Work { count },
    }
}

/// The machine with an image as a circuit; word `k` is the image.
fn rtl(given: &Given, k: u32) -> Command
    ensures { result ≡ made Verb.Rtl (values_of given.now) k 0 }
{
    Command::Rtl {
        settings: given.settings(),
        image: k,
    }
}

/// The bounds of all methods, or the bound of one: in each shape, by facts or without; word `k` is the image.
fn bound(given: &Given, k: u32) -> Command
    requires { k + 1 < 2 ^ 32 }
    ensures { result ≡ made Verb.Bound (values_of given.now) k 0 }
{
    if given.all.is_some() {
        Command::BoundAll {
            settings: given.settings(),
            image: k,
            bounds: k + 1,
        }
    } else if given.shapes.is_some() {
        Command::BoundShapes {
            settings: given.settings(),
            method: given.method.unwrap_or(0),
            image: k,
            bounds: k + 1,
        }
    } else if given.facts.is_some() {
        Command::BoundWith {
            settings: given.settings(),
            method: given.method.unwrap_or(0),
            facts: given.facts.unwrap_or(0),
            image: k,
            bounds: k + 1,
        }
    } else {
        Command::Bound {
            settings: given.settings(),
            method: given.method.unwrap_or(0),
            image: k,
            bounds: k + 1,
        }
    }
}

/// The report of a method's bound; word `k` is the image.
fn report(given: &Given, k: u32) -> Command
    requires { k + 1 < 2 ^ 32 }
    ensures { result ≡ made Verb.Report (values_of given.now) k 0 }
{
    Command::Report {
        settings: given.settings(),
        method: given.method.unwrap_or(0),
        image: k,
        bounds: k + 1,
    }
}

/// The plan of a table of slots, which is word `k`.
fn plan(given: &Given, k: u32) -> Command
    requires { k + 2 < 2 ^ 32 }
    ensures { result ≡ made Verb.Plan (values_of given.now) k 0 }
{
    Command::Plan {
        settings: given.settings(),
        rounds: given.rounds.unwrap_or(0),
        table: k,
        bounds: k + 1,
        first: k + 2,
    }
}

/// The rounds of a table of slots, which is word `k`.
fn cycle(given: &Given, k: u32) -> Command
    requires { k + 1 < 2 ^ 32 }
    ensures { result ≡ made Verb.Cycle (values_of given.now) k 0 }
{
    Command::Cycle {
        settings: given.settings(),
        rounds: given.rounds.unwrap_or(0),
        table: k,
        first: k + 1,
    }
}

/// The loops that count of the image that is word `k`.
fn loops(given: &Given, k: u32) -> Command
    ensures { result ≡ made Verb.Loops (values_of given.now) k 0 }
{
    Command::Loops {
        further: given.further.is_some(),
        image: k,
    }
}

/// The check of a certificate, by facts where they are given; word `k` is the image.
fn check(given: &Given, k: u32) -> Command
    requires { k + 2 < 2 ^ 32 }
    ensures { result ≡ made Verb.Check (values_of given.now) k 0 }
{
    if given.facts.is_some() {
        Command::CheckWith {
            settings: given.settings(),
            facts: given.facts.unwrap_or(0),
            image: k,
            bounds: k + 1,
            certificate: k + 2,
        }
    } else {
        Command::Check {
            settings: given.settings(),
            image: k,
            bounds: k + 1,
            certificate: k + 2,
        }
    }
}
