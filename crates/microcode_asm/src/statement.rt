//! What a line says behind its labels.
ghost use Rattle.std.specs.Prelude.{◌≡◌, ◌<◌, map, position, IfSome, option_and_then};
ghost use Rattle.std.specs.Option.{ForSome, option_map};
ghost use Rattle.microcode_asm.specs.Parts.{is as is_text};
ghost use Rattle.microcode_asm.specs.Statements as said;
ghost use Rattle.microcode_asm.specs.Meaning.{meaning_of, body_of, IsInRange, TakesFlags};

use crate::part::{constant_value, is, is_name, number_up_to};
use microcode::isa::{Body, Micro, Turns, encode};

/// When a branch is taken.
#[derive(Clone, Copy)]
pub enum Branch {
    /// Where the word was zero.
    IfZero,
    /// Where it was not.
    IfNotZero,
    /// In any case.
    Always,
}

/// What a microinstruction with a number does.
#[derive(Clone, Copy)]
enum Access {
    /// Pops into an on-chip word.
    Store,
    /// Pushes an on-chip word.
    Load,
    /// Pushes a constant.
    Push,
}

/// Nothing, a microinstruction or a directive.
#[derive(Clone, Copy)]
pub enum Statement<'a> {
    /// Nothing.
    Nothing,
    /// The word of a microinstruction that names no label.
    Word(u16),
    /// A branch to a label.
    Branch(Branch, &'a [u8]),
    /// The next word is the entry of this opcode.
    Entry(u8),
    /// The next word is where raising begins.
    Raise,
    /// A constant, by its number, has this value.
    Constant(u8, u32),
    /// So often a branch to its own or an earlier address is taken.
    Turns(Turns),
}

/// The names of the operations, in the order of their codes.
const NAMES: &[u8] =
    b"nop pop dup add sub and or xor shl shr ushr mul slt sltu ldo ldo8 ldo16 ldl stl ld0 ld1 ld2 ld3 st0 st1 st2 st3 ldvp stvp ldsp stsp ldjpc stjpc star ldmi stmi stmra stmwa stmwd wait ldmrd stbc jbr jbg ldin stout hltb hltu";

impl<'a> Statement<'a> {
    /// How many words it makes.
    pub fn size(self) -> u32
        ensures { result ≡ said.size_of (meaning_of self.entry) }
    {
        match self {
            Statement::Word(_) | Statement::Branch(..) => 1,
            _ => 0,
        }
    }
}

/// The statement that parts make, if they make one.
pub(crate) fn read_statement<'a>(parts: &[&'a [u8]]) -> Option<Statement<'a>>
    ensures said { option_map meaning_of result ≡ said.statement_of (map (λ p. p.now) parts.now) }
    ensures range { IfSome result (λ s. IsInRange s) }
{
    let [name, parts @ ..] = parts else {
        return Some(Statement::Nothing);
    };
    if is(name, b".entry") {
        read_entry(parts)
    } else if is(name, b".raise") {
        read_raise(parts)
    } else if is(name, b".const") {
        read_constant(parts)
    } else if is(name, b".turns") {
        read_turns(parts)
    } else {
        read_microinstruction(name, parts)
    }
}

fn read_entry<'a>(parts: &[&'a [u8]]) -> Option<Statement<'a>>
    ensures said { option_map meaning_of result ≡ said.entering (map (λ p. p.now) parts.now) }
    ensures range { IfSome result (λ s. IsInRange s) }
{
    match parts {
        [op] => match number_up_to(255, op) {
            Some(op) => Some(Statement::Entry(op as u8)),
            None => None,
        },
        [] => None,
        [_, _, ..] => None,
    }
}

fn read_raise<'a>(parts: &[&'a [u8]]) -> Option<Statement<'a>>
    ensures said { option_map meaning_of result ≡ said.raising (map (λ p. p.now) parts.now) }
    ensures range { IfSome result (λ s. IsInRange s) }
{
    match parts {
        [] => Some(Statement::Raise),
        _ => None,
    }
}

fn read_constant<'a>(parts: &[&'a [u8]]) -> Option<Statement<'a>>
    ensures said { option_map meaning_of result ≡ said.setting (map (λ p. p.now) parts.now) }
    ensures range { IfSome result (λ s. IsInRange s) }
{
    match parts {
        [number, value] => set_constant(number_up_to(31, number), constant_value(value)),
        [] => None,
        [_] => None,
        [_, _, _, ..] => None,
    }
}

fn set_constant<'a>(number: Option<u32>, value: Option<u32>) -> Option<Statement<'a>>
    requires { ForSome number (λ n. n < 32) }
    ensures said { option_map meaning_of result ≡ option_and_then (λ n. option_map (said.constant n) value) number }
    ensures range { IfSome result (λ s. IsInRange s) }
{
    match (number, value) {
        (Some(number), Some(value)) => Some(Statement::Constant(number as u8, value)),
        (None, _) => None,
        (_, None) => None,
    }
}

fn read_turns<'a>(parts: &[&'a [u8]]) -> Option<Statement<'a>>
    ensures said { option_map meaning_of result ≡ said.turning (map (λ p. p.now) parts.now) }
    ensures range { IfSome result (λ s. IsInRange s) }
{
    match parts {
        [count] => match turns_of(count) {
            Some(turns) => Some(Statement::Turns(turns)),
            None => None,
        },
        [] => None,
        [_, _, ..] => None,
    }
}

fn turns_of(count: &[u8]) -> Option<Turns>
    ensures { result ≡ said.turns_of count.now }
{
    if is(count, b"pairs") {
        return Some(Turns::PerPair);
    }
    if is(count, b"entries") {
        return Some(Turns::PerEntry);
    }
    match number_up_to(u32::MAX, count) {
        Some(count) => Some(Turns::Count(count)),
        None => None,
    }
}

fn read_microinstruction<'a>(name: &[u8], parts: &[&'a [u8]]) -> Option<Statement<'a>>
    ensures said { option_map meaning_of result ≡ said.microinstruction name.now (map (λ p. p.now) parts.now) }
    ensures range { IfSome result (λ s. IsInRange s) }
{
    if is(name, b"stm") {
        read_numbered(Access::Store, parts)
    } else if is(name, b"ldm") {
        read_numbered(Access::Load, parts)
    } else if is(name, b"ldi") {
        read_numbered(Access::Push, parts)
    } else if is(name, b"bz") {
        read_branch(Branch::IfZero, parts)
    } else if is(name, b"bnz") {
        read_branch(Branch::IfNotZero, parts)
    } else if is(name, b"jmp") {
        read_branch(Branch::Always, parts)
    } else {
        read_plain(name, parts)
    }
}

/// One with a number from 0 to 31.
fn read_numbered<'a>(access: Access, parts: &[&'a [u8]]) -> Option<Statement<'a>>
    ensures said { option_map meaning_of result ≡ said.numbered (body_of access) (map (λ p. p.now) parts.now) }
    ensures range { IfSome result (λ s. IsInRange s) }
{
    match parts {
        [number, flags @ ..] => match number_up_to(31, number) {
            Some(number) => with_flags(body_at(access, number as u8), flags),
            None => None,
        },
        [] => None,
    }
}

fn body_at(access: Access, number: u8) -> Body
    requires { number < 32 }
    ensures body { result ≡ body_of access number }
    ensures flags { TakesFlags result }
{
    match access {
        Access::Store => Body::Stm(number),
        Access::Load => Body::Ldm(number),
        Access::Push => Body::Ldi(number),
    }
}

/// One with a label, and no flag.
fn read_branch<'a>(how: Branch, parts: &[&'a [u8]]) -> Option<Statement<'a>>
    ensures said { option_map meaning_of result ≡ said.branching how (map (λ p. p.now) parts.now) }
    ensures range { IfSome result (λ s. IsInRange s) }
{
    match parts {
        [label] if is_name(label) => Some(Statement::Branch(how, label)),
        _ => None,
    }
}

/// One that has a code of its own.
fn read_plain<'a>(name: &[u8], flags: &[&'a [u8]]) -> Option<Statement<'a>>
    ensures said { option_map meaning_of result ≡ said.plain name.now (map (λ p. p.now) flags.now) }
    ensures range { IfSome result (λ s. IsInRange s) }
{
    match operation(name) {
        Some(code) => with_flags(Body::Plain(code), flags),
        None => None,
    }
}

/// The code of the operation of this name.
fn operation(name: &[u8]) -> Option<u8>
    ensures code { result ≡ position (λ operation. is_text name.now operation) said.operation_names }
    ensures few { IfSome result (λ code. code < 48) }
{
    match NAMES
        .split(|byte| *byte == b' ')
        .position(|operation| is(name, operation))
    {
        Some(place) => Some(place as u8),
        None => None,
    }
}

/// The microinstruction with these flags behind it: `opd`, then `nxt`.
fn with_flags<'a>(body: Body, flags: &[&'a [u8]]) -> Option<Statement<'a>>
    requires { TakesFlags body }
    ensures said { option_map meaning_of result ≡ said.with_flags body (map (λ p. p.now) flags.now) }
    ensures range { IfSome result (λ s. IsInRange s) }
{
    let (opd, nxt) = match flags {
        [] => (false, false),
        [flag] if is(flag, b"opd") => (true, false),
        [flag] if is(flag, b"nxt") => (false, true),
        [first, second] if is(first, b"opd") && is(second, b"nxt") => (true, true),
        _ => return None,
    };
    Some(Statement::Word(encode(Micro { body, opd, nxt })))
}
