//! What was assembled so far.
ghost use Rattle.std.specs.Prelude.{◌≡◌, ◌<◌, ℕ, [], ◌∷◌, ◌++◌, Some, None, true, false, not, IfOk, OnOk, IfNone, length, map, replicate, slice_index_or};
ghost use Rattle.std.specs.Prelude.{is_some};
ghost use Rattle.std.specs.List.{list_any};
ghost use Rattle.microcode.specs.Isa.Words.{HasRange as IsMicro};
ghost use Rattle.microcode_asm.specs.Parts.{is};
ghost use Rattle.microcode_asm.specs.Statements.{line_of};
ghost use Rattle.microcode_asm.specs.Meaning.{IsInRange, line_meaning, meaning_of};
ghost use Rattle.microcode_asm.specs.Programs.{address, branch_fault, repeats};
ghost use Rattle.microcode_asm.specs.Roms.{branch_to as branching_to, turns_of_branch};
ghost use Rattle.microcode_asm.specs.SoFar.{HasRange, TextHasRange, constant_fault_by, entry_fault_by, kept, line_fault_by, places_by, statement_fault_by};
ghost use Rattle.microcode_asm.specs.SoFar.{text_fault_by, texts, with_branch, with_constant, with_entry, with_line, with_raise, with_statement, with_text};
ghost use Rattle.microcode_asm.specs.SoFar.{with_word};

use crate::AsmKind;
use crate::labels::{Labels, place_of};
use crate::line::{Line, read_line};
use crate::state::Assembly;
use crate::statement::{Branch, Statement};
use base::NoMemory;
use indexmap::IndexSet;
use microcode::isa::{Body, Micro, Turns, encode};
use std::alloc::Global;

impl Assembly {
    /// Of no lines.
    pub(crate) fn new(alloc: Global) -> Result<Self, NoMemory>
        ensures names { IfOk result (λ a. texts a.names.keys ≡ []) }
        ensures words { IfOk result (λ a. a.words.items ≡ []) }
        ensures entries { IfOk result (λ a. a.entries.items ≡ replicate 256 None) }
        ensures raise_entry { IfOk result (λ a. a.raise ≡ None) }
        ensures constants { IfOk result (λ a. a.consts.items ≡ replicate 32 None) }
        ensures turns { IfOk result (λ a. a.turns.items ≡ []) }
        ensures counting { IfOk result (λ a. a.counting ≡ None) }
    {
        Ok(Assembly {
            names: IndexSet::new(alloc),
            words: Vec::new(alloc),
            entries: vec![in alloc; None; 256]?,
            raise: None,
            consts: vec![in alloc; None; 32]?,
            turns: Vec::new(alloc),
            counting: None,
        })
    }

    /// Takes the text of one line more, or answers the first rule that it breaks.
    pub(crate) fn take_text(
        &mut self,
        alloc: Global,
        labels: &Labels,
        text: &[u8],
    ) -> Result<Option<AsmKind>, NoMemory>
        ensures fault { IfOk result (λ fault. fault ≡ text_fault_by (places_by labels.now) (line_of text.now) (kept self.old)) }
        ensures kept { IfOk result (λ fault. IfNone fault (kept self.new ≡ with_text (places_by labels.now) (line_of text.now) (kept self.old))) }
        ensures range { OnOk result (TextHasRange (line_of text.now) (kept self.old)) }
    {
        match read_line(alloc, text)? {
            Some(line) => self.take(alloc, labels, line),
            None => Ok(Some(AsmKind::Form)),
        }
    }

    /// Takes one line more, or answers the first rule that it breaks.
    fn take(
        &mut self,
        alloc: Global,
        labels: &Labels,
        line: Line,
    ) -> Result<Option<AsmKind>, NoMemory>
        requires { IsInRange line.statement }
        ensures fault { IfOk result (λ fault. fault ≡ line_fault_by (places_by labels.now) (line_meaning line.entry) (kept self.old)) }
        ensures kept { IfOk result (λ fault. IfNone fault (kept self.new ≡ with_line (places_by labels.now) (line_meaning line.entry) (kept self.old))) }
        ensures range { OnOk result (repeats (texts self.old.names.keys) (line_meaning line.entry).labels ≡ false
            → HasRange (line_meaning line.entry).statement) }
    {
        if add_names(alloc, &mut self.names, line.labels.as_slice())? {
            return Ok(Some(AsmKind::LabelTwice));
        }
        self.add_statement(labels, line.statement)
    }

    /// Adds a statement, or answers the rule that it breaks.
    fn add_statement(
        &mut self,
        labels: &Labels,
        statement: Statement,
    ) -> Result<Option<AsmKind>, NoMemory>
        requires { IsInRange statement }
        ensures fault { IfOk result (λ fault. fault ≡ statement_fault_by (places_by labels.now) (meaning_of statement.entry) (kept self.old)) }
        ensures kept { IfOk result (λ fault. IfNone fault (kept self.new ≡ with_statement (places_by labels.now) (meaning_of statement.entry)
            (kept self.old))) }
        ensures range { OnOk result (HasRange (meaning_of statement.entry)) }
    {
        match statement {
            Statement::Nothing => Ok(None),
            Statement::Word(bits) => {
                self.add_word(bits)?;
                Ok(None)
            }
            Statement::Branch(how, label) => match place_of(labels, label) {
                Some(to) => self.add_branch(how, to),
                None => Ok(Some(AsmKind::NoLabel)),
            },
            Statement::Entry(op) => Ok(self.add_entry(op)),
            Statement::Raise => Ok(self.add_raise()),
            Statement::Constant(number, value) => Ok(self.add_constant(number, value)),
            Statement::Turns(turns) => {
                self.counting = Some(turns);
                Ok(None)
            }
        }
    }

    /// The address of the next word.
    fn next_address(&self) -> u16
        ensures { result ≡ address (length self.now.words.items) }
    {
        (self.words.len() % 2048) as u16
    }

    fn add_word(&mut self, bits: u16) -> Result<(), NoMemory>
        ensures { OnOk result (kept self.new ≡ with_word bits (kept self.old)) }
    {
        self.words.push(bits)?;
        self.counting = None;
        Ok(())
    }

    fn add_branch(&mut self, how: Branch, to: u16) -> Result<Option<AsmKind>, NoMemory>
        requires { to < 2048 }
        ensures fault { IfOk result (λ fault. fault ≡ branch_fault (Some to) (address (length self.old.words.items)) self.old.counting) }
        ensures kept { IfOk result (λ fault. IfNone fault (kept self.new ≡ with_branch how (Some to) (kept self.old))) }
    {
        let from = self.next_address();
        if let Some(kind) = add_turns(&mut self.turns, self.counting, from, to)? {
            return Ok(Some(kind));
        }
        self.add_word(encode(branch_to(how, to)))?;
        Ok(None)
    }

    fn add_entry(&mut self, op: u8) -> Option<AsmKind>
        ensures fault { result ≡ entry_fault_by (is_some (slice_index_or self.old.entries.items op None)) }
        ensures kept { IfNone result (kept self.new ≡ with_entry op (kept self.old)) }
        ensures range { op < 256 }
    {
        if self.entries[op as usize].is_some() {
            return Some(AsmKind::EntryTwice);
        }
        self.entries[op as usize] = Some(self.next_address());
        None
    }

    fn add_raise(&mut self) -> Option<AsmKind>
        ensures fault { result ≡ entry_fault_by (is_some self.old.raise) }
        ensures kept { IfNone result (kept self.new ≡ with_raise (kept self.old)) }
    {
        if self.raise.is_some() {
            return Some(AsmKind::EntryTwice);
        }
        self.raise = Some(self.next_address());
        None
    }

    fn add_constant(&mut self, number: u8, value: u32) -> Option<AsmKind>
        requires { number < 32 }
        ensures fault { result ≡ constant_fault_by (is_some (slice_index_or self.old.consts.items number None)) }
        ensures kept { IfNone result (kept self.new ≡ with_constant number value (kept self.old)) }
    {
        if self.consts[number as usize].is_some() {
            return Some(AsmKind::ConstTwice);
        }
        self.consts[number as usize] = Some(value);
        None
    }
}

/// Adds the names of labels, or answers that one is there already or stands twice.
fn add_names(
    alloc: Global,
    names: &mut IndexSet<Vec<u8>>,
    labels: &[&[u8]],
) -> Result<bool, NoMemory>
    ensures again { IfOk result (λ again. again ≡ repeats (texts names.old.keys) (map (λ label. label.now) labels.now)) }
    ensures kept { IfOk result (λ again. again ≡ false → texts names.new.keys ≡ texts names.old.keys ++ map (λ label. label.now) labels.now) }
{
    for label in labels {
        if !add_name(alloc, names, label)? {
            return Ok(true);
        }
    }
    Ok(false)
}

/// Adds the name of a label, and answers whether it was not there.
fn add_name(alloc: Global, names: &mut IndexSet<Vec<u8>>, label: &[u8]) -> Result<bool, NoMemory>
    ensures added { IfOk result (λ added. added ≡ not (list_any (is label.now) (texts names.old.keys))) }
    ensures kept { IfOk result (λ added. added ≡ true → texts names.new.keys ≡ texts names.old.keys ++ label.now ∷ []) }
{
    let name = Vec::from_slice(alloc, label)?;
    let added = names.insert(name)?;
    Ok(added)
}

/// Adds the turns that count for a branch between these addresses, or answers that it has to have some.
fn add_turns(
    turns: &mut Vec<(u16, Turns)>,
    counting: Option<Turns>,
    from: u16,
    to: u16,
) -> Result<Option<AsmKind>, NoMemory>
    ensures fault { IfOk result (λ fault. fault ≡ branch_fault (Some to) from counting) }
    ensures turns { IfOk result (λ fault. IfNone fault (turns.new.items ≡ turns.old.items ++ turns_of_branch (Some to) from counting)) }
{
    if to > from {
        return Ok(None);
    }
    match counting {
        Some(count) => {
            turns.push((from, count))?;
            Ok(None)
        }
        None => Ok(Some(AsmKind::NoTurns)),
    }
}

fn branch_to(how: Branch, to: u16) -> Micro
    requires { to < 2048 }
    ensures branch { result ≡ branching_to how to }
    ensures range { IsMicro result.body result }
{
    let body = match how {
        Branch::IfZero => Body::Bz(to),
        Branch::IfNotZero => Body::Bnz(to),
        Branch::Always => Body::Jmp(to),
    };
    Micro {
        body,
        opd: false,
        nxt: false,
    }
}
