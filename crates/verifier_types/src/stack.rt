//! What is put on operand stacks of types and taken off (JVM Specification SE 8, 4.10.1.4).
ghost use Rattle.std.specs.Prelude.{◌≡◌, ◌∷◌, ◌++◌, [], false, map, if◌then◌else◌, Some, None, IfOk, OnOk};
ghost use Rattle.std.specs.Option.{option_map};
ghost use Rattle.bytecode_model.specs.Rows.{Two};
ghost use Rattle.bytecode_model.specs.Slots.{split, shuffled, shuffle};
ghost use Rattle.program_tables.specs.Resolved.{resolved};
ghost use Rattle.bytecode_typing.specs.Types.{is_long_type, stack_words, substituted, holds_made};
ghost use Rattle.bytecode_typing.specs.Assignable.{is_assignable_item};
ghost use Rattle.bytecode_typing.specs.Tests.{all_two};
ghost use Rattle.verifier_types.specs.Seen.{number_seen, type_seen, stack_seen, width_seen, form_seen, group_seen};
ghost use Rattle.verifier_types.specs.Frame.{operands_seen};
ghost use Rattle.verifier_types.specs.Taken.{item_taken, reference_taken, numbers_taken};

use crate::assignable::{are_assignable_items, is_assignable_item};
use crate::operands::Operands;
use crate::slices::{holds_made, substitute, words_of};
use crate::types::{NumberType, VarType};
use crate::words::{Form, Group, Width};
use base::NoMemory;
use class_hierarchy::Hierarchy;
use std::alloc::Global;

impl Operands {
    /// The stack of these items, from its bottom to its top.
    pub fn new(items: Vec<VarType>) -> Self
        ensures { operands_seen result ≡ stack_seen items.items }
    {
        let words = words_of(&items);
        Operands { items, words }
    }

    /// How many words they take.
    pub fn words(&self) -> usize
        ensures { result ≡ stack_words (operands_seen self.now) }
    {
        self.words
    }

    /// Puts a type on top.
    pub fn push(&mut self, item: VarType) -> Result<(), NoMemory>
        ensures { OnOk result (operands_seen self.new ≡ type_seen item ∷ operands_seen self.old) }
    {
        self.items.push(item)?;
        self.words += item.words();
        Ok(())
    }

    /// Takes the topmost type off. Where there is none nothing changes.
    pub fn pop(&mut self) -> Option<VarType>
        ensures { option_map (λ t. (type_seen t, operands_seen self.new)) result ≡ item_taken (operands_seen self.old) }
    {
        let item = self.items.pop()?;
        self.words -= item.words();
        Some(item)
    }

    /// Takes the topmost type off, which is that of a reference, of null or of what isn't initialised.
    pub fn pop_reference(&mut self) -> Option<VarType>
        ensures { option_map (λ t. (type_seen t, operands_seen self.new)) result ≡ reference_taken (operands_seen self.old) }
    {
        let item = self.pop()?;
        if item.is_reference() {
            Some(item)
        } else {
            None
        }
    }

    /// Takes the types of these numbers off, the first of which is on top, and says whether they were there.
    pub fn pop_numbers(&mut self, numbers: &[NumberType]) -> bool
        ensures { (if result then Some (operands_seen self.new) else None) ≡ numbers_taken (map number_seen numbers.now) (operands_seen self.old) }
    {
        for number in numbers {
            match self.pop() {
                Some(item) => {
                    if !item.is_number(*number) {
                        return false;
                    }
                }
                None => return false,
            }
        }
        true
    }

    /// Takes off two words: a `long`, or two items of one word each.
    fn pop_two(&mut self) -> Option<Group>
        ensures { option_map (λ g. (group_seen g, operands_seen self.new)) result ≡ split is_long_type Two (operands_seen self.old) }
    {
        let top = self.pop()?;
        if top.is_long() {
            return Some(Group::Item(top));
        }
        let second = self.pop()?;
        if second.is_long() {
            return None;
        }
        Some(Group::Pair(top, second))
    }

    /// Takes off so many words, where no `long` is split.
    fn pop_words(&mut self, width: Width) -> Option<Group>
        ensures { option_map (λ g. (group_seen g, operands_seen self.new)) result ≡ split is_long_type (width_seen width) (operands_seen self.old) }
    {
        match width {
            Width::Zero => Some(Group::Nothing),
            Width::One => {
                let item = self.pop()?;
                if item.is_long() {
                    None
                } else {
                    Some(Group::Item(item))
                }
            }
            Width::Two => self.pop_two(),
        }
    }

    /// Puts items on that were taken off together.
    fn push_group(&mut self, group: Group) -> Result<(), NoMemory>
        ensures { OnOk result (operands_seen self.new ≡ group_seen group ++ operands_seen self.old) }
    {
        match group {
            Group::Nothing => {}
            Group::Item(item) => self.push(item)?,
            Group::Pair(top, second) => {
                self.push(second)?;
                self.push(top)?;
            }
        }
        Ok(())
    }

    /// Puts on what the topmost groups become.
    fn push_shuffled(&mut self, form: Form, upper: Group, lower: Group) -> Result<(), NoMemory>
        ensures { OnOk result (operands_seen self.new ≡ shuffled (form_seen form) (group_seen upper) (group_seen lower) (operands_seen self.old)) }
    {
        match form {
            Form::Drop => {}
            Form::Copy => {
                self.push_group(upper)?;
                self.push_group(lower)?;
                self.push_group(upper)?;
            }
            Form::Swap => {
                self.push_group(upper)?;
                self.push_group(lower)?;
            }
        }
        Ok(())
    }

    /// Drops, copies or exchanges the topmost words, and says whether they were there and no `long` was split.
    pub fn shuffle(&mut self, form: Form, upper: Width, lower: Width) -> Result<bool, NoMemory>
        ensures { IfOk result (λ done. (if done then Some (operands_seen self.new) else None) ≡ shuffle is_long_type (form_seen form) (width_seen upper)
            (width_seen lower) (operands_seen self.old)) }
    {
        let first = match self.pop_words(upper) {
            Some(group) => group,
            None => return Ok(false),
        };
        let second = match self.pop_words(lower) {
            Some(group) => group,
            None => return Ok(false),
        };
        self.push_shuffled(form, first, second)?;
        Ok(true)
    }

    /// The same stack once more.
    pub fn copied(&self, alloc: Global) -> Result<Self, NoMemory>
        ensures { IfOk result (λ copy. operands_seen copy ≡ operands_seen self.now) }
    {
        Ok(Operands {
            items: self.items.to_vec(alloc)?,
            words: self.words,
        })
    }

    /// Whether it holds what the `new` at a place made.
    pub fn holds_made(&self, place: u32) -> bool
        ensures { result ≡ holds_made place (operands_seen self.now) }
    {
        holds_made(&self.items, place)
    }

    /// Puts one type in the place of each uninitialised type `old`.
    pub fn substitute(&mut self, old: VarType, new: VarType)
        requires { is_long_type (type_seen new) ≡ false }
        ensures { operands_seen self.new ≡ map (substituted (type_seen old) (type_seen new)) (operands_seen self.old) }
    {
        substitute(&mut self.items, old, new);
    }

    /// Whether the items may stand for those of another.
    pub fn are_assignable(&self, classes: &Hierarchy, other: &Operands) -> bool
        ensures { result ≡ all_two (is_assignable_item (resolved classes.now)) (operands_seen self.now) (operands_seen other.now) }
    {
        are_assignable_items(classes, &self.items, &other.items)
    }

    /// Whether one item may stand for all those here.
    pub fn takes_one(&self, classes: &Hierarchy, item: VarType) -> bool
        ensures { result ≡ all_two (is_assignable_item (resolved classes.now)) (type_seen item ∷ []) (operands_seen self.now) }
    {
        self.items.len() == 1 && is_assignable_item(classes, item, self.items[0])
    }
}
