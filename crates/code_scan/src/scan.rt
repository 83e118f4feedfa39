//! What is found in the code of a method.

ghost use Rattle.std.specs.Prelude.{◌≡◌, ℕ, IfOk, map};
ghost use Rattle.std.specs.List.Sorted.{IsStrictlyIncreasing};
ghost use Rattle.bytecode_model.specs.Program.{Program};
ghost use Rattle.method_flow.specs.Flow.{IsCodedOf};
ghost use Rattle.code_scan.specs.Lines.{ArePushed, IsIntBefore, IsValueAt};
ghost use Rattle.code_scan.specs.Scans.{IsScanOf, is_named, line_before};

use crate::naming::{ends, named_places};
use base::NoMemory;
use method_flow::FlowMethod;
use opcodes::starts;
use std::alloc::Global;
use std::marker::Model;

/// An int that the instruction at a place pushes.
#[derive(Clone, Copy)]
pub struct PushedInt {
    pub place: u32,
    pub value: i32,
}

/// Which places of a method's code are named by instructions or handlers, and which instruction ends at each, asked in constant
/// time.
#[derive(Drop)]
pub struct CodeScan {
    named: Vec<bool>,
    before: Vec<Option<u32>>,
}

impl Model for CodeScan {
    ghost use Rattle.code_scan.specs.Scans.{Scanned};

    ghost Value = { Scanned };

    ghost view = { λ s. record { named = s.named.items; before = s.before.items } };
}

/// The value that is pushed at a place, among those that rise by place.
fn value_at(pushed: &[PushedInt], place: u32) -> Option<i32>
    requires { IsStrictlyIncreasing (map (λ x. x.place) pushed.now) }
    ensures { IsValueAt pushed.now place result }
{
    match pushed.binary_search_by_key(&place, |x| x.place) {
        Ok(i) => Some(pushed[i].value),
        Err(_) => None,
    }
}

impl CodeScan {
    /// What is found in the method's code, in time that grows with its length.
    pub fn new(alloc: Global, method: &FlowMethod) -> Result<Self, NoMemory>
        ensures { IfOk result (λ s. (P : Program) (m : ℕ) → IsCodedOf P m method.now → IsScanOf P m s) }
    {
        crate::laws::names_are_read();
        let code = method.code();
        let starts = starts(alloc, code)?;
        let named = named_places(alloc, method, &starts)?;
        let before = ends(alloc, code, &starts)?;
        Ok(CodeScan { named, before })
    }

    /// Whether an instruction or a handler names the place.
    pub fn is_named(&self, place: u32) -> bool
        ensures { result ≡ is_named self.now place }
    {
        let index = place as usize;
        index < self.named.len() && self.named[index]
    }

    /// The place of the instruction directly before the place.
    pub fn before(&self, place: u32) -> Option<u32>
        ensures { result ≡ line_before self.now place }
    {
        let index = place as usize;
        if index < self.before.len() {
            self.before[index]
        } else {
            None
        }
    }

    /// The int that the instruction directly before the place pushes, where the place isn't named. `pushed` has the ints that
    /// instructions of the method push.
    pub fn pushed_before(&self, place: u32, pushed: &[PushedInt]) -> Option<i32>
        requires { IsStrictlyIncreasing (map (λ x. x.place) pushed.now) }
        ensures { (P : Program) (m : ℕ) → IsScanOf P m self.now → ArePushed P m pushed.now → IsIntBefore P m place result }
    {
        code_lines::laws::lines_follow_one_another();
        code_lines::laws::one_stands_before();
        if self.is_named(place) {
            return None;
        }
        value_at(pushed, self.before(place)?)
    }
}
