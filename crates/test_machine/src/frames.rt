//! The frames of a machine at a boundary, read from its words.

use jop_core::{Machine, places};
use std::alloc::Global;
use test_rows::{RowFault, numbers};

/// What the frames' words rest on: the words of the image, and the places of its methods by number.
#[derive(Drop)]
pub struct Layout {
    pub image: Vec<u32>,
    pub methods: Vec<u32>,
}

/// How many words a frame saves: its caller's SP, the place that its caller goes on at, its caller's VP, pool and method.
const SAVED: usize = 5;

/// The bytes of an invoke instruction of a static method.
const INVOKE: u32 = 3;

impl Layout {
    /// The words of an image, with boot's method alone.
    pub fn new(alloc: Global, words: &[&str]) -> Result<Layout, RowFault> {
        let image: Vec<u32> = numbers(alloc, words)?;
        let mut methods = Vec::new(alloc);
        if let Some(place) = image.get(1) {
            methods.push(*place)?;
        }
        Ok(Layout { image, methods })
    }

    /// How many local variables the method at a place has.
    fn max_locals(&self, place: u32) -> Option<usize> {
        Some(*self.image.get(place as usize)? as usize >> 16)
    }

    /// Whether the method with the number that is written stands at a place.
    fn is_method(&self, place: u32, number: &str) -> bool {
        let Ok(number) = number.parse::<u32>() else {
            return false;
        };
        match self.methods.get(number as usize) {
            Some(method) => *method == place,
            None => false,
        }
    }
}

/// A frame as it stands among the words of the stack.
#[derive(Clone, Copy)]
struct Frame {
    method: u32,
    pc: u32,
    // Where its local variables begin, and where its operands end.
    first: usize,
    end: usize,
}

/// Whether a number is the one that is written.
fn is_number(number: u32, written: &str) -> bool {
    match written.parse::<u32>() {
        Ok(parsed) => parsed == number,
        Err(_) => false,
    }
}

/// Whether a word is the one that is written, or any.
pub fn is_word(word: u32, written: &str) -> bool {
    written == "?" || is_number(word, written)
}

fn are_words(words: &[u32], written: &[&str]) -> bool {
    for (word, text) in words.iter().zip(written) {
        if !is_word(*word, text) {
            return false;
        }
    }
    words.len() == written.len()
}

/// Whether the words of local variables and of operands are those that are written, with a `:` between them.
fn are_values(locals: &[u32], operands: &[u32], written: &[&str]) -> Option<bool> {
    let middle = written.iter().position(|text| *text == ":")?;
    let (before, behind) = (written.get(..middle)?, written.get(middle..)?.get(1..)?);
    Some(are_words(locals, before) && are_words(operands, behind))
}

/// The frame that goes on at the words that its callee saved, and ends where the callee begins.
fn caller_of(saved: &[u32], end: usize) -> Option<Frame> {
    let [_, next, vp, _, method] = saved else {
        return None;
    };
    Some(Frame {
        method: *method,
        pc: next.wrapping_sub(INVOKE),
        first: vp.wrapping_sub(places::STACK) as usize,
        end,
    })
}

/// The caller of a frame, where the frame is the one that is written.
fn caller_if(layout: &Layout, words: &[u32], frame: Frame, written: &[&str]) -> Option<Frame> {
    let [method, pc, values @ ..] = written else {
        return None;
    };
    if !layout.is_method(frame.method, method) || !is_number(frame.pc, pc) {
        return None;
    }
    let saved = frame.first.checked_add(layout.max_locals(frame.method)?)?;
    let operands = saved.checked_add(SAVED)?;
    let locals = words.get(frame.first..saved)?;
    if !are_values(locals, words.get(operands..frame.end)?, values)? {
        return None;
    }
    caller_of(words.get(saved..operands)?, frame.first)
}

/// The words of the stack, the first frame's first.
fn stack_of(alloc: Global, machine: &Machine<1024>) -> Result<Vec<u32>, RowFault> {
    let mut words = Vec::new(alloc);
    for place in places::STACK..=machine.sp() {
        if place < 1024 {
            words.push(machine.on_chip(place))?;
        }
    }
    words.push(machine.b())?;
    words.push(machine.a())?;
    Ok(words)
}

/// Whether a frame and its callers are those that are written, the first one first.
fn are_frames(layout: &Layout, words: &[u32], last: Frame, written: &[&str]) -> bool {
    let mut frame = last;
    for text in written.rsplit(|word| *word == "/") {
        match caller_if(layout, words, frame, text) {
            Some(caller) => frame = caller,
            None => return false,
        }
    }
    frame.end == 0
}

/// Whether the frames of a machine are those that are written.
pub fn agrees(
    alloc: Global,
    machine: &Machine<1024>,
    layout: &Layout,
    written: &[&str],
) -> Result<bool, RowFault> {
    let words = stack_of(alloc, machine)?;
    let last = Frame {
        method: machine.method(),
        pc: u32::from(machine.jpc()).wrapping_sub(1),
        first: machine.vp().wrapping_sub(places::STACK) as usize,
        end: words.len(),
    };
    Ok(are_frames(layout, &words, last, written))
}
