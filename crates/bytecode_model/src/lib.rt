//! What Java bytecode means (JVM Specification SE 8, chapters 2 and 6): values, objects, frames and states. The definitions
//! over them stand in `specs/`: the resolved program, what each opcode does, the step of a state, and runs.
#![tactic(auto)]

pub mod laws;

use std::marker::Model;

/// A value of a local variable, of an operand stack, of a field or of an array (2.2 to 2.4).
#[derive(Clone, Copy)]
pub enum Value {
    Int(i32),
    Long(i64),
    /// A reference to an object, by the object's number.
    Ref(u32),
    Null,
    /// What no instruction has written.
    Unset,
}

/// How a state goes on.
#[derive(Clone, Copy)]
pub enum Ending {
    /// With the instruction of the top frame.
    Running,
    /// With the search for a handler of the object of this number.
    Raising(u32),
    /// Boot has returned.
    Ended,
    /// An object of the class of this number had no handler.
    Uncaught(u32),
}

/// An object: the number of its type, and its fields or elements.
#[derive(Drop)]
pub struct Object {
    pub kind: u32,
    pub parts: Vec<Value>,
}

impl Model for Object {
    ghost use Rattle.bytecode_model.specs.State as model;

    ghost Value = { model.Object };

    ghost view = { λ o. record { kind = o.kind; parts = o.parts.items } };
}

/// A frame (2.6): the number of its method, the place of its instruction, its local variables, and its operand stack with
/// the top operand first.
#[derive(Drop)]
pub struct Frame {
    pub method: u32,
    pub pc: u32,
    pub locals: Vec<Value>,
    pub operands: Vec<Value>,
}

impl Model for Frame {
    ghost use Rattle.bytecode_model.specs.State as model;

    ghost Value = { model.Frame };

    ghost view = { λ f. record { method = f.method; pc = f.pc; locals = f.locals.items; operands = f.operands.items } };
}

/// A state: the frames with the top frame first, the objects in order of making, the static fields, the answers that the
/// input has given, each a byte or the end, the bytes that were put out, and how it goes on.
#[derive(Drop)]
pub struct State {
    pub frames: Vec<Frame>,
    pub objects: Vec<Object>,
    pub statics: Vec<Value>,
    pub answers: Vec<Option<u8>>,
    pub output: Vec<u8>,
    pub mode: Ending,
}

impl Model for State {
    ghost use Rattle.bytecode_model.specs.State as model;

    ghost Value = { model.State };

    ghost view = { λ s. record {
      frames = s.frames.items;
      objects = s.objects.items;
      statics = s.statics.items;
      answers = s.answers.items;
      output
          = s.output.items;
      mode = s.mode;
    } };
}
