//! What can be read of a machine.
ghost use Rattle.std.specs.Prelude.{◌≡◌, ◌<◌, slice_index};
ghost use Rattle.jop_core.specs.Reset.{uncaught_of};

use crate::halt::Halt;
use crate::machine::Machine;
use crate::places::RAISED;

impl<const N: usize> Machine<N> {
    /// The top word of the stack.
    pub fn a(&self) -> u32
        ensures { result ≡ self.now.a }
    {
        self.a
    }

    /// The word below the top.
    pub fn b(&self) -> u32
        ensures { result ≡ self.now.b }
    {
        self.b
    }

    /// The on-chip place of the word below these two.
    pub fn sp(&self) -> u32
        ensures { result ≡ self.now.sp }
    {
        self.sp
    }

    /// The on-chip place of the top frame's locals.
    pub fn vp(&self) -> u32
        ensures { result ≡ self.now.vp }
    {
        self.vp
    }

    /// The place in the method of the next byte.
    pub fn jpc(&self) -> u16
        ensures { result ≡ self.now.jpc }
    {
        self.jpc
    }

    /// The address of the next word of the ROM.
    pub fn mpc(&self) -> u16
        ensures { result ≡ self.now.mpc }
    {
        self.mpc
    }

    /// The current opcode.
    pub fn opcode(&self) -> u8
        ensures { result ≡ self.now.opcode }
    {
        self.opcode
    }

    /// The place of the current method in memory.
    pub fn method(&self) -> u32
        ensures { result ≡ self.now.method }
    {
        self.method
    }

    /// The cycles done so far.
    pub fn clock(&self) -> u64
        ensures { result ≡ self.now.clock }
    {
        self.clock
    }

    /// The look-ups of the method cache that found their method.
    pub fn hits(&self) -> u64
        ensures { result ≡ self.now.hits }
    {
        self.hits
    }

    /// The look-ups of the method cache that did not.
    pub fn misses(&self) -> u64
        ensures { result ≡ self.now.misses }
    {
        self.misses
    }

    /// The on-chip word at a place.
    pub fn on_chip(&self, place: u32) -> u32
        requires { place < N }
        ensures { result ≡ slice_index self.now.stack place }
    {
        self.stack.read(place)
    }

    /// Whether the machine has halted.
    pub fn halt(&self) -> Halt
        ensures { result ≡ self.now.halt }
    {
        self.halt
    }

    /// Where the machine has halted uncaught, the number of the class of the object that was raised: the
    /// first word of the type that the object names.
    pub fn uncaught(&self) -> Option<u32>
        ensures { result ≡ uncaught_of self.now }
    {
        if self.halt == Halt::Uncaught {
            let object = self.on_chip(RAISED);
            Some(self.memory.peek(self.memory.peek(object)))
        } else {
            None
        }
    }
}
