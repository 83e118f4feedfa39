//! What the opcodes cost.
ghost use Rattle.std.specs.Prelude.{◌≡◌, Some, slice_get};

use crate::price::{Price, RowCost};
use microcode::isa::Turns;

macro_rules! price {
    ($fixed:literal $reads:literal $writes:literal) => {
        Price {
            fixed: $fixed,
            reads: $reads,
            writes: $writes,
        }
    };
}

macro_rules! row {
    (($($one:tt)*) ($($other:tt)*) ($($turn:tt)*) $turns:expr) => {
        RowCost {
            one: price!($($one)*),
            other: price!($($other)*),
            turn: price!($($turn)*),
            turns: $turns,
        }
    };
}

/// A price has its cycles, and the waits of reads and of writes that come on top.
macro_rules! cost {
    ($fixed:literal $reads:literal $writes:literal) => {
        row!(($fixed $reads $writes) ($fixed $reads $writes) (0 0 0) Turns::Count(0))
    };
    ($fixed:literal $reads:literal $writes:literal or $($other:literal)*) => {
        row!(($fixed $reads $writes) ($($other)*) (0 0 0) Turns::Count(0))
    };
    ($fixed:literal $reads:literal $writes:literal; $count:literal turns of $($turn:literal)*) => {
        row!(($fixed $reads $writes) ($fixed $reads $writes) ($($turn)*) Turns::Count($count))
    };
    ($fixed:literal $reads:literal $writes:literal; pairs of $($turn:literal)*) => {
        row!(($fixed $reads $writes) ($fixed $reads $writes) ($($turn)*) Turns::PerPair)
    };
    ($fixed:literal $reads:literal $writes:literal; entries of $($turn:literal)*) => {
        row!(($fixed $reads $writes) ($fixed $reads $writes) ($($turn)*) Turns::PerEntry)
    };
}

/// An opcode that has no row goes to that of `nop`.
const NONE: RowCost = cost!(1 0 0);

/// What a step of the raise routine costs.
pub const RAISE: RowCost = cost!(96 7 0; entries of 58 3 0);

/// What each opcode costs.
#[rattlefmt::skip]
pub static COSTS: [RowCost; 256] = [
    cost!(1 0 0), // 0 nop
    cost!(1 0 0), // 1 aconst_null
    cost!(1 0 0), // 2 iconst_m1
    cost!(1 0 0), // 3 iconst_0
    cost!(1 0 0), // 4 iconst_1
    cost!(1 0 0), // 5 iconst_2
    cost!(1 0 0), // 6 iconst_3
    cost!(1 0 0), // 7 iconst_4
    cost!(1 0 0), // 8 iconst_5
    cost!(2 0 0), // 9 lconst_0
    cost!(2 0 0), // 10 lconst_1
    // 11 to 15: no row
    NONE, NONE, NONE, NONE, NONE,
    cost!(2 0 0), // 16 bipush
    cost!(3 0 0), // 17 sipush
    cost!(9 1 0), // 18 ldc
    cost!(10 1 0), // 19 ldc_w
    cost!(18 2 0), // 20 ldc2_w
    cost!(2 0 0), // 21 iload
    cost!(8 0 0), // 22 lload
    // 23 to 24: no row
    NONE, NONE,
    cost!(2 0 0), // 25 aload
    cost!(1 0 0), // 26 iload_0
    cost!(1 0 0), // 27 iload_1
    cost!(1 0 0), // 28 iload_2
    cost!(1 0 0), // 29 iload_3
    cost!(2 0 0), // 30 lload_0
    cost!(2 0 0), // 31 lload_1
    cost!(2 0 0), // 32 lload_2
    cost!(6 0 0), // 33 lload_3
    // 34 to 41: no row
    NONE, NONE, NONE, NONE, NONE, NONE, NONE, NONE,
    cost!(1 0 0), // 42 aload_0
    cost!(1 0 0), // 43 aload_1
    cost!(1 0 0), // 44 aload_2
    cost!(1 0 0), // 45 aload_3
    cost!(25 2 0), // 46 iaload
    cost!(31 3 0), // 47 laload
    // 48 to 49: no row
    NONE, NONE,
    cost!(25 2 0), // 50 aaload
    cost!(25 2 0), // 51 baload
    cost!(25 2 0), // 52 caload
    cost!(25 2 0), // 53 saload
    cost!(2 0 0), // 54 istore
    cost!(8 0 0), // 55 lstore
    // 56 to 57: no row
    NONE, NONE,
    cost!(2 0 0), // 58 astore
    cost!(1 0 0), // 59 istore_0
    cost!(1 0 0), // 60 istore_1
    cost!(1 0 0), // 61 istore_2
    cost!(1 0 0), // 62 istore_3
    cost!(2 0 0), // 63 lstore_0
    cost!(2 0 0), // 64 lstore_1
    cost!(2 0 0), // 65 lstore_2
    cost!(6 0 0), // 66 lstore_3
    // 67 to 74: no row
    NONE, NONE, NONE, NONE, NONE, NONE, NONE, NONE,
    cost!(1 0 0), // 75 astore_0
    cost!(1 0 0), // 76 astore_1
    cost!(1 0 0), // 77 astore_2
    cost!(1 0 0), // 78 astore_3
    cost!(26 2 0 or 23 1 1), // 79 iastore
    cost!(27 2 0 or 35 1 2), // 80 lastore
    // 81 to 82: no row
    NONE, NONE,
    cost!(60 6 0 or 57 5 1), // 83 aastore
    cost!(33 2 0 or 30 1 1), // 84 bastore
    cost!(31 2 0 or 28 1 1), // 85 castore
    cost!(33 2 0 or 30 1 1), // 86 sastore
    cost!(1 0 0), // 87 pop
    cost!(2 0 0), // 88 pop2
    cost!(1 0 0), // 89 dup
    cost!(5 0 0), // 90 dup_x1
    cost!(7 0 0), // 91 dup_x2
    cost!(6 0 0), // 92 dup2
    cost!(8 0 0), // 93 dup2_x1
    cost!(10 0 0), // 94 dup2_x2
    cost!(4 0 0), // 95 swap
    cost!(1 0 0), // 96 iadd
    cost!(16 0 0), // 97 ladd
    // 98 to 99: no row
    NONE, NONE,
    cost!(1 0 0), // 100 isub
    cost!(14 0 0), // 101 lsub
    // 102 to 103: no row
    NONE, NONE,
    cost!(1 0 0), // 104 imul
    // 105 to 107: no row
    NONE, NONE, NONE,
    cost!(84 0 0; 31 turns of 36 0 0), // 108 idiv
    // 109 to 111: no row
    NONE, NONE, NONE,
    cost!(81 0 0; 31 turns of 36 0 0), // 112 irem
    // 113 to 115: no row
    NONE, NONE, NONE,
    cost!(2 0 0), // 116 ineg
    cost!(12 0 0), // 117 lneg
    // 118 to 119: no row
    NONE, NONE,
    cost!(1 0 0), // 120 ishl
    cost!(21 0 0), // 121 lshl
    cost!(1 0 0), // 122 ishr
    cost!(21 0 0), // 123 lshr
    cost!(1 0 0), // 124 iushr
    cost!(21 0 0), // 125 lushr
    cost!(1 0 0), // 126 iand
    cost!(8 0 0), // 127 land
    cost!(1 0 0), // 128 ior
    cost!(8 0 0), // 129 lor
    cost!(1 0 0), // 130 ixor
    cost!(8 0 0), // 131 lxor
    cost!(8 0 0), // 132 iinc
    cost!(5 0 0), // 133 i2l
    // 134 to 135: no row
    NONE, NONE,
    cost!(3 0 0), // 136 l2i
    // 137 to 144: no row
    NONE, NONE, NONE, NONE, NONE, NONE, NONE, NONE,
    cost!(4 0 0), // 145 i2b
    cost!(2 0 0), // 146 i2c
    cost!(4 0 0), // 147 i2s
    cost!(29 0 0), // 148 lcmp
    // 149 to 152: no row
    NONE, NONE, NONE, NONE,
    cost!(4 0 0), // 153 ifeq
    cost!(4 0 0), // 154 ifne
    cost!(4 0 0), // 155 iflt
    cost!(4 0 0), // 156 ifge
    cost!(4 0 0), // 157 ifgt
    cost!(4 0 0), // 158 ifle
    cost!(4 0 0), // 159 if_icmpeq
    cost!(4 0 0), // 160 if_icmpne
    cost!(4 0 0), // 161 if_icmplt
    cost!(4 0 0), // 162 if_icmpge
    cost!(4 0 0), // 163 if_icmpgt
    cost!(4 0 0), // 164 if_icmple
    cost!(4 0 0), // 165 if_acmpeq
    cost!(4 0 0), // 166 if_acmpne
    cost!(4 0 0), // 167 goto
    // 168 to 169: no row
    NONE, NONE,
    cost!(57 0 0), // 170 tableswitch
    cost!(47 0 0; pairs of 21 0 0), // 171 lookupswitch
    cost!(52 1 0), // 172 ireturn
    cost!(54 1 0), // 173 lreturn
    // 174 to 175: no row
    NONE, NONE,
    cost!(52 1 0), // 176 areturn
    cost!(52 1 0), // 177 return
    cost!(30 4 0), // 178 getstatic
    cost!(34 2 2), // 179 putstatic
    cost!(35 4 0), // 180 getfield
    cost!(39 2 2), // 181 putfield
    cost!(118 6 0), // 182 invokevirtual
    cost!(104 4 0), // 183 invokespecial
    cost!(89 4 0), // 184 invokestatic
    cost!(122 6 0), // 185 invokeinterface
    // 186: no row
    NONE,
    cost!(36 3 0 or 32 2 1), // 187 new
    cost!(58 3 0 or 61 2 2), // 188 newarray
    cost!(48 2 0 or 51 1 2), // 189 anewarray
    cost!(15 1 0), // 190 arraylength
    cost!(15 1 0), // 191 athrow
    cost!(50 5 0), // 192 checkcast
    cost!(37 4 0), // 193 instanceof
    cost!(13 1 0), // 194 monitorenter
    cost!(13 1 0), // 195 monitorexit
    cost!(34 0 0), // 196 wide
    // 197: no row
    NONE,
    cost!(4 0 0), // 198 ifnull
    cost!(4 0 0), // 199 ifnonnull
    cost!(10 0 0), // 200 goto_w
    // 201 to 253: no row
    NONE, NONE, NONE, NONE, NONE, NONE, NONE, NONE,
    NONE, NONE, NONE, NONE, NONE, NONE, NONE, NONE,
    NONE, NONE, NONE, NONE, NONE, NONE, NONE, NONE,
    NONE, NONE, NONE, NONE, NONE, NONE, NONE, NONE,
    NONE, NONE, NONE, NONE, NONE, NONE, NONE, NONE,
    NONE, NONE, NONE, NONE, NONE, NONE, NONE, NONE,
    NONE, NONE, NONE, NONE, NONE,
    cost!(1 0 0), // 254 impdep1
    cost!(1 0 0), // 255 impdep2
];

/// What an opcode costs.
pub fn cost_of(op: u8) -> RowCost
    ensures { slice_get COSTS op ≡ Some result }
{
    COSTS[op as usize]
}
