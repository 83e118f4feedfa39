//! The table of the opcodes.

ghost use Rattle.std.specs.Prelude.{◌≡◌};
ghost use Rattle.opcodes.specs.Row.{row_of};
ghost use Rattle.opcodes.specs.Entry.{entry_form, entry_row, length_by};

/// Where control goes after an instruction.
#[derive(Clone, Copy)]
pub enum Kind {
    /// To the next instruction.
    Plain,
    /// To the next instruction or to a target.
    Branch,
    /// To a target, or to a place that is known only when it runs.
    Jump,
    /// To one of several targets.
    Switch,
    /// Back to the caller.
    Return,
    /// To a handler.
    Throw,
    /// Into a method.
    Invoke,
}

/// An operand of fixed width. Its number has the high byte first.
#[derive(Clone, Copy)]
pub(crate) enum FixedOperand {
    Absent,
    UnsignedByte,
    UnsignedShort,
    SignedByte,
    SignedShort,
    Offset,
    WideOffset,
}

/// Operands of fixed width, and the number of bytes behind them that give no number.
#[derive(Clone, Copy)]
pub(crate) struct Operands {
    pub(crate) first: FixedOperand,
    pub(crate) second: FixedOperand,
    pub(crate) unused: u8,
}

/// How the operands of an instruction lie behind its opcode.
#[derive(Clone, Copy)]
pub(crate) enum Form {
    NotAnOpcode,
    /// Operands of fixed width.
    Fixed(Operands),
    /// The same, and the operands behind `wide`.
    Widened(Operands, Operands),
    TableSwitch,
    LookupSwitch,
    Wide,
}

/// What is known of an opcode.
#[derive(Clone, Copy)]
pub(crate) struct Entry {
    pub(crate) opcode: u8,
    pub(crate) name: &'static str,
    pub(crate) form: Form,
    pub(crate) kind: Kind,
    pub(crate) raises: bool,
    pub(crate) supported: bool,
}

/// A form of at most two operands, with further bytes that are not used.
macro_rules! fixed {
    ($first:ident $second:ident $unused:literal) => {
        Operands {
            first: FixedOperand::$first,
            second: FixedOperand::$second,
            unused: $unused,
        }
    };
}

const NOTHING: Form = Form::Fixed(fixed!(Absent Absent 0));

const UNSIGNED_BYTE: Form = Form::Fixed(fixed!(UnsignedByte Absent 0));

const UNSIGNED_SHORT: Form = Form::Fixed(fixed!(UnsignedShort Absent 0));

const SIGNED_BYTE: Form = Form::Fixed(fixed!(SignedByte Absent 0));

const SIGNED_SHORT: Form = Form::Fixed(fixed!(SignedShort Absent 0));

const BRANCH: Form = Form::Fixed(fixed!(Offset Absent 0));

const WIDE_BRANCH: Form = Form::Fixed(fixed!(WideOffset Absent 0));

const LOCAL: Form = Form::Widened(
    fixed!(UnsignedByte Absent 0),
    fixed!(UnsignedShort Absent 0),
);

const INCREMENT: Form = Form::Widened(
    fixed!(UnsignedByte SignedByte 0),
    fixed!(UnsignedShort SignedShort 0),
);

const DIMENSIONS: Form = Form::Fixed(fixed!(UnsignedShort UnsignedByte 0));

const INTERFACE_CALL: Form = Form::Fixed(fixed!(UnsignedShort UnsignedByte 1));

const DYNAMIC_CALL: Form = Form::Fixed(fixed!(UnsignedShort Absent 2));

const TABLE_SWITCH: Form = Form::TableSwitch;

const LOOKUP_SWITCH: Form = Form::LookupSwitch;

const WIDE: Form = Form::Wide;

const NO_OPCODE: Form = Form::NotAnOpcode;

/// An opcode's number, mnemonic, form and kind, whether it may raise, and whether this machine runs it.
macro_rules! entries {
    ($($opcode:literal $name:literal $form:ident $kind:ident $raises:literal $supported:literal;)*) => {
        [$(Entry {
            opcode: $opcode,
            name: $name,
            form: $form,
            kind: Kind::$kind,
            raises: $raises,
            supported: $supported,
        },)*]
    };
}

/// By byte; those that are no opcodes are named `none`.
static ENTRIES: [Entry; 256] = entries! {
    0 "nop" NOTHING Plain false true;
    1 "aconst_null" NOTHING Plain false true;
    2 "iconst_m1" NOTHING Plain false true;
    3 "iconst_0" NOTHING Plain false true;
    4 "iconst_1" NOTHING Plain false true;
    5 "iconst_2" NOTHING Plain false true;
    6 "iconst_3" NOTHING Plain false true;
    7 "iconst_4" NOTHING Plain false true;
    8 "iconst_5" NOTHING Plain false true;
    9 "lconst_0" NOTHING Plain false true;
    10 "lconst_1" NOTHING Plain false true;
    11 "fconst_0" NOTHING Plain false false;
    12 "fconst_1" NOTHING Plain false false;
    13 "fconst_2" NOTHING Plain false false;
    14 "dconst_0" NOTHING Plain false false;
    15 "dconst_1" NOTHING Plain false false;
    16 "bipush" SIGNED_BYTE Plain false true;
    17 "sipush" SIGNED_SHORT Plain false true;
    18 "ldc" UNSIGNED_BYTE Plain false true;
    19 "ldc_w" UNSIGNED_SHORT Plain false true;
    20 "ldc2_w" UNSIGNED_SHORT Plain false true;
    21 "iload" LOCAL Plain false true;
    22 "lload" LOCAL Plain false true;
    23 "fload" LOCAL Plain false false;
    24 "dload" LOCAL Plain false false;
    25 "aload" LOCAL Plain false true;
    26 "iload_0" NOTHING Plain false true;
    27 "iload_1" NOTHING Plain false true;
    28 "iload_2" NOTHING Plain false true;
    29 "iload_3" NOTHING Plain false true;
    30 "lload_0" NOTHING Plain false true;
    31 "lload_1" NOTHING Plain false true;
    32 "lload_2" NOTHING Plain false true;
    33 "lload_3" NOTHING Plain false true;
    34 "fload_0" NOTHING Plain false false;
    35 "fload_1" NOTHING Plain false false;
    36 "fload_2" NOTHING Plain false false;
    37 "fload_3" NOTHING Plain false false;
    38 "dload_0" NOTHING Plain false false;
    39 "dload_1" NOTHING Plain false false;
    40 "dload_2" NOTHING Plain false false;
    41 "dload_3" NOTHING Plain false false;
    42 "aload_0" NOTHING Plain false true;
    43 "aload_1" NOTHING Plain false true;
    44 "aload_2" NOTHING Plain false true;
    45 "aload_3" NOTHING Plain false true;
    46 "iaload" NOTHING Plain true true;
    47 "laload" NOTHING Plain true true;
    48 "faload" NOTHING Plain false false;
    49 "daload" NOTHING Plain false false;
    50 "aaload" NOTHING Plain true true;
    51 "baload" NOTHING Plain true true;
    52 "caload" NOTHING Plain true true;
    53 "saload" NOTHING Plain true true;
    54 "istore" LOCAL Plain false true;
    55 "lstore" LOCAL Plain false true;
    56 "fstore" LOCAL Plain false false;
    57 "dstore" LOCAL Plain false false;
    58 "astore" LOCAL Plain false true;
    59 "istore_0" NOTHING Plain false true;
    60 "istore_1" NOTHING Plain false true;
    61 "istore_2" NOTHING Plain false true;
    62 "istore_3" NOTHING Plain false true;
    63 "lstore_0" NOTHING Plain false true;
    64 "lstore_1" NOTHING Plain false true;
    65 "lstore_2" NOTHING Plain false true;
    66 "lstore_3" NOTHING Plain false true;
    67 "fstore_0" NOTHING Plain false false;
    68 "fstore_1" NOTHING Plain false false;
    69 "fstore_2" NOTHING Plain false false;
    70 "fstore_3" NOTHING Plain false false;
    71 "dstore_0" NOTHING Plain false false;
    72 "dstore_1" NOTHING Plain false false;
    73 "dstore_2" NOTHING Plain false false;
    74 "dstore_3" NOTHING Plain false false;
    75 "astore_0" NOTHING Plain false true;
    76 "astore_1" NOTHING Plain false true;
    77 "astore_2" NOTHING Plain false true;
    78 "astore_3" NOTHING Plain false true;
    79 "iastore" NOTHING Plain true true;
    80 "lastore" NOTHING Plain true true;
    81 "fastore" NOTHING Plain false false;
    82 "dastore" NOTHING Plain false false;
    83 "aastore" NOTHING Plain true true;
    84 "bastore" NOTHING Plain true true;
    85 "castore" NOTHING Plain true true;
    86 "sastore" NOTHING Plain true true;
    87 "pop" NOTHING Plain false true;
    88 "pop2" NOTHING Plain false true;
    89 "dup" NOTHING Plain false true;
    90 "dup_x1" NOTHING Plain false true;
    91 "dup_x2" NOTHING Plain false true;
    92 "dup2" NOTHING Plain false true;
    93 "dup2_x1" NOTHING Plain false true;
    94 "dup2_x2" NOTHING Plain false true;
    95 "swap" NOTHING Plain false true;
    96 "iadd" NOTHING Plain false true;
    97 "ladd" NOTHING Plain false true;
    98 "fadd" NOTHING Plain false false;
    99 "dadd" NOTHING Plain false false;
    100 "isub" NOTHING Plain false true;
    101 "lsub" NOTHING Plain false true;
    102 "fsub" NOTHING Plain false false;
    103 "dsub" NOTHING Plain false false;
    104 "imul" NOTHING Plain false true;
    105 "lmul" NOTHING Plain false false;
    106 "fmul" NOTHING Plain false false;
    107 "dmul" NOTHING Plain false false;
    108 "idiv" NOTHING Plain true true;
    109 "ldiv" NOTHING Plain false false;
    110 "fdiv" NOTHING Plain false false;
    111 "ddiv" NOTHING Plain false false;
    112 "irem" NOTHING Plain true true;
    113 "lrem" NOTHING Plain false false;
    114 "frem" NOTHING Plain false false;
    115 "drem" NOTHING Plain false false;
    116 "ineg" NOTHING Plain false true;
    117 "lneg" NOTHING Plain false true;
    118 "fneg" NOTHING Plain false false;
    119 "dneg" NOTHING Plain false false;
    120 "ishl" NOTHING Plain false true;
    121 "lshl" NOTHING Plain false true;
    122 "ishr" NOTHING Plain false true;
    123 "lshr" NOTHING Plain false true;
    124 "iushr" NOTHING Plain false true;
    125 "lushr" NOTHING Plain false true;
    126 "iand" NOTHING Plain false true;
    127 "land" NOTHING Plain false true;
    128 "ior" NOTHING Plain false true;
    129 "lor" NOTHING Plain false true;
    130 "ixor" NOTHING Plain false true;
    131 "lxor" NOTHING Plain false true;
    132 "iinc" INCREMENT Plain false true;
    133 "i2l" NOTHING Plain false true;
    134 "i2f" NOTHING Plain false false;
    135 "i2d" NOTHING Plain false false;
    136 "l2i" NOTHING Plain false true;
    137 "l2f" NOTHING Plain false false;
    138 "l2d" NOTHING Plain false false;
    139 "f2i" NOTHING Plain false false;
    140 "f2l" NOTHING Plain false false;
    141 "f2d" NOTHING Plain false false;
    142 "d2i" NOTHING Plain false false;
    143 "d2l" NOTHING Plain false false;
    144 "d2f" NOTHING Plain false false;
    145 "i2b" NOTHING Plain false true;
    146 "i2c" NOTHING Plain false true;
    147 "i2s" NOTHING Plain false true;
    148 "lcmp" NOTHING Plain false true;
    149 "fcmpl" NOTHING Plain false false;
    150 "fcmpg" NOTHING Plain false false;
    151 "dcmpl" NOTHING Plain false false;
    152 "dcmpg" NOTHING Plain false false;
    153 "ifeq" BRANCH Branch false true;
    154 "ifne" BRANCH Branch false true;
    155 "iflt" BRANCH Branch false true;
    156 "ifge" BRANCH Branch false true;
    157 "ifgt" BRANCH Branch false true;
    158 "ifle" BRANCH Branch false true;
    159 "if_icmpeq" BRANCH Branch false true;
    160 "if_icmpne" BRANCH Branch false true;
    161 "if_icmplt" BRANCH Branch false true;
    162 "if_icmpge" BRANCH Branch false true;
    163 "if_icmpgt" BRANCH Branch false true;
    164 "if_icmple" BRANCH Branch false true;
    165 "if_acmpeq" BRANCH Branch false true;
    166 "if_acmpne" BRANCH Branch false true;
    167 "goto" BRANCH Jump false true;
    168 "jsr" BRANCH Jump false false;
    169 "ret" LOCAL Jump false false;
    170 "tableswitch" TABLE_SWITCH Switch false true;
    171 "lookupswitch" LOOKUP_SWITCH Switch false true;
    172 "ireturn" NOTHING Return false true;
    173 "lreturn" NOTHING Return false true;
    174 "freturn" NOTHING Return false false;
    175 "dreturn" NOTHING Return false false;
    176 "areturn" NOTHING Return false true;
    177 "return" NOTHING Return false true;
    178 "getstatic" UNSIGNED_SHORT Plain false true;
    179 "putstatic" UNSIGNED_SHORT Plain false true;
    180 "getfield" UNSIGNED_SHORT Plain true true;
    181 "putfield" UNSIGNED_SHORT Plain true true;
    182 "invokevirtual" UNSIGNED_SHORT Invoke true true;
    183 "invokespecial" UNSIGNED_SHORT Invoke true true;
    184 "invokestatic" UNSIGNED_SHORT Invoke true true;
    185 "invokeinterface" INTERFACE_CALL Invoke true true;
    186 "invokedynamic" DYNAMIC_CALL Invoke false false;
    187 "new" UNSIGNED_SHORT Plain true true;
    188 "newarray" UNSIGNED_BYTE Plain true true;
    189 "anewarray" UNSIGNED_SHORT Plain true true;
    190 "arraylength" NOTHING Plain true true;
    191 "athrow" NOTHING Throw true true;
    192 "checkcast" UNSIGNED_SHORT Plain true true;
    193 "instanceof" UNSIGNED_SHORT Plain false true;
    194 "monitorenter" NOTHING Plain true true;
    195 "monitorexit" NOTHING Plain true true;
    196 "wide" WIDE Plain false false;
    197 "multianewarray" DIMENSIONS Plain false false;
    198 "ifnull" BRANCH Branch false true;
    199 "ifnonnull" BRANCH Branch false true;
    200 "goto_w" WIDE_BRANCH Jump false true;
    201 "jsr_w" WIDE_BRANCH Jump false false;
    202 "breakpoint" NOTHING Plain false false;
    203 "none" NO_OPCODE Plain false false;
    204 "none" NO_OPCODE Plain false false;
    205 "none" NO_OPCODE Plain false false;
    206 "none" NO_OPCODE Plain false false;
    207 "none" NO_OPCODE Plain false false;
    208 "none" NO_OPCODE Plain false false;
    209 "none" NO_OPCODE Plain false false;
    210 "none" NO_OPCODE Plain false false;
    211 "none" NO_OPCODE Plain false false;
    212 "none" NO_OPCODE Plain false false;
    213 "none" NO_OPCODE Plain false false;
    214 "none" NO_OPCODE Plain false false;
    215 "none" NO_OPCODE Plain false false;
    216 "none" NO_OPCODE Plain false false;
    217 "none" NO_OPCODE Plain false false;
    218 "none" NO_OPCODE Plain false false;
    219 "none" NO_OPCODE Plain false false;
    220 "none" NO_OPCODE Plain false false;
    221 "none" NO_OPCODE Plain false false;
    222 "none" NO_OPCODE Plain false false;
    223 "none" NO_OPCODE Plain false false;
    224 "none" NO_OPCODE Plain false false;
    225 "none" NO_OPCODE Plain false false;
    226 "none" NO_OPCODE Plain false false;
    227 "none" NO_OPCODE Plain false false;
    228 "none" NO_OPCODE Plain false false;
    229 "none" NO_OPCODE Plain false false;
    230 "none" NO_OPCODE Plain false false;
    231 "none" NO_OPCODE Plain false false;
    232 "none" NO_OPCODE Plain false false;
    233 "none" NO_OPCODE Plain false false;
    234 "none" NO_OPCODE Plain false false;
    235 "none" NO_OPCODE Plain false false;
    236 "none" NO_OPCODE Plain false false;
    237 "none" NO_OPCODE Plain false false;
    238 "none" NO_OPCODE Plain false false;
    239 "none" NO_OPCODE Plain false false;
    240 "none" NO_OPCODE Plain false false;
    241 "none" NO_OPCODE Plain false false;
    242 "none" NO_OPCODE Plain false false;
    243 "none" NO_OPCODE Plain false false;
    244 "none" NO_OPCODE Plain false false;
    245 "none" NO_OPCODE Plain false false;
    246 "none" NO_OPCODE Plain false false;
    247 "none" NO_OPCODE Plain false false;
    248 "none" NO_OPCODE Plain false false;
    249 "none" NO_OPCODE Plain false false;
    250 "none" NO_OPCODE Plain false false;
    251 "none" NO_OPCODE Plain false false;
    252 "none" NO_OPCODE Plain false false;
    253 "none" NO_OPCODE Plain false false;
    254 "impdep1" NOTHING Plain false true;
    255 "impdep2" NOTHING Plain false true;
};

/// By byte, how many bytes the instructions of that opcode have, and 0 where they differ or the byte is no opcode.
static LENGTHS: [u32; 256] = [
    1, 1, 1, 1, 1, 1, 1, 1, 1, 1, 1, 1, 1, 1, 1, 1, // from 0
    2, 3, 2, 3, 3, 2, 2, 2, 2, 2, 1, 1, 1, 1, 1, 1, // from 16
    1, 1, 1, 1, 1, 1, 1, 1, 1, 1, 1, 1, 1, 1, 1, 1, // from 32
    1, 1, 1, 1, 1, 1, 2, 2, 2, 2, 2, 1, 1, 1, 1, 1, // from 48
    1, 1, 1, 1, 1, 1, 1, 1, 1, 1, 1, 1, 1, 1, 1, 1, // from 64
    1, 1, 1, 1, 1, 1, 1, 1, 1, 1, 1, 1, 1, 1, 1, 1, // from 80
    1, 1, 1, 1, 1, 1, 1, 1, 1, 1, 1, 1, 1, 1, 1, 1, // from 96
    1, 1, 1, 1, 1, 1, 1, 1, 1, 1, 1, 1, 1, 1, 1, 1, // from 112
    1, 1, 1, 1, 3, 1, 1, 1, 1, 1, 1, 1, 1, 1, 1, 1, // from 128
    1, 1, 1, 1, 1, 1, 1, 1, 1, 3, 3, 3, 3, 3, 3, 3, // from 144
    3, 3, 3, 3, 3, 3, 3, 3, 3, 2, 0, 0, 1, 1, 1, 1, // from 160
    1, 1, 3, 3, 3, 3, 3, 3, 3, 5, 5, 3, 2, 3, 1, 1, // from 176
    3, 3, 1, 1, 0, 4, 3, 3, 5, 5, 1, 0, 0, 0, 0, 0, // from 192
    0, 0, 0, 0, 0, 0, 0, 0, 0, 0, 0, 0, 0, 0, 0, 0, // from 208
    0, 0, 0, 0, 0, 0, 0, 0, 0, 0, 0, 0, 0, 0, 0, 0, // from 224
    0, 0, 0, 0, 0, 0, 0, 0, 0, 0, 0, 0, 0, 0, 1, 1, // from 240
];

/// The row of an opcode, and one named `none` for a byte that is no opcode.
#[inline(always)]
pub(crate) fn entry_of(op: u8) -> &'static Entry
    ensures { entry_row result.now ≡ row_of op }
{
    &ENTRIES[op as usize]
}

/// The form of an opcode's operands.
#[tactic(auto, unfolding(crate::specs::Entry::entry_row))]
#[inline(always)]
pub(crate) fn form_of(op: u8) -> Form
    ensures { entry_form result ≡ (row_of op).form }
{
    entry_of(op).form
}

/// How many bytes the instructions of an opcode have, and 0 where they differ or the byte is no opcode.
#[inline(always)]
pub(crate) fn fixed_length(op: u8) -> u32
    ensures { result ≡ length_by (row_of op).form }
{
    LENGTHS[op as usize]
}
