//! Where the rows lie: each family of rows, and each row of a family, begins where the one before it ends.

const NUMBERS: u16 = 0;

const LOCALS: u16 = NUMBERS + 54;

const STACK: u16 = LOCALS + 110;

const INTS: u16 = STACK + 44;

const DIVISION: u16 = INTS + 21;

const LONGS: u16 = DIVISION + 84;

const BRANCHES: u16 = LONGS + 180;

const SWITCHES: u16 = BRANCHES + 22;

const ARRAYS: u16 = SWITCHES + 111;

const FIELDS: u16 = ARRAYS + 192;

const ALLOCATION: u16 = FIELDS + 162;

const TYPES: u16 = ALLOCATION + 106;

const CALLS: u16 = TYPES + 79;

const RETURNS: u16 = CALLS + 232;

const DEVICES: u16 = RETURNS + 158;

const RAISING: u16 = DEVICES + 2;

/// The number of words.
pub const END: u16 = RAISING + 182;

pub const NOP: u16 = NUMBERS;

pub const ICONST_M1: u16 = NOP + 1;

pub const ICONST_0: u16 = ICONST_M1 + 1;

pub const ICONST_1: u16 = ICONST_0 + 1;

pub const ICONST_2: u16 = ICONST_1 + 1;

pub const ICONST_3: u16 = ICONST_2 + 1;

pub const ICONST_4: u16 = ICONST_3 + 1;

pub const ICONST_5: u16 = ICONST_4 + 1;

pub const LCONST_0: u16 = ICONST_5 + 1;

pub const LCONST_1: u16 = LCONST_0 + 2;

pub const BIPUSH: u16 = LCONST_1 + 2;

pub const SIPUSH: u16 = BIPUSH + 2;

pub const LDC: u16 = SIPUSH + 3;

pub const LDC_W: u16 = LDC + 9;

pub const LDC2_W: u16 = LDC_W + 10;

pub const ILOAD_0: u16 = LOCALS;

pub const ILOAD_1: u16 = ILOAD_0 + 1;

pub const ILOAD_2: u16 = ILOAD_1 + 1;

pub const ILOAD_3: u16 = ILOAD_2 + 1;

pub const ISTORE_0: u16 = ILOAD_3 + 1;

pub const ISTORE_1: u16 = ISTORE_0 + 1;

pub const ISTORE_2: u16 = ISTORE_1 + 1;

pub const ISTORE_3: u16 = ISTORE_2 + 1;

pub const ILOAD: u16 = ISTORE_3 + 1;

pub const ISTORE: u16 = ILOAD + 2;

pub const LLOAD_0: u16 = ISTORE + 2;

pub const LLOAD_1: u16 = LLOAD_0 + 2;

pub const LLOAD_2: u16 = LLOAD_1 + 2;

pub const LLOAD_3: u16 = LLOAD_2 + 2;

pub const LSTORE_0: u16 = LLOAD_3 + 6;

pub const LSTORE_1: u16 = LSTORE_0 + 2;

pub const LSTORE_2: u16 = LSTORE_1 + 2;

pub const LSTORE_3: u16 = LSTORE_2 + 2;

pub const LLOAD: u16 = LSTORE_3 + 6;

pub const LSTORE: u16 = LLOAD + 8;

pub const IINC: u16 = LSTORE + 8;

pub const WIDE: u16 = IINC + 8;

pub const WIDE_LOAD: u16 = WIDE + 29;

pub const WIDE_IINC: u16 = WIDE_LOAD + 1;

pub const WIDE_LLOAD: u16 = WIDE_IINC + 6;

pub const WIDE_LSTORE: u16 = WIDE_LLOAD + 6;

pub const POP: u16 = STACK;

pub const POP2: u16 = POP + 1;

pub const DUP: u16 = POP2 + 2;

pub const DUP_X1: u16 = DUP + 1;

pub const DUP_X2: u16 = DUP_X1 + 5;

pub const DUP2: u16 = DUP_X2 + 7;

pub const DUP2_X1: u16 = DUP2 + 6;

pub const DUP2_X2: u16 = DUP2_X1 + 8;

pub const SWAP: u16 = DUP2_X2 + 10;

pub const IADD: u16 = INTS;

pub const ISUB: u16 = IADD + 1;

pub const IMUL: u16 = ISUB + 1;

pub const IAND: u16 = IMUL + 1;

pub const IOR: u16 = IAND + 1;

pub const IXOR: u16 = IOR + 1;

pub const ISHL: u16 = IXOR + 1;

pub const ISHR: u16 = ISHL + 1;

pub const IUSHR: u16 = ISHR + 1;

pub const INEG: u16 = IUSHR + 1;

pub const I2B: u16 = INEG + 2;

pub const I2C: u16 = I2B + 4;

pub const I2S: u16 = I2C + 2;

pub const IDIV: u16 = DIVISION;

pub const IREM: u16 = IDIV + 3;

pub const DIVIDE: u16 = IREM + 2;

pub const DIVIDE_TURN: u16 = DIVIDE + 34;

pub const DIVIDE_SIGNS: u16 = DIVIDE_TURN + 34;

pub const LADD: u16 = LONGS;

pub const LSUB: u16 = LADD + 16;

pub const LNEG: u16 = LSUB + 14;

pub const LAND: u16 = LNEG + 12;

pub const LOR: u16 = LAND + 8;

pub const LXOR: u16 = LOR + 8;

pub const LSHL: u16 = LXOR + 8;

pub const LSHL_HIGH: u16 = LSHL + 21;

pub const LSHR: u16 = LSHL_HIGH + 4;

pub const LSHR_HIGH: u16 = LSHR + 21;

pub const LUSHR: u16 = LSHR_HIGH + 6;

pub const LUSHR_HIGH: u16 = LUSHR + 21;

pub const I2L: u16 = LUSHR_HIGH + 4;

pub const L2I: u16 = I2L + 5;

pub const LCMP: u16 = L2I + 3;

pub const IFEQ: u16 = BRANCHES;

pub const IF_ICMPEQ: u16 = IFEQ + 4;

pub const GOTO: u16 = IF_ICMPEQ + 4;

pub const GOTO_W: u16 = GOTO + 4;

pub const TABLESWITCH: u16 = SWITCHES;

pub const TABLE_JUMP: u16 = TABLESWITCH + 53;

pub const LOOKUPSWITCH: u16 = TABLE_JUMP + 4;

pub const LOOKUP_TURN: u16 = LOOKUPSWITCH + 25;

pub const LOOKUP_HIT: u16 = LOOKUP_TURN + 19;

pub const LOOKUP_JUMP: u16 = LOOKUP_HIT + 6;

pub const IALOAD: u16 = ARRAYS;

pub const LALOAD: u16 = IALOAD + 21;

pub const BASTORE: u16 = LALOAD + 31;

pub const CASTORE: u16 = BASTORE + 6;

pub const SASTORE: u16 = CASTORE + 4;

pub const IASTORE: u16 = SASTORE + 6;

pub const STORE_ELEMENT: u16 = IASTORE + 1;

pub const LASTORE: u16 = STORE_ELEMENT + 22;

pub const AASTORE: u16 = LASTORE + 35;

pub const STORE_REFERENCE: u16 = AASTORE + 48;

pub const ARRAYLENGTH: u16 = STORE_REFERENCE + 9;

pub const GETSTATIC: u16 = FIELDS;

pub const PUTSTATIC: u16 = GETSTATIC + 30;

pub const PUTSTATIC_WORD: u16 = PUTSTATIC + 34;

pub const GETFIELD: u16 = PUTSTATIC_WORD + 9;

pub const FIELD_LOADED: u16 = GETFIELD + 35;

pub const PUTFIELD: u16 = FIELD_LOADED + 1;

pub const PUTFIELD_WORD: u16 = PUTFIELD + 39;

pub const NEW: u16 = ALLOCATION;

pub const NEWARRAY: u16 = NEW + 32;

pub const NEWARRAY_LONG: u16 = NEWARRAY + 8;

pub const NEWARRAY_SIZED: u16 = NEWARRAY_LONG + 2;

pub const ANEWARRAY: u16 = NEWARRAY_SIZED + 13;

pub const ALLOCATE_ARRAY: u16 = ANEWARRAY + 15;

pub const CHECKCAST: u16 = TYPES;

pub const CAST_PASSES: u16 = CHECKCAST + 38;

pub const INSTANCEOF: u16 = CAST_PASSES + 1;

pub const INSTANCEOF_NULL: u16 = INSTANCEOF + 37;

pub const MONITORENTER: u16 = INSTANCEOF_NULL + 1;

pub const INVOKEVIRTUAL: u16 = CALLS;

pub const INVOKEINTERFACE: u16 = INVOKEVIRTUAL + 51;

pub const INVOKESPECIAL: u16 = INVOKEINTERFACE + 55;

pub const INVOKESTATIC: u16 = INVOKESPECIAL + 37;

pub const INVOKE: u16 = INVOKESTATIC + 24;

pub const RETURN: u16 = RETURNS;

pub const IRETURN: u16 = RETURN + 52;

pub const LRETURN: u16 = IRETURN + 52;

pub const IMPDEP1: u16 = DEVICES;

pub const IMPDEP2: u16 = IMPDEP1 + 1;

pub const ATHROW: u16 = RAISING;

pub const RAISE_ARITHMETIC: u16 = ATHROW + 6;

pub const RAISE_INDEX: u16 = RAISE_ARITHMETIC + 2;

pub const RAISE_STORE: u16 = RAISE_INDEX + 2;

pub const RAISE_CAST: u16 = RAISE_STORE + 2;

pub const RAISE_CHANGE: u16 = RAISE_CAST + 2;

pub const RAISE_SIZE: u16 = RAISE_CHANGE + 2;

pub const RAISE_NULL: u16 = RAISE_SIZE + 2;

pub const RAISE_MEMORY: u16 = RAISE_NULL + 2;

pub const RAISE_OVERFLOW: u16 = RAISE_MEMORY + 2;

pub const RAISE_OBJECT: u16 = RAISE_OVERFLOW + 1;

pub const RAISE: u16 = RAISE_OBJECT + 6;

pub const HANDLER_TURN: u16 = RAISE + 16;

pub const HANDLER_NEXT: u16 = HANDLER_TURN + 47;

pub const HANDLER_FOUND: u16 = HANDLER_NEXT + 9;

pub const DROP_FRAME: u16 = HANDLER_FOUND + 31;
