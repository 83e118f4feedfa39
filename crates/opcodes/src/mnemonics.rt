//! Opcodes by their mnemonics (JVM Specification SE 8, 6.5 and 6.2).

pub const LDC: u8 = 18;

pub const LDC_W: u8 = 19;

pub const LDC2_W: u8 = 20;

pub const GETSTATIC: u8 = 178;

pub const PUTSTATIC: u8 = 179;

pub const GETFIELD: u8 = 180;

pub const PUTFIELD: u8 = 181;

pub const INVOKEVIRTUAL: u8 = 182;

pub const INVOKESPECIAL: u8 = 183;

pub const INVOKESTATIC: u8 = 184;

pub const INVOKEINTERFACE: u8 = 185;

pub const NEW: u8 = 187;

pub const ANEWARRAY: u8 = 189;

pub const CHECKCAST: u8 = 192;

pub const INSTANCEOF: u8 = 193;

pub const IMPDEP1: u8 = 254;

pub const IMPDEP2: u8 = 255;
