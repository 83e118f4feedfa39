//! Which rules hold an instruction, by its opcode (JVM Specification SE 8, 4.10.1.9).
ghost use Rattle.bytecode_verifier.specs.Family.{IsFamilyOf};

use verifier_types::{Form, Moved, NumberType, Width};

/// Constants, numbers, local variables, words of the operand stack, input and output.
#[derive(Clone, Copy)]
pub enum Value {
    Nothing,
    PushNull,
    PushInt,
    PushLong,
    /// These numbers are taken off the stack, the first from its top, and one is put on it.
    Compute(&'static [NumberType], NumberType),
    /// Of the local variable whose index the instruction has.
    Load(Moved),
    LoadAt(Moved, u32),
    Store(Moved),
    StoreAt(Moved, u32),
    Increment,
    Shuffle(Form, Width, Width),
    Write,
}

/// Arrays and monitors.
#[derive(Clone, Copy)]
pub enum Array {
    /// Of numbers, by their array type code.
    New,
    Length,
    /// Of an array with one of these array type codes.
    LoadNumber(NumberType, &'static [u8]),
    StoreNumber(NumberType, &'static [u8]),
    LoadReference,
    StoreReference,
    Monitor,
}

/// Constants and types of the pool.
#[derive(Clone, Copy)]
pub enum Named {
    Constant,
    LongConstant,
    New,
    NewArray,
    Cast,
    Test,
}

/// Reading and writing of fields.
#[derive(Clone, Copy)]
pub enum Field {
    GetStatic,
    PutStatic,
    Get,
    Put,
}

/// Calls.
#[derive(Clone, Copy)]
pub enum Call {
    Static,
    Special,
    Virtual,
    Interface,
}

/// What leads elsewhere.
#[derive(Clone, Copy)]
pub enum Leads {
    /// Where numbers that are taken off the stack are so.
    Branch(&'static [NumberType]),
    /// Where two references are the same, or aren't.
    Same,
    /// Where a reference is null, or isn't.
    IsNull,
    Jump,
    TableSwitch,
    LookupSwitch,
    Throw,
    Return(Option<Moved>),
}

/// The instructions that are held to the same rules.
#[derive(Clone, Copy)]
pub enum Family {
    /// None of the instructions that there are.
    Unknown,
    Value(Value),
    Array(Array),
    Named(Named),
    Field(Field),
    Call(Call),
    Leads(Leads),
}

const ONE_INT: &[NumberType] = &[NumberType::Int];

const ONE_LONG: &[NumberType] = &[NumberType::Long];

const TWO_INTS: &[NumberType] = &[NumberType::Int, NumberType::Int];

const TWO_LONGS: &[NumberType] = &[NumberType::Long, NumberType::Long];

const INT_AND_LONG: &[NumberType] = &[NumberType::Int, NumberType::Long];

/// The array type codes (6.5.newarray).
const T_BOOLEAN: u8 = 4;

const T_CHAR: u8 = 5;

const T_BYTE: u8 = 8;

const T_SHORT: u8 = 9;

const T_INT: u8 = 10;

const T_LONG: u8 = 11;

/// By opcode; what is not supported is unknown.
static FAMILIES: [Family; 256] = [
    Family::Value(Value::Nothing), // nop
    Family::Value(Value::PushNull), // aconst_null
    Family::Value(Value::PushInt), // iconst_m1
    Family::Value(Value::PushInt), // iconst_0
    Family::Value(Value::PushInt), // iconst_1
    Family::Value(Value::PushInt), // iconst_2
    Family::Value(Value::PushInt), // iconst_3
    Family::Value(Value::PushInt), // iconst_4
    Family::Value(Value::PushInt), // iconst_5
    Family::Value(Value::PushLong), // lconst_0
    Family::Value(Value::PushLong), // lconst_1
    Family::Unknown, // fconst_0
    Family::Unknown, // fconst_1
    Family::Unknown, // fconst_2
    Family::Unknown, // dconst_0
    Family::Unknown, // dconst_1
    Family::Value(Value::PushInt), // bipush
    Family::Value(Value::PushInt), // sipush
    Family::Named(Named::Constant), // ldc
    Family::Named(Named::Constant), // ldc_w
    Family::Named(Named::LongConstant), // ldc2_w
    Family::Value(Value::Load(Moved::Ints)), // iload
    Family::Value(Value::Load(Moved::Longs)), // lload
    Family::Unknown, // fload
    Family::Unknown, // dload
    Family::Value(Value::Load(Moved::References)), // aload
    Family::Value(Value::LoadAt(Moved::Ints, 0)), // iload_0
    Family::Value(Value::LoadAt(Moved::Ints, 1)), // iload_1
    Family::Value(Value::LoadAt(Moved::Ints, 2)), // iload_2
    Family::Value(Value::LoadAt(Moved::Ints, 3)), // iload_3
    Family::Value(Value::LoadAt(Moved::Longs, 0)), // lload_0
    Family::Value(Value::LoadAt(Moved::Longs, 1)), // lload_1
    Family::Value(Value::LoadAt(Moved::Longs, 2)), // lload_2
    Family::Value(Value::LoadAt(Moved::Longs, 3)), // lload_3
    Family::Unknown, // fload_0
    Family::Unknown, // fload_1
    Family::Unknown, // fload_2
    Family::Unknown, // fload_3
    Family::Unknown, // dload_0
    Family::Unknown, // dload_1
    Family::Unknown, // dload_2
    Family::Unknown, // dload_3
    Family::Value(Value::LoadAt(Moved::References, 0)), // aload_0
    Family::Value(Value::LoadAt(Moved::References, 1)), // aload_1
    Family::Value(Value::LoadAt(Moved::References, 2)), // aload_2
    Family::Value(Value::LoadAt(Moved::References, 3)), // aload_3
    Family::Array(Array::LoadNumber(NumberType::Int, &[T_INT])), // iaload
    Family::Array(Array::LoadNumber(NumberType::Long, &[T_LONG])), // laload
    Family::Unknown, // faload
    Family::Unknown, // daload
    Family::Array(Array::LoadReference), // aaload
    Family::Array(Array::LoadNumber(NumberType::Int, &[T_BYTE, T_BOOLEAN])), // baload
    Family::Array(Array::LoadNumber(NumberType::Int, &[T_CHAR])), // caload
    Family::Array(Array::LoadNumber(NumberType::Int, &[T_SHORT])), // saload
    Family::Value(Value::Store(Moved::Ints)), // istore
    Family::Value(Value::Store(Moved::Longs)), // lstore
    Family::Unknown, // fstore
    Family::Unknown, // dstore
    Family::Value(Value::Store(Moved::References)), // astore
    Family::Value(Value::StoreAt(Moved::Ints, 0)), // istore_0
    Family::Value(Value::StoreAt(Moved::Ints, 1)), // istore_1
    Family::Value(Value::StoreAt(Moved::Ints, 2)), // istore_2
    Family::Value(Value::StoreAt(Moved::Ints, 3)), // istore_3
    Family::Value(Value::StoreAt(Moved::Longs, 0)), // lstore_0
    Family::Value(Value::StoreAt(Moved::Longs, 1)), // lstore_1
    Family::Value(Value::StoreAt(Moved::Longs, 2)), // lstore_2
    Family::Value(Value::StoreAt(Moved::Longs, 3)), // lstore_3
    Family::Unknown, // fstore_0
    Family::Unknown, // fstore_1
    Family::Unknown, // fstore_2
    Family::Unknown, // fstore_3
    Family::Unknown, // dstore_0
    Family::Unknown, // dstore_1
    Family::Unknown, // dstore_2
    Family::Unknown, // dstore_3
    Family::Value(Value::StoreAt(Moved::References, 0)), // astore_0
    Family::Value(Value::StoreAt(Moved::References, 1)), // astore_1
    Family::Value(Value::StoreAt(Moved::References, 2)), // astore_2
    Family::Value(Value::StoreAt(Moved::References, 3)), // astore_3
    Family::Array(Array::StoreNumber(NumberType::Int, &[T_INT])), // iastore
    Family::Array(Array::StoreNumber(NumberType::Long, &[T_LONG])), // lastore
    Family::Unknown, // fastore
    Family::Unknown, // dastore
    Family::Array(Array::StoreReference), // aastore
    Family::Array(Array::StoreNumber(NumberType::Int, &[T_BYTE, T_BOOLEAN])), // bastore
    Family::Array(Array::StoreNumber(NumberType::Int, &[T_CHAR])), // castore
    Family::Array(Array::StoreNumber(NumberType::Int, &[T_SHORT])), // sastore
    Family::Value(Value::Shuffle(Form::Drop, Width::One, Width::Zero)), // pop
    Family::Value(Value::Shuffle(Form::Drop, Width::Two, Width::Zero)), // pop2
    Family::Value(Value::Shuffle(Form::Copy, Width::One, Width::Zero)), // dup
    Family::Value(Value::Shuffle(Form::Copy, Width::One, Width::One)), // dup_x1
    Family::Value(Value::Shuffle(Form::Copy, Width::One, Width::Two)), // dup_x2
    Family::Value(Value::Shuffle(Form::Copy, Width::Two, Width::Zero)), // dup2
    Family::Value(Value::Shuffle(Form::Copy, Width::Two, Width::One)), // dup2_x1
    Family::Value(Value::Shuffle(Form::Copy, Width::Two, Width::Two)), // dup2_x2
    Family::Value(Value::Shuffle(Form::Swap, Width::One, Width::One)), // swap
    Family::Value(Value::Compute(TWO_INTS, NumberType::Int)), // iadd
    Family::Value(Value::Compute(TWO_LONGS, NumberType::Long)), // ladd
    Family::Unknown, // fadd
    Family::Unknown, // dadd
    Family::Value(Value::Compute(TWO_INTS, NumberType::Int)), // isub
    Family::Value(Value::Compute(TWO_LONGS, NumberType::Long)), // lsub
    Family::Unknown, // fsub
    Family::Unknown, // dsub
    Family::Value(Value::Compute(TWO_INTS, NumberType::Int)), // imul
    Family::Unknown, // lmul
    Family::Unknown, // fmul
    Family::Unknown, // dmul
    Family::Value(Value::Compute(TWO_INTS, NumberType::Int)), // idiv
    Family::Unknown, // ldiv
    Family::Unknown, // fdiv
    Family::Unknown, // ddiv
    Family::Value(Value::Compute(TWO_INTS, NumberType::Int)), // irem
    Family::Unknown, // lrem
    Family::Unknown, // frem
    Family::Unknown, // drem
    Family::Value(Value::Compute(ONE_INT, NumberType::Int)), // ineg
    Family::Value(Value::Compute(ONE_LONG, NumberType::Long)), // lneg
    Family::Unknown, // fneg
    Family::Unknown, // dneg
    Family::Value(Value::Compute(TWO_INTS, NumberType::Int)), // ishl
    Family::Value(Value::Compute(INT_AND_LONG, NumberType::Long)), // lshl
    Family::Value(Value::Compute(TWO_INTS, NumberType::Int)), // ishr
    Family::Value(Value::Compute(INT_AND_LONG, NumberType::Long)), // lshr
    Family::Value(Value::Compute(TWO_INTS, NumberType::Int)), // iushr
    Family::Value(Value::Compute(INT_AND_LONG, NumberType::Long)), // lushr
    Family::Value(Value::Compute(TWO_INTS, NumberType::Int)), // iand
    Family::Value(Value::Compute(TWO_LONGS, NumberType::Long)), // land
    Family::Value(Value::Compute(TWO_INTS, NumberType::Int)), // ior
    Family::Value(Value::Compute(TWO_LONGS, NumberType::Long)), // lor
    Family::Value(Value::Compute(TWO_INTS, NumberType::Int)), // ixor
    Family::Value(Value::Compute(TWO_LONGS, NumberType::Long)), // lxor
    Family::Value(Value::Increment), // iinc
    Family::Value(Value::Compute(ONE_INT, NumberType::Long)), // i2l
    Family::Unknown, // i2f
    Family::Unknown, // i2d
    Family::Value(Value::Compute(ONE_LONG, NumberType::Int)), // l2i
    Family::Unknown, // l2f
    Family::Unknown, // l2d
    Family::Unknown, // f2i
    Family::Unknown, // f2l
    Family::Unknown, // f2d
    Family::Unknown, // d2i
    Family::Unknown, // d2l
    Family::Unknown, // d2f
    Family::Value(Value::Compute(ONE_INT, NumberType::Int)), // i2b
    Family::Value(Value::Compute(ONE_INT, NumberType::Int)), // i2c
    Family::Value(Value::Compute(ONE_INT, NumberType::Int)), // i2s
    Family::Value(Value::Compute(TWO_LONGS, NumberType::Int)), // lcmp
    Family::Unknown, // fcmpl
    Family::Unknown, // fcmpg
    Family::Unknown, // dcmpl
    Family::Unknown, // dcmpg
    Family::Leads(Leads::Branch(ONE_INT)), // ifeq
    Family::Leads(Leads::Branch(ONE_INT)), // ifne
    Family::Leads(Leads::Branch(ONE_INT)), // iflt
    Family::Leads(Leads::Branch(ONE_INT)), // ifge
    Family::Leads(Leads::Branch(ONE_INT)), // ifgt
    Family::Leads(Leads::Branch(ONE_INT)), // ifle
    Family::Leads(Leads::Branch(TWO_INTS)), // if_icmpeq
    Family::Leads(Leads::Branch(TWO_INTS)), // if_icmpne
    Family::Leads(Leads::Branch(TWO_INTS)), // if_icmplt
    Family::Leads(Leads::Branch(TWO_INTS)), // if_icmpge
    Family::Leads(Leads::Branch(TWO_INTS)), // if_icmpgt
    Family::Leads(Leads::Branch(TWO_INTS)), // if_icmple
    Family::Leads(Leads::Same), // if_acmpeq
    Family::Leads(Leads::Same), // if_acmpne
    Family::Leads(Leads::Jump), // goto
    Family::Unknown, // jsr
    Family::Unknown, // ret
    Family::Leads(Leads::TableSwitch), // tableswitch
    Family::Leads(Leads::LookupSwitch), // lookupswitch
    Family::Leads(Leads::Return(Some(Moved::Ints))), // ireturn
    Family::Leads(Leads::Return(Some(Moved::Longs))), // lreturn
    Family::Unknown, // freturn
    Family::Unknown, // dreturn
    Family::Leads(Leads::Return(Some(Moved::References))), // areturn
    Family::Leads(Leads::Return(None)), // return
    Family::Field(Field::GetStatic), // getstatic
    Family::Field(Field::PutStatic), // putstatic
    Family::Field(Field::Get), // getfield
    Family::Field(Field::Put), // putfield
    Family::Call(Call::Virtual), // invokevirtual
    Family::Call(Call::Special), // invokespecial
    Family::Call(Call::Static), // invokestatic
    Family::Call(Call::Interface), // invokeinterface
    Family::Unknown, // invokedynamic
    Family::Named(Named::New), // new
    Family::Array(Array::New), // newarray
    Family::Named(Named::NewArray), // anewarray
    Family::Array(Array::Length), // arraylength
    Family::Leads(Leads::Throw), // athrow
    Family::Named(Named::Cast), // checkcast
    Family::Named(Named::Test), // instanceof
    Family::Array(Array::Monitor), // monitorenter
    Family::Array(Array::Monitor), // monitorexit
    Family::Unknown, // wide
    Family::Unknown, // multianewarray
    Family::Leads(Leads::IsNull), // ifnull
    Family::Leads(Leads::IsNull), // ifnonnull
    Family::Leads(Leads::Jump), // goto_w
    Family::Unknown, // jsr_w
    Family::Unknown, // breakpoint
    Family::Unknown, // 203: no opcode
    Family::Unknown, // 204: no opcode
    Family::Unknown, // 205: no opcode
    Family::Unknown, // 206: no opcode
    Family::Unknown, // 207: no opcode
    Family::Unknown, // 208: no opcode
    Family::Unknown, // 209: no opcode
    Family::Unknown, // 210: no opcode
    Family::Unknown, // 211: no opcode
    Family::Unknown, // 212: no opcode
    Family::Unknown, // 213: no opcode
    Family::Unknown, // 214: no opcode
    Family::Unknown, // 215: no opcode
    Family::Unknown, // 216: no opcode
    Family::Unknown, // 217: no opcode
    Family::Unknown, // 218: no opcode
    Family::Unknown, // 219: no opcode
    Family::Unknown, // 220: no opcode
    Family::Unknown, // 221: no opcode
    Family::Unknown, // 222: no opcode
    Family::Unknown, // 223: no opcode
    Family::Unknown, // 224: no opcode
    Family::Unknown, // 225: no opcode
    Family::Unknown, // 226: no opcode
    Family::Unknown, // 227: no opcode
    Family::Unknown, // 228: no opcode
    Family::Unknown, // 229: no opcode
    Family::Unknown, // 230: no opcode
    Family::Unknown, // 231: no opcode
    Family::Unknown, // 232: no opcode
    Family::Unknown, // 233: no opcode
    Family::Unknown, // 234: no opcode
    Family::Unknown, // 235: no opcode
    Family::Unknown, // 236: no opcode
    Family::Unknown, // 237: no opcode
    Family::Unknown, // 238: no opcode
    Family::Unknown, // 239: no opcode
    Family::Unknown, // 240: no opcode
    Family::Unknown, // 241: no opcode
    Family::Unknown, // 242: no opcode
    Family::Unknown, // 243: no opcode
    Family::Unknown, // 244: no opcode
    Family::Unknown, // 245: no opcode
    Family::Unknown, // 246: no opcode
    Family::Unknown, // 247: no opcode
    Family::Unknown, // 248: no opcode
    Family::Unknown, // 249: no opcode
    Family::Unknown, // 250: no opcode
    Family::Unknown, // 251: no opcode
    Family::Unknown, // 252: no opcode
    Family::Unknown, // 253: no opcode
    Family::Value(Value::PushInt), // impdep1
    Family::Value(Value::Write), // impdep2
];

/// The family of an opcode.
pub fn family_of(op: u8) -> Family
    ensures { IsFamilyOf op result }
{
    FAMILIES[op as usize]
}
