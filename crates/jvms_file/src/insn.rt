//! Instructions without their spelling (JVMS 6.5). The short, wide and `_w` forms of an instruction are one value here.
//! A target is a place in the method's list of instructions, from 0.

use shared_data::boxed::Boxed;
use shared_data::items::Items;

/// The kinds of values that loads, stores and returns distinguish.
#[derive(Clone, Copy, PartialEq, Eq)]
pub enum Kind {
    Int,
    Long,
    Float,
    Double,
    Reference,
}

/// The kinds of arrays that array loads and stores distinguish. `Byte` serves arrays of byte and boolean.
#[derive(Clone, Copy, PartialEq, Eq)]
pub enum ArrayKind {
    Int,
    Long,
    Float,
    Double,
    Reference,
    Byte,
    Char,
    Short,
}

/// A constant that an instruction pushes without a pool entry (JVMS 6.5 aconst_null, bipush, dconst, fconst, iconst,
/// lconst, sipush).
#[derive(Clone, Copy, PartialEq, Eq)]
pub enum Push {
    Null,
    /// `iconst`, `bipush` and `sipush`.
    Int(i16),
    Long(u8),
    Float(u8),
    Double(u8),
}

/// An operation on one local variable.
#[derive(Clone, Copy, PartialEq, Eq)]
pub enum LocalUse {
    Load(Kind),
    Store(Kind),
    /// JVMS 6.5 ret.
    Return,
}

/// The instructions that move operands of any kind (JVMS 6.5 pop to swap).
#[derive(Clone, Copy, PartialEq, Eq)]
pub enum StackForm {
    Pop,
    Pop2,
    Dup,
    DupX1,
    DupX2,
    Dup2,
    Dup2X1,
    Dup2X2,
    Swap,
}

/// An operation on two ints that always gives an int.
#[derive(Clone, Copy, PartialEq, Eq)]
pub enum Binary {
    Add,
    Subtract,
    Multiply,
    ShiftLeft,
    ShiftRight,
    /// JVMS 6.5 iushr.
    ShiftRightUnsigned,
    And,
    Or,
    ExclusiveOr,
}

/// An operation on two ints, or on two longs, that gives a number unless the divisor is 0.
#[derive(Clone, Copy, PartialEq, Eq)]
pub enum Division {
    Quotient,
    Remainder,
}

/// The types to which an int is narrowed (JVMS 2.11.4, 6.5 i2b, i2c, i2s). `Boolean` keeps the lowest bit.
#[derive(Clone, Copy, PartialEq, Eq)]
pub enum Narrow {
    Byte,
    Char,
    Short,
    Boolean,
}

/// The conversions of an int to a smaller type.
#[derive(Clone, Copy, PartialEq, Eq)]
pub enum Conversion {
    /// JVMS 6.5 i2b.
    ToByte,
    /// JVMS 6.5 i2c.
    ToChar,
    /// JVMS 6.5 i2s.
    ToShort,
}

/// The arithmetic of ints.
#[derive(Clone, Copy, PartialEq, Eq)]
pub enum IntInsn {
    Binary(Binary),
    Division(Division),
    /// JVMS 6.5 ineg.
    Negate,
    Conversion(Conversion),
}

/// An operation on two longs that always gives a long.
#[derive(Clone, Copy, PartialEq, Eq)]
pub enum LongBinary {
    /// JVMS 6.5 ladd.
    Add,
    /// JVMS 6.5 lsub.
    Subtract,
    /// JVMS 6.5 lmul.
    Multiply,
    /// JVMS 6.5 land.
    And,
    /// JVMS 6.5 lor.
    Or,
    /// JVMS 6.5 lxor.
    ExclusiveOr,
}

/// A shift of a long by an int.
#[derive(Clone, Copy, PartialEq, Eq)]
pub enum LongShift {
    /// JVMS 6.5 lshl.
    Left,
    /// JVMS 6.5 lshr.
    Right,
    /// JVMS 6.5 lushr.
    RightUnsigned,
}

/// The arithmetic of longs, with their conversions from and to int.
#[derive(Clone, Copy, PartialEq, Eq)]
pub enum LongInsn {
    Binary(LongBinary),
    /// JVMS 6.5 ldiv, lrem.
    Division(Division),
    Shift(LongShift),
    /// JVMS 6.5 lneg.
    Negate,
    /// JVMS 6.5 i2l.
    FromInt,
    /// JVMS 6.5 l2i.
    ToInt,
    /// JVMS 6.5 lcmp.
    Compare,
}

/// The arithmetic of floats and doubles, with their conversions. It is read and written, but never run.
#[derive(Clone, Copy, PartialEq, Eq)]
pub enum FloatingInsn {
    AddFloat,
    AddDouble,
    SubtractFloat,
    SubtractDouble,
    MultiplyFloat,
    MultiplyDouble,
    DivideFloat,
    DivideDouble,
    RemainderFloat,
    RemainderDouble,
    NegateFloat,
    NegateDouble,
    IntToFloat,
    IntToDouble,
    LongToFloat,
    LongToDouble,
    FloatToInt,
    FloatToLong,
    FloatToDouble,
    DoubleToInt,
    DoubleToLong,
    DoubleToFloat,
    /// JVMS 6.5 fcmpl.
    CompareFloatLess,
    /// JVMS 6.5 fcmpg.
    CompareFloatGreater,
    /// JVMS 6.5 dcmpl.
    CompareDoubleLess,
    /// JVMS 6.5 dcmpg.
    CompareDoubleGreater,
}

/// The component types of `newarray` (JVMS 6.5 newarray).
#[derive(Clone, Copy, PartialEq, Eq)]
pub enum ArrayType {
    Boolean,
    Char,
    Float,
    Double,
    Byte,
    Short,
    Int,
    Long,
}

/// An operation on an array that names no class.
#[derive(Clone, Copy, PartialEq, Eq)]
pub enum ArrayInsn {
    Load(ArrayKind),
    Store(ArrayKind),
    /// JVMS 6.5 arraylength.
    Length,
    /// JVMS 6.5 newarray.
    New(ArrayType),
}

/// A return from a method (JVMS 6.5 return, ireturn to areturn).
#[derive(Clone, Copy, PartialEq, Eq)]
pub enum ReturnInsn {
    Void,
    Value(Kind),
}

/// An operation on an object that names no class.
#[derive(Clone, Copy, PartialEq, Eq)]
pub enum ObjectInsn {
    /// JVMS 6.5 athrow.
    Throw,
    MonitorEnter,
    MonitorExit,
}

/// An instruction that names neither a pool entry nor a target.
#[derive(Clone, Copy, PartialEq, Eq)]
pub enum Simple {
    Nop,
    Push(Push),
    Local(LocalUse, u16),
    /// JVMS 6.5 iinc.
    Increment(u16, i16),
    Stack(StackForm),
    Int(IntInsn),
    Long(LongInsn),
    Floating(FloatingInsn),
    Array(ArrayInsn),
    Return(ReturnInsn),
    Object(ObjectInsn),
}

/// A comparison of two ints, or of an int with 0 (JVMS 6.5 if<cond>).
#[derive(Clone, Copy, PartialEq, Eq)]
pub enum Comparison {
    Equal,
    NotEqual,
    Less,
    GreaterOrEqual,
    Greater,
    LessOrEqual,
}

/// The kind of a branch with one target.
#[derive(Clone, Copy, PartialEq, Eq)]
pub enum Branch {
    /// JVMS 6.5 if<cond>: compares an int with 0.
    IfZero(Comparison),
    /// JVMS 6.5 if_icmp<cond>: compares two ints.
    IfInts(Comparison),
    /// JVMS 6.5 if_acmpeq.
    IfSame,
    /// JVMS 6.5 if_acmpne.
    IfDifferent,
    IfNull,
    IfNonNull,
    Goto,
    /// JVMS 6.5 jsr.
    Subroutine,
}

/// The cases of a `tableswitch`. The value `low + k` leads to target number k.
#[derive(PartialEq, Eq, Drop)]
pub struct TableSwitch {
    pub default: u32,
    pub low: i32,
    pub targets: Items<u32>,
}

/// One case of a `lookupswitch`.
#[derive(Clone, Copy, PartialEq, Eq)]
pub struct SwitchCase {
    pub value: i32,
    pub target: u32,
}

/// The cases of a `lookupswitch`, in rising order of their values.
#[derive(PartialEq, Eq, Drop)]
pub struct LookupSwitch {
    pub default: u32,
    pub cases: Items<SwitchCase>,
}

/// An operation on a field.
#[derive(Clone, Copy, PartialEq, Eq)]
pub enum FieldUse {
    GetStatic,
    PutStatic,
    Get,
    Put,
}

/// The kind of a method call.
#[derive(Clone, Copy, PartialEq, Eq)]
pub enum Invoke {
    Virtual,
    Special,
    Static,
    Interface,
}

/// An operation on a class.
#[derive(Clone, Copy, PartialEq, Eq)]
pub enum ClassUse {
    New,
    /// JVMS 6.5 anewarray.
    NewArray,
    CheckCast,
    InstanceOf,
}

/// The operands of an opcode (JVMS 6.5).
#[derive(Clone, Copy, PartialEq, Eq)]
pub enum Opcode {
    /// No operands: the opcode is the instruction.
    Alone(Simple),
    /// JVMS 6.5 bipush: one signed byte.
    PushByte,
    /// JVMS 6.5 sipush: two signed bytes.
    PushShort,
    /// JVMS 6.5 ldc: a pool number of one byte.
    Constant,
    /// JVMS 6.5 ldc_w: a pool number of two bytes.
    ConstantWide,
    /// JVMS 6.5 ldc2_w: a pool number of two bytes, of a long or a double.
    ConstantLong,
    /// A local's number of one byte, or of two after `wide`.
    Local(LocalUse),
    /// JVMS 6.5 iinc: a local's number and a signed byte, or two bytes of each after `wide`.
    Increment,
    /// Two signed bytes of offset.
    Branch(Branch),
    /// JVMS 6.5 goto_w, jsr_w: four signed bytes of offset.
    BranchWide(Branch),
    TableSwitch,
    LookupSwitch,
    /// A pool number of two bytes.
    Field(FieldUse),
    /// A pool number of two bytes. After that of an invokeinterface come a count and a 0.
    Invoke(Invoke),
    /// A pool number of two bytes.
    Class(ClassUse),
    /// JVMS 6.5 newarray: a byte for the type.
    NewArray,
    Wide,
    /// JVMS 6.5 multianewarray: a pool number of two bytes and a byte of dimensions.
    MultiNewArray,
    /// Opcode 186, which these versions don't have.
    Reserved,
}

/// An instruction of a class file. Each `u16` of this type is the number of a pool entry. That entry also determines
/// the count of an `invokeinterface`.
#[derive(PartialEq, Eq, Drop)]
pub enum Insn {
    Simple(Simple),
    Branch(Branch, u32),
    Table(Boxed<TableSwitch>),
    Lookup(Boxed<LookupSwitch>),
    /// JVMS 6.5 ldc, ldc_w, ldc2_w. The entry determines whether it is ldc2_w. ldc and ldc_w differ only in width.
    Constant(u16),
    Field(FieldUse, u16),
    Invoke(Invoke, u16),
    Class(ClassUse, u16),
    /// JVMS 6.5 multianewarray: the class and the number of dimensions.
    MultiNewArray(u16, u8),
}

/// The operands of each opcode, from opcode 0 (JVMS 7).
pub const OPCODES: [Opcode; 202] = [
    // 0 nop
    Opcode::Alone(Simple::Nop),
    // 1 aconst_null
    Opcode::Alone(Simple::Push(Push::Null)),
    // 2 iconst_m1
    Opcode::Alone(Simple::Push(Push::Int(-1))),
    // 3 iconst_0
    Opcode::Alone(Simple::Push(Push::Int(0))),
    // 4 iconst_1
    Opcode::Alone(Simple::Push(Push::Int(1))),
    // 5 iconst_2
    Opcode::Alone(Simple::Push(Push::Int(2))),
    // 6 iconst_3
    Opcode::Alone(Simple::Push(Push::Int(3))),
    // 7 iconst_4
    Opcode::Alone(Simple::Push(Push::Int(4))),
    // 8 iconst_5
    Opcode::Alone(Simple::Push(Push::Int(5))),
    // 9 lconst_0
    Opcode::Alone(Simple::Push(Push::Long(0))),
    // 10 lconst_1
    Opcode::Alone(Simple::Push(Push::Long(1))),
    // 11 fconst_0
    Opcode::Alone(Simple::Push(Push::Float(0))),
    // 12 fconst_1
    Opcode::Alone(Simple::Push(Push::Float(1))),
    // 13 fconst_2
    Opcode::Alone(Simple::Push(Push::Float(2))),
    // 14 dconst_0
    Opcode::Alone(Simple::Push(Push::Double(0))),
    // 15 dconst_1
    Opcode::Alone(Simple::Push(Push::Double(1))),
    // 16 bipush
    Opcode::PushByte,
    // 17 sipush
    Opcode::PushShort,
    // 18 ldc
    Opcode::Constant,
    // 19 ldc_w
    Opcode::ConstantWide,
    // 20 ldc2_w
    Opcode::ConstantLong,
    // 21 iload
    Opcode::Local(LocalUse::Load(Kind::Int)),
    // 22 lload
    Opcode::Local(LocalUse::Load(Kind::Long)),
    // 23 fload
    Opcode::Local(LocalUse::Load(Kind::Float)),
    // 24 dload
    Opcode::Local(LocalUse::Load(Kind::Double)),
    // 25 aload
    Opcode::Local(LocalUse::Load(Kind::Reference)),
    // 26 iload_0
    Opcode::Alone(Simple::Local(LocalUse::Load(Kind::Int), 0)),
    // 27 iload_1
    Opcode::Alone(Simple::Local(LocalUse::Load(Kind::Int), 1)),
    // 28 iload_2
    Opcode::Alone(Simple::Local(LocalUse::Load(Kind::Int), 2)),
    // 29 iload_3
    Opcode::Alone(Simple::Local(LocalUse::Load(Kind::Int), 3)),
    // 30 lload_0
    Opcode::Alone(Simple::Local(LocalUse::Load(Kind::Long), 0)),
    // 31 lload_1
    Opcode::Alone(Simple::Local(LocalUse::Load(Kind::Long), 1)),
    // 32 lload_2
    Opcode::Alone(Simple::Local(LocalUse::Load(Kind::Long), 2)),
    // 33 lload_3
    Opcode::Alone(Simple::Local(LocalUse::Load(Kind::Long), 3)),
    // 34 fload_0
    Opcode::Alone(Simple::Local(LocalUse::Load(Kind::Float), 0)),
    // 35 fload_1
    Opcode::Alone(Simple::Local(LocalUse::Load(Kind::Float), 1)),
    // 36 fload_2
    Opcode::Alone(Simple::Local(LocalUse::Load(Kind::Float), 2)),
    // 37 fload_3
    Opcode::Alone(Simple::Local(LocalUse::Load(Kind::Float), 3)),
    // 38 dload_0
    Opcode::Alone(Simple::Local(LocalUse::Load(Kind::Double), 0)),
    // 39 dload_1
    Opcode::Alone(Simple::Local(LocalUse::Load(Kind::Double), 1)),
    // 40 dload_2
    Opcode::Alone(Simple::Local(LocalUse::Load(Kind::Double), 2)),
    // 41 dload_3
    Opcode::Alone(Simple::Local(LocalUse::Load(Kind::Double), 3)),
    // 42 aload_0
    Opcode::Alone(Simple::Local(LocalUse::Load(Kind::Reference), 0)),
    // 43 aload_1
    Opcode::Alone(Simple::Local(LocalUse::Load(Kind::Reference), 1)),
    // 44 aload_2
    Opcode::Alone(Simple::Local(LocalUse::Load(Kind::Reference), 2)),
    // 45 aload_3
    Opcode::Alone(Simple::Local(LocalUse::Load(Kind::Reference), 3)),
    // 46 iaload
    Opcode::Alone(Simple::Array(ArrayInsn::Load(ArrayKind::Int))),
    // 47 laload
    Opcode::Alone(Simple::Array(ArrayInsn::Load(ArrayKind::Long))),
    // 48 faload
    Opcode::Alone(Simple::Array(ArrayInsn::Load(ArrayKind::Float))),
    // 49 daload
    Opcode::Alone(Simple::Array(ArrayInsn::Load(ArrayKind::Double))),
    // 50 aaload
    Opcode::Alone(Simple::Array(ArrayInsn::Load(ArrayKind::Reference))),
    // 51 baload
    Opcode::Alone(Simple::Array(ArrayInsn::Load(ArrayKind::Byte))),
    // 52 caload
    Opcode::Alone(Simple::Array(ArrayInsn::Load(ArrayKind::Char))),
    // 53 saload
    Opcode::Alone(Simple::Array(ArrayInsn::Load(ArrayKind::Short))),
    // 54 istore
    Opcode::Local(LocalUse::Store(Kind::Int)),
    // 55 lstore
    Opcode::Local(LocalUse::Store(Kind::Long)),
    // 56 fstore
    Opcode::Local(LocalUse::Store(Kind::Float)),
    // 57 dstore
    Opcode::Local(LocalUse::Store(Kind::Double)),
    // 58 astore
    Opcode::Local(LocalUse::Store(Kind::Reference)),
    // 59 istore_0
    Opcode::Alone(Simple::Local(LocalUse::Store(Kind::Int), 0)),
    // 60 istore_1
    Opcode::Alone(Simple::Local(LocalUse::Store(Kind::Int), 1)),
    // 61 istore_2
    Opcode::Alone(Simple::Local(LocalUse::Store(Kind::Int), 2)),
    // 62 istore_3
    Opcode::Alone(Simple::Local(LocalUse::Store(Kind::Int), 3)),
    // 63 lstore_0
    Opcode::Alone(Simple::Local(LocalUse::Store(Kind::Long), 0)),
    // 64 lstore_1
    Opcode::Alone(Simple::Local(LocalUse::Store(Kind::Long), 1)),
    // 65 lstore_2
    Opcode::Alone(Simple::Local(LocalUse::Store(Kind::Long), 2)),
    // 66 lstore_3
    Opcode::Alone(Simple::Local(LocalUse::Store(Kind::Long), 3)),
    // 67 fstore_0
    Opcode::Alone(Simple::Local(LocalUse::Store(Kind::Float), 0)),
    // 68 fstore_1
    Opcode::Alone(Simple::Local(LocalUse::Store(Kind::Float), 1)),
    // 69 fstore_2
    Opcode::Alone(Simple::Local(LocalUse::Store(Kind::Float), 2)),
    // 70 fstore_3
    Opcode::Alone(Simple::Local(LocalUse::Store(Kind::Float), 3)),
    // 71 dstore_0
    Opcode::Alone(Simple::Local(LocalUse::Store(Kind::Double), 0)),
    // 72 dstore_1
    Opcode::Alone(Simple::Local(LocalUse::Store(Kind::Double), 1)),
    // 73 dstore_2
    Opcode::Alone(Simple::Local(LocalUse::Store(Kind::Double), 2)),
    // 74 dstore_3
    Opcode::Alone(Simple::Local(LocalUse::Store(Kind::Double), 3)),
    // 75 astore_0
    Opcode::Alone(Simple::Local(LocalUse::Store(Kind::Reference), 0)),
    // 76 astore_1
    Opcode::Alone(Simple::Local(LocalUse::Store(Kind::Reference), 1)),
    // 77 astore_2
    Opcode::Alone(Simple::Local(LocalUse::Store(Kind::Reference), 2)),
    // 78 astore_3
    Opcode::Alone(Simple::Local(LocalUse::Store(Kind::Reference), 3)),
    // 79 iastore
    Opcode::Alone(Simple::Array(ArrayInsn::Store(ArrayKind::Int))),
    // 80 lastore
    Opcode::Alone(Simple::Array(ArrayInsn::Store(ArrayKind::Long))),
    // 81 fastore
    Opcode::Alone(Simple::Array(ArrayInsn::Store(ArrayKind::Float))),
    // 82 dastore
    Opcode::Alone(Simple::Array(ArrayInsn::Store(ArrayKind::Double))),
    // 83 aastore
    Opcode::Alone(Simple::Array(ArrayInsn::Store(ArrayKind::Reference))),
    // 84 bastore
    Opcode::Alone(Simple::Array(ArrayInsn::Store(ArrayKind::Byte))),
    // 85 castore
    Opcode::Alone(Simple::Array(ArrayInsn::Store(ArrayKind::Char))),
    // 86 sastore
    Opcode::Alone(Simple::Array(ArrayInsn::Store(ArrayKind::Short))),
    // 87 pop
    Opcode::Alone(Simple::Stack(StackForm::Pop)),
    // 88 pop2
    Opcode::Alone(Simple::Stack(StackForm::Pop2)),
    // 89 dup
    Opcode::Alone(Simple::Stack(StackForm::Dup)),
    // 90 dup_x1
    Opcode::Alone(Simple::Stack(StackForm::DupX1)),
    // 91 dup_x2
    Opcode::Alone(Simple::Stack(StackForm::DupX2)),
    // 92 dup2
    Opcode::Alone(Simple::Stack(StackForm::Dup2)),
    // 93 dup2_x1
    Opcode::Alone(Simple::Stack(StackForm::Dup2X1)),
    // 94 dup2_x2
    Opcode::Alone(Simple::Stack(StackForm::Dup2X2)),
    // 95 swap
    Opcode::Alone(Simple::Stack(StackForm::Swap)),
    // 96 iadd
    Opcode::Alone(Simple::Int(IntInsn::Binary(Binary::Add))),
    // 97 ladd
    Opcode::Alone(Simple::Long(LongInsn::Binary(LongBinary::Add))),
    // 98 fadd
    Opcode::Alone(Simple::Floating(FloatingInsn::AddFloat)),
    // 99 dadd
    Opcode::Alone(Simple::Floating(FloatingInsn::AddDouble)),
    // 100 isub
    Opcode::Alone(Simple::Int(IntInsn::Binary(Binary::Subtract))),
    // 101 lsub
    Opcode::Alone(Simple::Long(LongInsn::Binary(LongBinary::Subtract))),
    // 102 fsub
    Opcode::Alone(Simple::Floating(FloatingInsn::SubtractFloat)),
    // 103 dsub
    Opcode::Alone(Simple::Floating(FloatingInsn::SubtractDouble)),
    // 104 imul
    Opcode::Alone(Simple::Int(IntInsn::Binary(Binary::Multiply))),
    // 105 lmul
    Opcode::Alone(Simple::Long(LongInsn::Binary(LongBinary::Multiply))),
    // 106 fmul
    Opcode::Alone(Simple::Floating(FloatingInsn::MultiplyFloat)),
    // 107 dmul
    Opcode::Alone(Simple::Floating(FloatingInsn::MultiplyDouble)),
    // 108 idiv
    Opcode::Alone(Simple::Int(IntInsn::Division(Division::Quotient))),
    // 109 ldiv
    Opcode::Alone(Simple::Long(LongInsn::Division(Division::Quotient))),
    // 110 fdiv
    Opcode::Alone(Simple::Floating(FloatingInsn::DivideFloat)),
    // 111 ddiv
    Opcode::Alone(Simple::Floating(FloatingInsn::DivideDouble)),
    // 112 irem
    Opcode::Alone(Simple::Int(IntInsn::Division(Division::Remainder))),
    // 113 lrem
    Opcode::Alone(Simple::Long(LongInsn::Division(Division::Remainder))),
    // 114 frem
    Opcode::Alone(Simple::Floating(FloatingInsn::RemainderFloat)),
    // 115 drem
    Opcode::Alone(Simple::Floating(FloatingInsn::RemainderDouble)),
    // 116 ineg
    Opcode::Alone(Simple::Int(IntInsn::Negate)),
    // 117 lneg
    Opcode::Alone(Simple::Long(LongInsn::Negate)),
    // 118 fneg
    Opcode::Alone(Simple::Floating(FloatingInsn::NegateFloat)),
    // 119 dneg
    Opcode::Alone(Simple::Floating(FloatingInsn::NegateDouble)),
    // 120 ishl
    Opcode::Alone(Simple::Int(IntInsn::Binary(Binary::ShiftLeft))),
    // 121 lshl
    Opcode::Alone(Simple::Long(LongInsn::Shift(LongShift::Left))),
    // 122 ishr
    Opcode::Alone(Simple::Int(IntInsn::Binary(Binary::ShiftRight))),
    // 123 lshr
    Opcode::Alone(Simple::Long(LongInsn::Shift(LongShift::Right))),
    // 124 iushr
    Opcode::Alone(Simple::Int(IntInsn::Binary(Binary::ShiftRightUnsigned))),
    // 125 lushr
    Opcode::Alone(Simple::Long(LongInsn::Shift(LongShift::RightUnsigned))),
    // 126 iand
    Opcode::Alone(Simple::Int(IntInsn::Binary(Binary::And))),
    // 127 land
    Opcode::Alone(Simple::Long(LongInsn::Binary(LongBinary::And))),
    // 128 ior
    Opcode::Alone(Simple::Int(IntInsn::Binary(Binary::Or))),
    // 129 lor
    Opcode::Alone(Simple::Long(LongInsn::Binary(LongBinary::Or))),
    // 130 ixor
    Opcode::Alone(Simple::Int(IntInsn::Binary(Binary::ExclusiveOr))),
    // 131 lxor
    Opcode::Alone(Simple::Long(LongInsn::Binary(LongBinary::ExclusiveOr))),
    // 132 iinc
    Opcode::Increment,
    // 133 i2l
    Opcode::Alone(Simple::Long(LongInsn::FromInt)),
    // 134 i2f
    Opcode::Alone(Simple::Floating(FloatingInsn::IntToFloat)),
    // 135 i2d
    Opcode::Alone(Simple::Floating(FloatingInsn::IntToDouble)),
    // 136 l2i
    Opcode::Alone(Simple::Long(LongInsn::ToInt)),
    // 137 l2f
    Opcode::Alone(Simple::Floating(FloatingInsn::LongToFloat)),
    // 138 l2d
    Opcode::Alone(Simple::Floating(FloatingInsn::LongToDouble)),
    // 139 f2i
    Opcode::Alone(Simple::Floating(FloatingInsn::FloatToInt)),
    // 140 f2l
    Opcode::Alone(Simple::Floating(FloatingInsn::FloatToLong)),
    // 141 f2d
    Opcode::Alone(Simple::Floating(FloatingInsn::FloatToDouble)),
    // 142 d2i
    Opcode::Alone(Simple::Floating(FloatingInsn::DoubleToInt)),
    // 143 d2l
    Opcode::Alone(Simple::Floating(FloatingInsn::DoubleToLong)),
    // 144 d2f
    Opcode::Alone(Simple::Floating(FloatingInsn::DoubleToFloat)),
    // 145 i2b
    Opcode::Alone(Simple::Int(IntInsn::Conversion(Conversion::ToByte))),
    // 146 i2c
    Opcode::Alone(Simple::Int(IntInsn::Conversion(Conversion::ToChar))),
    // 147 i2s
    Opcode::Alone(Simple::Int(IntInsn::Conversion(Conversion::ToShort))),
    // 148 lcmp
    Opcode::Alone(Simple::Long(LongInsn::Compare)),
    // 149 fcmpl
    Opcode::Alone(Simple::Floating(FloatingInsn::CompareFloatLess)),
    // 150 fcmpg
    Opcode::Alone(Simple::Floating(FloatingInsn::CompareFloatGreater)),
    // 151 dcmpl
    Opcode::Alone(Simple::Floating(FloatingInsn::CompareDoubleLess)),
    // 152 dcmpg
    Opcode::Alone(Simple::Floating(FloatingInsn::CompareDoubleGreater)),
    // 153 ifeq
    Opcode::Branch(Branch::IfZero(Comparison::Equal)),
    // 154 ifne
    Opcode::Branch(Branch::IfZero(Comparison::NotEqual)),
    // 155 iflt
    Opcode::Branch(Branch::IfZero(Comparison::Less)),
    // 156 ifge
    Opcode::Branch(Branch::IfZero(Comparison::GreaterOrEqual)),
    // 157 ifgt
    Opcode::Branch(Branch::IfZero(Comparison::Greater)),
    // 158 ifle
    Opcode::Branch(Branch::IfZero(Comparison::LessOrEqual)),
    // 159 if_icmpeq
    Opcode::Branch(Branch::IfInts(Comparison::Equal)),
    // 160 if_icmpne
    Opcode::Branch(Branch::IfInts(Comparison::NotEqual)),
    // 161 if_icmplt
    Opcode::Branch(Branch::IfInts(Comparison::Less)),
    // 162 if_icmpge
    Opcode::Branch(Branch::IfInts(Comparison::GreaterOrEqual)),
    // 163 if_icmpgt
    Opcode::Branch(Branch::IfInts(Comparison::Greater)),
    // 164 if_icmple
    Opcode::Branch(Branch::IfInts(Comparison::LessOrEqual)),
    // 165 if_acmpeq
    Opcode::Branch(Branch::IfSame),
    // 166 if_acmpne
    Opcode::Branch(Branch::IfDifferent),
    // 167 goto
    Opcode::Branch(Branch::Goto),
    // 168 jsr
    Opcode::Branch(Branch::Subroutine),
    // 169 ret
    Opcode::Local(LocalUse::Return),
    // 170 tableswitch
    Opcode::TableSwitch,
    // 171 lookupswitch
    Opcode::LookupSwitch,
    // 172 ireturn
    Opcode::Alone(Simple::Return(ReturnInsn::Value(Kind::Int))),
    // 173 lreturn
    Opcode::Alone(Simple::Return(ReturnInsn::Value(Kind::Long))),
    // 174 freturn
    Opcode::Alone(Simple::Return(ReturnInsn::Value(Kind::Float))),
    // 175 dreturn
    Opcode::Alone(Simple::Return(ReturnInsn::Value(Kind::Double))),
    // 176 areturn
    Opcode::Alone(Simple::Return(ReturnInsn::Value(Kind::Reference))),
    // 177 return
    Opcode::Alone(Simple::Return(ReturnInsn::Void)),
    // 178 getstatic
    Opcode::Field(FieldUse::GetStatic),
    // 179 putstatic
    Opcode::Field(FieldUse::PutStatic),
    // 180 getfield
    Opcode::Field(FieldUse::Get),
    // 181 putfield
    Opcode::Field(FieldUse::Put),
    // 182 invokevirtual
    Opcode::Invoke(Invoke::Virtual),
    // 183 invokespecial
    Opcode::Invoke(Invoke::Special),
    // 184 invokestatic
    Opcode::Invoke(Invoke::Static),
    // 185 invokeinterface
    Opcode::Invoke(Invoke::Interface),
    // 186 186
    Opcode::Reserved,
    // 187 new
    Opcode::Class(ClassUse::New),
    // 188 newarray
    Opcode::NewArray,
    // 189 anewarray
    Opcode::Class(ClassUse::NewArray),
    // 190 arraylength
    Opcode::Alone(Simple::Array(ArrayInsn::Length)),
    // 191 athrow
    Opcode::Alone(Simple::Object(ObjectInsn::Throw)),
    // 192 checkcast
    Opcode::Class(ClassUse::CheckCast),
    // 193 instanceof
    Opcode::Class(ClassUse::InstanceOf),
    // 194 monitorenter
    Opcode::Alone(Simple::Object(ObjectInsn::MonitorEnter)),
    // 195 monitorexit
    Opcode::Alone(Simple::Object(ObjectInsn::MonitorExit)),
    // 196 wide
    Opcode::Wide,
    // 197 multianewarray
    Opcode::MultiNewArray,
    // 198 ifnull
    Opcode::Branch(Branch::IfNull),
    // 199 ifnonnull
    Opcode::Branch(Branch::IfNonNull),
    // 200 goto_w
    Opcode::BranchWide(Branch::Goto),
    // 201 jsr_w
    Opcode::BranchWide(Branch::Subroutine),
];
