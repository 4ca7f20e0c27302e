//! The syntax tree of a source: one class, with its instructions as they are spelled. A text is the list of its UTF-16
//! code units.

use jvms_file::insn::{ArrayType, Branch, ClassUse, FieldUse, Invoke, LocalUse};
use shared_data::boxed::Boxed;
use shared_data::items::Items;
use shared_data::shared::Text;

/// A field that an instruction names.
#[derive(Debug, Drop)]
pub struct FieldName {
    pub class: Text,
    pub name: Text,
    pub descriptor: Text,
}

/// A method that an instruction names.
#[derive(Debug, Drop)]
pub struct MethodName {
    pub class: Text,
    pub name: Text,
    pub descriptor: Text,
}

/// A constant that `ldc` or `ldc_w` loads.
#[derive(Debug, Drop)]
pub enum LoadedConstant {
    Integer(i32),
    String(Text),
    Class(Text),
}

/// The choice between `ldc` and `ldc_w`.
#[derive(Clone, Copy, Debug, PartialEq, Eq)]
pub enum ConstantWidth {
    /// `ldc`: assembled as `ldc_w` if the index of its pool entry is above 255.
    AsNeeded,
    /// `ldc_w`.
    Wide,
}

/// The width of a branch's offset.
#[derive(Clone, Copy, Debug, PartialEq, Eq)]
pub enum BranchWidth {
    /// Two bytes.
    Short,
    /// Four bytes: `goto_w`, `jsr_w`.
    Wide,
}

/// The lines of a `tableswitch`. The value `low + k` jumps to label k of `labels`, from 0.
#[derive(Debug, Drop)]
pub struct TableLines {
    pub low: i32,
    pub labels: Items<Text>,
    pub default: Text,
}

/// A line `number : label` of a `lookupswitch`.
#[derive(Debug, Drop)]
pub struct MatchLine {
    pub value: i32,
    pub label: Text,
}

/// The lines of a `lookupswitch`, by increasing value.
#[derive(Debug, Drop)]
pub struct LookupLines {
    pub matches: Items<MatchLine>,
    pub default: Text,
}

/// An instruction as it is spelled, with the operands of its opcode.
#[derive(Drop)]
pub enum Operation {
    /// An instruction without operands, with its opcode.
    Alone(u8),
    /// `bipush`.
    PushByte(i8),
    /// `sipush`.
    PushShort(i16),
    /// `ldc`, `ldc_w`.
    Constant(ConstantWidth, Boxed<LoadedConstant>),
    /// `ldc2_w` with a number of type long.
    ConstantLong(i64),
    /// A load, a store or `ret`, with the number of a local variable. `wide` is added if the number is above 255.
    Local(LocalUse, u16),
    /// `iinc` with a local variable's number and an increment. `wide` is added if the number is above 255 or the
    /// increment doesn't fit a signed byte.
    Increment(u16, i16),
    Branch(BranchWidth, Branch, Text),
    Table(Boxed<TableLines>),
    Lookup(Boxed<LookupLines>),
    Field(FieldUse, Boxed<FieldName>),
    Invoke(Invoke, Boxed<MethodName>),
    Class(ClassUse, Text),
    /// `newarray`.
    NewArray(ArrayType),
    /// `multianewarray`: the class and the number of dimensions.
    MultiNewArray(Text, u8),
}

/// An item of a method's code.
#[derive(Drop)]
pub enum CodeItem {
    /// The name of the place of the next operation, or of the code's end.
    Label(Text),
    Operation(Operation),
}

/// The exceptions that a `.catch` names.
#[derive(Debug, Drop)]
pub enum Caught {
    All,
    Class(Text),
}

/// A `.catch`: the labels of its range and of its handler.
#[derive(Debug, Drop)]
pub struct CatchLine {
    pub caught: Caught,
    pub from: Text,
    pub to: Text,
    pub using: Text,
}

/// The constant value of a field.
#[derive(Debug, Drop)]
pub enum FieldConstant {
    /// The value of a field of type int, byte, char, short or boolean. It may be outside the range of the field's type.
    Integer(i32),
    /// The value of a field of type long.
    Long(i64),
    /// The value of a field of type String.
    String(Text),
}

/// A `.field` line.
#[derive(Debug, Drop)]
pub struct FieldLine {
    pub access: u16,
    pub name: Text,
    pub descriptor: Text,
    pub constant: Option<FieldConstant>,
}

/// A method, from `.method` to `.end method`.
#[derive(Drop)]
pub struct MethodLines {
    pub access: u16,
    pub name: Text,
    pub descriptor: Text,
    pub throws: Items<Text>,
    pub max_stack: u16,
    pub max_locals: u16,
    pub catches: Items<CatchLine>,
    pub code: Items<CodeItem>,
}

/// A source: one class or interface.
#[derive(Drop)]
pub struct Source {
    pub access: u16,
    pub name: Text,
    pub superclass: Text,
    pub interfaces: Items<Text>,
    pub fields: Items<FieldLine>,
    pub methods: Items<MethodLines>,
}
