//! The parts of a class file (JVMS 4). Of the spelling of a method's code only the layout is kept.

use crate::insn::Insn;
use shared_data::items::Items;

/// An entry of the constant pool (JVMS 4.4). Numbers of other entries count from 1.
#[derive(Drop)]
pub enum Constant {
    /// A text, as its UTF-16 code units.
    Utf8(Items<u16>),
    Integer(i32),
    /// The four bytes of a float.
    Float(u32),
    Long(i64),
    /// The eight bytes of a double.
    Double(u64),
    Class { name: u16 },
    String { text: u16 },
    Field { class: u16, name_and_type: u16 },
    Method { class: u16, name_and_type: u16 },
    InterfaceMethod { class: u16, name_and_type: u16 },
    NameAndType { name: u16, descriptor: u16 },
    /// The number after a `Long` or a `Double`, which names nothing (JVMS 4.4.5).
    Unusable,
}

/// An attribute that is kept as bytes (JVMS 4.7).
#[derive(Drop)]
pub struct KeptAttribute {
    pub name: u16,
    pub bytes: Items<u8>,
}

/// An attribute of a field.
#[derive(Drop)]
pub enum FieldAttribute {
    /// The attribute ConstantValue (JVMS 4.7.2).
    ConstantValue { name: u16, value: u16 },
    Kept(KeptAttribute),
}

/// An entry of an exception table (JVMS 4.7.3). Its bounds and its target are places in the list of instructions. The
/// end may be the number of instructions.
#[derive(Clone, Copy)]
pub struct Handler {
    pub start: u32,
    pub end: u32,
    pub target: u32,
    /// The class entry of the caught exceptions. 0 catches all.
    pub catch_type: u16,
}

/// The layout of a method's code: its bytes, with pads set to 0, and the byte at which each instruction starts.
#[derive(Drop)]
pub struct Layout {
    pub bytes: Items<u8>,
    pub starts: Items<u32>,
}

/// The code of a method (JVMS 4.7.3).
#[derive(Drop)]
pub struct Code {
    pub max_stack: u16,
    pub max_locals: u16,
    pub layout: Layout,
    pub insns: Items<Insn>,
    pub handlers: Items<Handler>,
    pub attributes: Items<KeptAttribute>,
}

/// An attribute of a method.
#[derive(Drop)]
pub enum MethodAttribute {
    Code { name: u16, code: Code },
    /// The attribute Exceptions (JVMS 4.7.5).
    Exceptions { name: u16, classes: Items<u16> },
    Kept(KeptAttribute),
}

/// A field (JVMS 4.5).
#[derive(Drop)]
pub struct FieldInfo {
    pub access: u16,
    pub name: u16,
    pub descriptor: u16,
    pub attributes: Items<FieldAttribute>,
}

/// A method (JVMS 4.6).
#[derive(Drop)]
pub struct MethodInfo {
    pub access: u16,
    pub name: u16,
    pub descriptor: u16,
    pub attributes: Items<MethodAttribute>,
}

/// A class file (JVMS 4.1).
#[derive(Drop)]
pub struct ClassFile {
    pub minor: u16,
    pub major: u16,
    /// The entries. Entry number n is at place n - 1.
    pub pool: Items<Constant>,
    pub access: u16,
    pub this_class: u16,
    /// The class entry of the superclass, or 0 if there is none.
    pub super_class: u16,
    pub interfaces: Items<u16>,
    pub fields: Items<FieldInfo>,
    pub methods: Items<MethodInfo>,
    pub attributes: Items<KeptAttribute>,
}
