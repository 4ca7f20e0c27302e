//! A program: classes with their members by name, and their methods as lists of instructions.

use crate::case_table::CaseTable;
use crate::instructions::Instructions;
use crate::members::Members;
use jvms_file::descriptor::{FieldType, MethodType};
use jvms_file::insn::{Branch, ClassUse, FieldUse, Invoke, Simple, TableSwitch};
use shared_data::boxed::Boxed;
use shared_data::items::Items;
use shared_data::shared::{Shared, Text};

/// A field that an instruction names (JVMS 5.1).
#[derive(Debug, Drop)]
pub struct FieldReference {
    pub class: Text,
    pub name: Text,
    pub descriptor: Text,
    /// The type that the descriptor spells.
    pub field_type: Shared<FieldType>,
}

/// A method that an instruction names (JVMS 5.1).
#[derive(Debug, Drop)]
pub struct MethodReference {
    /// True if the pool entry is an InterfaceMethodref.
    pub is_interface: bool,
    pub class: Text,
    pub name: Text,
    pub descriptor: Text,
    /// The type that the descriptor spells.
    pub method_type: Shared<MethodType>,
}

/// A constant that an instruction loads from the constant pool (JVMS 6.5 ldc, ldc2_w).
#[derive(Debug, Drop)]
pub enum Loadable {
    Integer(i32),
    Float(u32),
    Long(i64),
    Double(u64),
    String(Text),
    Class(Text),
}

/// An instruction with the named items themselves in place of pool entries.
#[derive(Drop)]
pub enum Instruction {
    Simple(Simple),
    Branch(Branch, u32),
    Table(Boxed<TableSwitch>),
    Lookup(Boxed<CaseTable>),
    Constant(Boxed<Loadable>),
    Field(FieldUse, Boxed<FieldReference>),
    Invoke(Invoke, Boxed<MethodReference>),
    Class(ClassUse, Text),
    /// The number of dimensions that are created, and the array's class.
    MultiNewArray(u8, Text),
}

/// The exceptions that a handler catches (JVMS 4.7.3, catch_type).
#[derive(Debug, Drop)]
pub enum Catch {
    All,
    Class(Text),
}

/// A range of a method's instructions, and the place where an exception in it is handled.
#[derive(Debug, Drop)]
pub struct ExceptionHandler {
    pub start: u32,
    pub end: u32,
    pub target: u32,
    pub catch: Catch,
}

/// The code of a method.
#[derive(Drop)]
pub struct Body {
    pub max_stack: u16,
    pub max_locals: u16,
    pub instructions: Instructions,
    pub handlers: Items<ExceptionHandler>,
}

/// A field of a class.
#[derive(Debug, Drop)]
pub struct Field {
    pub name: Text,
    pub descriptor: Text,
    /// The type that the descriptor spells.
    pub field_type: Shared<FieldType>,
    pub is_static: bool,
    pub is_private: bool,
    /// The value that initialisation stores if the field is static.
    pub constant: Option<Loadable>,
}

/// The flags of a method that calls use. A `<clinit>` keeps none, and is called as a static method all the same.
#[derive(Clone, Copy, Debug, PartialEq, Eq)]
pub struct MethodFlags {
    pub is_static: bool,
    pub is_private: bool,
    pub is_synchronized: bool,
    pub is_native: bool,
    pub is_abstract: bool,
}

/// A method of a class.
#[derive(Drop)]
pub struct Method {
    pub name: Text,
    pub descriptor: Text,
    /// The type that the descriptor spells.
    pub method_type: Shared<MethodType>,
    pub flags: MethodFlags,
    /// The classes that the method declares to throw.
    pub throws: Items<Text>,
    pub body: Option<Body>,
}

/// The sort of a class.
#[derive(Clone, Copy, Debug, PartialEq, Eq)]
pub enum ClassKind {
    Interface,
    Abstract,
    Neither,
}

/// A class or an interface.
#[derive(Drop)]
pub struct Class {
    pub name: Text,
    pub kind: ClassKind,
    pub superclass: Option<Text>,
    pub interfaces: Items<Text>,
    pub fields: Members<Field>,
    pub methods: Members<Method>,
}
