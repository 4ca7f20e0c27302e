//! Types as descriptors spell them (JVMS 4.3).

use shared_data::items::Items;

/// A primitive type (JVMS 4.3.2, BaseType).
#[derive(Clone, Copy, Debug, PartialEq, Eq)]
pub enum Primitive {
    Byte,
    Char,
    Double,
    Float,
    Int,
    Long,
    Short,
    Boolean,
}

/// The type of an array's innermost components, or a type that is no array.
#[derive(Debug, PartialEq, Eq, Drop)]
pub enum Element {
    Primitive(Primitive),
    /// The class or interface of this name.
    Object(Items<u16>),
}

/// The type of a field, a parameter or a result (JVMS 4.3.2, FieldType).
#[derive(Debug, PartialEq, Eq, Drop)]
pub struct FieldType {
    /// The number of brackets before the element, or 0 if the type is no array.
    pub dimensions: u8,
    pub element: Element,
}

/// The result of a method (JVMS 4.3.3, ReturnDescriptor).
#[derive(Debug, PartialEq, Eq, Drop)]
pub enum ResultType {
    Void,
    Value(FieldType),
}

/// The type of a method (JVMS 4.3.3, MethodDescriptor).
#[derive(Debug, PartialEq, Eq, Drop)]
pub struct MethodType {
    pub parameters: Items<FieldType>,
    pub result: ResultType,
}
