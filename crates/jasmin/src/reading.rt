//! The state of the reader of a source, after some of its lines.

use crate::source::{CatchLine, CodeItem, FieldLine, MatchLine, MethodLines};
use shared_data::items::Items;
use shared_data::shared::Text;

/// A part of a source. No statement of a part follows one of a later part.
#[derive(Clone, Copy, Debug, PartialEq, Eq)]
pub enum Part {
    /// `.bytecode` and `.source`.
    Beginning,
    /// `.class` or `.interface`.
    Class,
    Super,
    Implements,
    /// Fields and methods.
    Members,
}

/// The lines of a switch that is open.
#[derive(Debug, Drop)]
pub enum SwitchLines {
    Table { low: i32, labels: Items<Text> },
    Lookup { matches: Items<MatchLine> },
}

/// A method before its `.end method`.
#[derive(Drop)]
pub struct OpenMethod {
    pub access: u16,
    pub name: Text,
    pub descriptor: Text,
    pub throws: Items<Text>,
    /// The limit of the operand stack, if `.limit stack` gives it.
    pub max_stack: Option<u16>,
    /// The number of local variables, if `.limit locals` gives it.
    pub max_locals: Option<u16>,
    pub catches: Items<CatchLine>,
    pub code: Items<CodeItem>,
    pub switch: Option<SwitchLines>,
}

/// The state of the reader: what the lines so far have stated.
#[derive(Drop)]
pub struct Reading {
    /// The latest part that has a statement.
    pub part: Part,
    pub has_bytecode: bool,
    pub has_source: bool,
    /// The access flags of the class, or 0 before the line of the class.
    pub access: u16,
    /// The class's name, present after the line of the class.
    pub name: Option<Text>,
    pub superclass: Option<Text>,
    pub interfaces: Items<Text>,
    pub fields: Items<FieldLine>,
    /// The methods that `.end method` has closed.
    pub methods: Items<MethodLines>,
    pub method: Option<OpenMethod>,
}
