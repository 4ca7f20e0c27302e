//! The kinds and statements of the lines of a source, and the faults that a line may have.

use crate::source::{CatchLine, FieldLine, MatchLine, Operation};
use shared_data::shared::Text;
use thiserror::Error;

/// A fault of a source, by number. A line with several faults reports the one of the least number.
#[derive(Clone, Copy, Debug, PartialEq, Eq, Error)]
pub enum Flaw {
    /// A text isn't closed on its line, or a backslash in a text begins no escape.
    #[error("J01 Lexeme")]
    Lexeme,
    /// No directive has this name.
    #[error("J02 UnknownDirective")]
    UnknownDirective,
    /// No instruction has this name.
    #[error("J03 UnknownInstruction")]
    UnknownInstruction,
    /// The statement isn't allowed at this place.
    #[error("J04 OutOfPlace")]
    OutOfPlace,
    /// A token isn't a number where one is required, or the number is out of range.
    #[error("J05 Number")]
    Number,
    /// An operand is missing, superfluous or malformed.
    #[error("J06 Operand")]
    Operand,
    /// A name or a label is malformed.
    #[error("J07 Name")]
    Name,
    /// A descriptor is malformed.
    #[error("J08 Descriptor")]
    Descriptor,
    /// An access word isn't one of its kind or is repeated, or a method of an interface isn't abstract.
    #[error("J09 Flags")]
    Flags,
    /// A statement that is allowed once is repeated, or a member with this name and descriptor exists.
    #[error("J10 Repeated")]
    Repeated,
    /// The class, the end of a method or the default of a switch is missing.
    #[error("J11 Missing")]
    Missing,
}

/// A directive, by its name.
#[derive(Clone, Copy, Debug, PartialEq, Eq)]
pub enum Directive {
    Bytecode,
    Source,
    Class,
    Interface,
    Super,
    Implements,
    Field,
    Method,
    /// `.end`, which `method` has to follow.
    End,
    Limit,
    Catch,
    Throws,
    Line,
    Var,
}

/// The kind of a line, before its operands are judged. An instruction has its opcode.
#[derive(Clone, Copy, Debug, PartialEq, Eq)]
pub enum LineKind {
    /// White space and comments only.
    Blank,
    Directive(Directive),
    /// A line of a switch other than its default.
    Case,
    /// The default of a switch.
    Default,
    /// `Name :` and nothing else.
    Label,
    Instruction(u8),
    LabelledInstruction(u8),
}

/// The switch that the lines before leave open, as far as the operands of a line depend on it.
#[derive(Clone, Copy, Debug, PartialEq, Eq)]
pub enum OpenSwitch {
    /// No switch is open.
    None,
    /// A `tableswitch`, with the value of its next label.
    Table { next: i64 },
    /// A `lookupswitch`, with the value of its last line, if it has one.
    Lookup { last: Option<i32> },
}

/// The sort of class that the lines before have begun.
#[derive(Clone, Copy, Debug, PartialEq, Eq)]
pub enum ClassSort {
    Class,
    /// An interface: its methods have to be abstract, except `<clinit>`.
    Interface,
}

/// The statement of an instruction's line. A switch continues in the lines that follow.
#[derive(Drop)]
pub enum Instruction {
    Whole(Operation),
    /// `tableswitch`, with its lowest value.
    Table(i32),
    Lookup,
}

/// The statement of a line.
#[derive(Drop)]
pub enum Statement {
    Blank,
    /// `.bytecode`, which is dropped.
    Bytecode,
    /// `.source`, which is dropped.
    SourceFile,
    /// `.class` or `.interface`, with all its access flags.
    Class {
        access: u16,
        name: Text,
    },
    Superclass(Text),
    Implements(Text),
    Field(FieldLine),
    Method {
        access: u16,
        name: Text,
        descriptor: Text,
    },
    EndMethod,
    MaxStack(u16),
    MaxLocals(u16),
    Catch(CatchLine),
    Throws(Text),
    /// `.line` or `.var`, which is dropped.
    Dropped,
    /// A line of a `tableswitch`.
    TableLabel(Text),
    /// A line of a `lookupswitch`.
    Match(MatchLine),
    /// The last line of a switch.
    Default(Text),
    Label(Text),
    Instruction(Instruction),
    LabelledInstruction(Text, Instruction),
}
