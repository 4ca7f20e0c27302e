//! Judges the line of an instruction by the operands that its opcode takes. Each place is judged by itself, and the
//! line's fault is the one of the least number. The functions that judge directives and switches too are public.
#![tactic(auto)]

mod class_operands;
mod constants;
mod descriptors;
mod fault;
mod field_operands;
mod instructions;
mod invoke_operands;
mod parts;

pub use descriptors::is_method_descriptor_for;
pub use fault::LineFault;
pub use instructions::instruction_line;
pub use parts::{alone, two_words, two_words_unless, word_unless};
