//! Makes the text of the patterns of the methods in which threads were left.

ghost use Rattle.std.specs.Prelude.{◌≡◌, ◌++◌, OnOk};
ghost use Rattle.std.specs.List.{flat_map};
ghost use Rattle.std.specs.String.{string_bytes};
ghost use Rattle.atom_spec.specs.Lines.{pattern_text};
ghost use Rattle.exploration_text.specs.Texts.{next_pattern_text, within_text};

use atom_spec::{Pattern, SpecificationLine};
use escapes::{put_member, put_name};
use std::alloc::AllocError;

/// Appends a pattern.
fn push_pattern(text: &mut String, pattern: &Pattern) -> Result<(), AllocError>
    ensures { OnOk result
        (string_bytes text.new ≡ string_bytes text.old ++ pattern_text pattern.now) }
{
    match pattern {
        Pattern::All => text.push_str("*"),
        Pattern::Class { class } => {
            put_name(text, class.as_slice())?;
            text.push_str(".*")
        }
        Pattern::Named { class, name } => {
            put_name(text, class.as_slice())?;
            text.push_str(".")?;
            put_name(text, name.as_slice())
        }
        Pattern::Exactly {
            class,
            name,
            descriptor,
        } => put_member(
            text,
            class.as_slice(),
            name.as_slice(),
            descriptor.as_slice(),
        ),
    }
}

/// Appends the patterns of lines, each after a space.
fn push_patterns(text: &mut String, lines: &[SpecificationLine]) -> Result<(), AllocError>
    ensures { OnOk result
        (string_bytes text.new ≡ string_bytes text.old ++ flat_map next_pattern_text lines.now) }
{
    for line in lines {
        text.push_str(" ")?;
        push_pattern(text, &line.pattern)?;
    }
    Ok(())
}

/// Appends ` within` and the patterns of lines, unless there is no line.
pub(crate) fn push_within(text: &mut String, lines: &[SpecificationLine]) -> Result<(), AllocError>
    ensures { OnOk result
        (string_bytes text.new ≡ string_bytes text.old ++ within_text lines.now) }
{
    if lines.is_empty() {
        return Ok(());
    }
    text.push_str(" within")?;
    push_patterns(text, lines)
}
