//! Texts as they are shown at a terminal, which would obey their control characters.

ghost use Rattle.std.specs.Prelude.{◌≡◌, ◌++◌, IfOk, OnOk};
ghost use Rattle.std.specs.String.{string_bytes};
ghost use Rattle.command_line.specs.Screen.{shown_character, shown_in_lines, shown_line, shown_lines};

use escapes::put_name;
use std::alloc::{AllocError, Global};

/// Appends a character: a control character as `\u` with four hexadecimal digits, each other one as itself.
fn put_character(out: &mut String, character: char) -> Result<(), AllocError>
    ensures { OnOk result
        (string_bytes out.new ≡ string_bytes out.old ++ shown_character character) }
{
    if character.is_control() {
        put_name(out, &[u32::from(character) as u16])
    } else {
        out.push(character)
    }
}

/// Appends a character of a text of lines: a line end stays.
fn put_in_lines(out: &mut String, character: char) -> Result<(), AllocError>
    ensures { OnOk result
        (string_bytes out.new ≡ string_bytes out.old ++ shown_in_lines character) }
{
    if character == '\n' {
        out.push('\n')
    } else {
        put_character(out, character)
    }
}

/// Returns a text as it is shown on one line: each control character is written as `\u` with four hexadecimal digits.
pub fn shown_line(alloc: Global, text: &str) -> Result<String, AllocError>
    ensures { IfOk result (λ shown. string_bytes shown ≡ shown_line text.now) }
{
    let mut shown = String::new(alloc);
    for character in text.chars() {
        put_character(&mut shown, character)?;
    }
    Ok(shown)
}

/// Returns a text of lines as it is shown: its line ends stay, and each other control character is written as `\u` with
/// four hexadecimal digits.
pub fn shown_lines(alloc: Global, text: &str) -> Result<String, AllocError>
    ensures { IfOk result (λ shown. string_bytes shown ≡ shown_lines text.now) }
{
    let mut shown = String::new(alloc);
    for character in text.chars() {
        put_in_lines(&mut shown, character)?;
    }
    Ok(shown)
}
