//! Writes the words of a line.

ghost use Rattle.std.specs.Prelude.{◌≡◌, ◌++◌, ◌∷◌, ◌<◌, [], map, OnOk};
ghost use Rattle.std.specs.List.{flat_map};
ghost use Rattle.std.specs.Fmt.{signed_decimal};
ghost use Rattle.listing_spec.specs.Printed.{hexadecimal, four_digits, escape_of, quotation, member_word, join_words};
ghost use Rattle.source_text.specs.Words.{units_in};
ghost use Rattle.source_text.specs.Lines.{with_lf};

use std::alloc::{AllocError, Global};

/// A word of a line, with what it spells.
#[derive(Clone, Copy)]
pub(crate) enum Word<'a> {
    /// A word of the language.
    Ascii(&'a str),
    /// A name, a descriptor or a label.
    Name(&'a [u16]),
    Number(i64),
    /// A text in quotes.
    Quoted(&'a [u16]),
    /// A field: `class/name`.
    Member(&'a [u16], &'a [u16]),
    /// A method's name with its descriptor.
    Described(&'a [u16], &'a [u16]),
    /// A method: `class/name` with its descriptor.
    Method(&'a [u16], &'a [u16], &'a [u16]),
}

const SPACE: u16 = 32;

const QUOTE: u16 = 34;

const SLASH: u16 = 47;

const LINE_FEED: u16 = 10;

/// Appends an ASCII text.
pub(crate) fn put_ascii(out: &mut Vec<u16>, text: &str) -> Result<(), AllocError>
    ensures { OnOk result (out.new.items ≡ out.old.items ++ text.now) }
{
    for byte in text.as_bytes() {
        out.push(u16::from(*byte))?;
    }
    Ok(())
}

/// Appends a number in decimal digits.
fn put_number(alloc: Global, out: &mut Vec<u16>, number: i64) -> Result<(), AllocError>
    ensures { OnOk result (out.new.items ≡ out.old.items ++ signed_decimal number) }
{
    let text = format!(in alloc; "{number}")?;
    put_ascii(out, text.as_str())
}

/// Returns a hexadecimal digit, in lower case.
fn hexadecimal(digit: u16) -> u16
    requires { digit < 16 }
    ensures { result ≡ hexadecimal digit }
{
    if digit < 10 { 48 + digit } else { 87 + digit }
}

/// Appends a unit as `\u` and four hexadecimal digits.
fn put_numbered(out: &mut Vec<u16>, unit: u16) -> Result<(), AllocError>
    ensures { OnOk result (out.new.items ≡ out.old.items ++ 92 ∷ 117 ∷ four_digits unit) }
{
    put_ascii(out, "\\u")?;
    out.push(hexadecimal(unit / 4096))?;
    out.push(hexadecimal(unit / 256 % 16))?;
    out.push(hexadecimal(unit / 16 % 16))?;
    out.push(hexadecimal(unit % 16))?;
    Ok(())
}

/// Appends a unit of a text in quotes.
fn put_escaped(out: &mut Vec<u16>, unit: u16) -> Result<(), AllocError>
    ensures { OnOk result (out.new.items ≡ out.old.items ++ escape_of unit) }
{
    match unit {
        10 => put_ascii(out, "\\n"),
        13 => put_ascii(out, "\\r"),
        9 => put_ascii(out, "\\t"),
        8 => put_ascii(out, "\\b"),
        12 => put_ascii(out, "\\f"),
        34 => put_ascii(out, "\\\""),
        92 => put_ascii(out, "\\\\"),
        32..=126 => {
            out.push(unit)?;
            Ok(())
        }
        _ => put_numbered(out, unit),
    }
}

/// Appends the units of a text in quotes.
fn put_inside(out: &mut Vec<u16>, text: &[u16]) -> Result<(), AllocError>
    ensures { OnOk result (out.new.items ≡ out.old.items ++ flat_map escape_of text.now) }
{
    for unit in text {
        put_escaped(out, *unit)?;
    }
    Ok(())
}

/// Appends a text in quotes.
#[tactic(auto, unfolding(listing_spec::specs::Printed::quotation))]
fn put_quoted(out: &mut Vec<u16>, text: &[u16]) -> Result<(), AllocError>
    ensures { OnOk result (out.new.items ≡ out.old.items ++ quotation text.now) }
{
    out.push(QUOTE)?;
    put_inside(out, text)?;
    out.push(QUOTE)?;
    Ok(())
}

/// Appends `class/name`.
fn put_member(out: &mut Vec<u16>, class: &[u16], name: &[u16]) -> Result<(), AllocError>
    ensures { OnOk result (out.new.items ≡ out.old.items ++ member_word class.now name.now) }
{
    out.extend_from_slice(class)?;
    out.push(SLASH)?;
    out.extend_from_slice(name)
}

/// Appends a name and a descriptor.
fn put_described(out: &mut Vec<u16>, name: &[u16], descriptor: &[u16]) -> Result<(), AllocError>
    ensures { OnOk result (out.new.items ≡ out.old.items ++ (name.now ++ descriptor.now)) }
{
    out.extend_from_slice(name)?;
    out.extend_from_slice(descriptor)
}

/// Appends `class/name` and a descriptor.
fn put_method(
    out: &mut Vec<u16>,
    class: &[u16],
    name: &[u16],
    descriptor: &[u16],
) -> Result<(), AllocError>
    ensures { OnOk result
        (out.new.items ≡ out.old.items ++ (member_word class.now name.now ++ descriptor.now)) }
{
    put_member(out, class, name)?;
    out.extend_from_slice(descriptor)
}

/// Appends a word.
fn put_word(alloc: Global, out: &mut Vec<u16>, word: Word<'_>) -> Result<(), AllocError>
    ensures { OnOk result (out.new.items ≡ out.old.items ++ units_in word.entry) }
{
    match word {
        Word::Ascii(text) => put_ascii(out, text),
        Word::Name(name) => out.extend_from_slice(name),
        Word::Number(number) => put_number(alloc, out, number),
        Word::Quoted(text) => put_quoted(out, text),
        Word::Member(class, name) => put_member(out, class, name),
        Word::Described(name, descriptor) => put_described(out, name, descriptor),
        Word::Method(class, name, descriptor) => put_method(out, class, name, descriptor),
    }
}

/// Appends a space and a word.
fn put_spaced(alloc: Global, out: &mut Vec<u16>, word: Word<'_>) -> Result<(), AllocError>
    ensures { OnOk result (out.new.items ≡ out.old.items ++ 32 ∷ units_in word.entry) }
{
    out.push(SPACE)?;
    put_word(alloc, out, word)
}

/// Appends words, each after a space.
fn put_others(alloc: Global, out: &mut Vec<u16>, words: &[Word<'_>]) -> Result<(), AllocError>
    ensures { OnOk result
        (out.new.items ≡ out.old.items ++ flat_map (λ w. 32 ∷ units_in w) words.now) }
{
    for word in words {
        put_spaced(alloc, out, *word)?;
    }
    Ok(())
}

/// Appends words, separated by single spaces.
#[tactic(auto, using(crate::proofs::Joined::no_words, crate::proofs::Joined::some_words))]
fn put_words(alloc: Global, out: &mut Vec<u16>, words: &[Word<'_>]) -> Result<(), AllocError>
    ensures { OnOk result (out.new.items ≡ out.old.items ++ join_words (map units_in words.now)) }
{
    match words {
        [] => Ok(()),
        [first, others @ ..] => {
            put_word(alloc, out, *first)?;
            put_others(alloc, out, others)
        }
    }
}

/// Appends a line of words.
pub(crate) fn put_line(
    alloc: Global,
    out: &mut Vec<u16>,
    words: &[Word<'_>],
) -> Result<(), AllocError>
    ensures { OnOk result
        (out.new.items ≡ out.old.items ++ with_lf (join_words (map units_in words.now))) }
{
    put_words(alloc, out, words)?;
    out.push(LINE_FEED)?;
    Ok(())
}
