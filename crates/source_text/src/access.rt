//! Writes access words (JVMS tables 4.1-A, 4.5-A, 4.6-A).

ghost use Rattle.std.specs.Prelude.{◌≡◌, ◌++◌, ◌∷◌, [], map, OnOk, if◌then◌else◌};
ghost use Rattle.jasmin.specs.Operands.{field_words, method_words};
ghost use Rattle.listing_spec.specs.Printed.{access_names, written_class_words, written_interface_words};
ghost use Rattle.source_text.specs.Words.{units_in};

use crate::word::Word;
use jasmin_operands::{AccessWords, access_table};
use std::alloc::AllocError;

/// The access words of a class without `super`, which `.class` adds.
const CLASS_WORDS: [(&str, u16); 3] = [("public", 0x0001), ("final", 0x0010), ("abstract", 0x0400)];

/// The access words of an interface without those that `.interface` adds.
const INTERFACE_WORDS: [(&str, u16); 3] = [
    ("public", 0x0001),
    ("final", 0x0010),
    ("super", 0x0020),
];

/// Appends a word.
pub(crate) fn push_word<'a>(words: &mut Vec<Word<'a>>, word: Word<'a>) -> Result<(), AllocError>
    ensures { OnOk result
        (map units_in words.new.items ≡ map units_in words.old.items ++ units_in word.entry ∷ []) }
{
    words.push(word)?;
    Ok(())
}

/// Appends a word, if its flag is set.
fn push_word_if<'a>(
    words: &mut Vec<Word<'a>>,
    word: &'a str,
    is_set: bool,
) -> Result<(), AllocError>
    ensures { OnOk result (map units_in words.new.items
        ≡ map units_in words.old.items ++ (if is_set then word.now ∷ [] else [])) }
{
    if is_set {
        push_word(words, Word::Ascii(word))
    } else {
        Ok(())
    }
}

/// Appends the words of a table whose flags are set.
#[tactic(auto, unfolding(listing_spec::specs::Printed::access_names))]
fn push_words<'a>(
    words: &mut Vec<Word<'a>>,
    table: &[(&'a str, u16)],
    access: u16,
) -> Result<(), AllocError>
    ensures { OnOk result (map units_in words.new.items ≡ map units_in words.old.items
        ++ access_names (map (λ w. (w.0.now, w.1)) table.now) access) }
{
    let mut rest = table;
    while let [(word, flag), behind @ ..] = rest {
        push_word_if(words, word, access & *flag != 0)?;
        rest = behind;
    }
    Ok(())
}

/// Appends the access words of a class.
pub(crate) fn push_class_words(words: &mut Vec<Word<'_>>, access: u16) -> Result<(), AllocError>
    ensures { OnOk result (map units_in words.new.items
        ≡ map units_in words.old.items ++ access_names written_class_words access) }
{
    push_words(words, &CLASS_WORDS, access)
}

/// Appends the access words of an interface.
pub(crate) fn push_interface_words(words: &mut Vec<Word<'_>>, access: u16) -> Result<(), AllocError>
    ensures { OnOk result (map units_in words.new.items
        ≡ map units_in words.old.items ++ access_names written_interface_words access) }
{
    push_words(words, &INTERFACE_WORDS, access)
}

/// Appends the access words of a field.
pub(crate) fn push_field_words(words: &mut Vec<Word<'_>>, access: u16) -> Result<(), AllocError>
    ensures { OnOk result (map units_in words.new.items
        ≡ map units_in words.old.items ++ access_names field_words access) }
{
    push_words(words, access_table(AccessWords::Field), access)
}

/// Appends the access words of a method.
pub(crate) fn push_method_words(words: &mut Vec<Word<'_>>, access: u16) -> Result<(), AllocError>
    ensures { OnOk result (map units_in words.new.items
        ≡ map units_in words.old.items ++ access_names method_words access) }
{
    push_words(words, access_table(AccessWords::Method), access)
}
