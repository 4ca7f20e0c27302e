//! Splits the words of members: `class/name`, and a method's descriptor after it.

ghost use Rattle.std.specs.Prelude.{◌≡◌, ◌≤◌, not, length};
ghost use Rattle.std.specs.List.{list_any, position_or_len, suffix_len};
ghost use Rattle.jvms_file.specs.Names.{is_name, is_method_name};
ghost use Rattle.jasmin.specs.Operands.{is_slash, is_parenthesis, class_of, name_of, is_member, before_descriptor, descriptor_of};

use crate::letters::{PARENTHESIS, SLASH};
use descriptor::{is_class_entry_name, is_method_name, is_name};

/// Returns the number of units after the last slash, or of all units if there is no slash.
fn after_slash(word: &[u16]) -> usize
    ensures exact { result ≡ suffix_len (λ u. not (is_slash u)) word.now }
    ensures within { result ≤ length word.now }
{
    word.iter().rev().take_while(|unit| **unit != SLASH).count()
}

/// Returns the class, which is before the last slash.
pub fn class_of(word: &[u16]) -> &[u16]
    ensures { result.now ≡ class_of word.now }
{
    let name = word.len() - after_slash(word);
    &word[..name.saturating_sub(1)]
}

/// Returns the member's name, which is after the last slash.
pub fn name_of(word: &[u16]) -> &[u16]
    ensures { result.now ≡ name_of word.now }
{
    &word[word.len() - after_slash(word)..]
}

/// Returns the number of units before the first parenthesis, or of all units if there is none.
fn before_parenthesis(word: &[u16]) -> usize
    ensures exact { result ≡ position_or_len is_parenthesis word.now }
    ensures within { result ≤ length word.now }
{
    word.iter().take_while(|unit| **unit != PARENTHESIS).count()
}

/// Returns the part of the word before a method's descriptor, which begins at the first parenthesis.
pub fn before_descriptor(word: &[u16]) -> &[u16]
    ensures { result.now ≡ before_descriptor word.now }
{
    &word[..before_parenthesis(word)]
}

/// Returns a method's descriptor, from the first parenthesis on.
pub fn descriptor_of(word: &[u16]) -> &[u16]
    ensures { result.now ≡ descriptor_of word.now }
{
    &word[before_parenthesis(word)..]
}

/// Decides whether a word has a slash.
fn has_slash(word: &[u16]) -> bool
    ensures { result ≡ list_any is_slash word.now }
{
    word.iter().any(|unit| *unit == SLASH)
}

/// Decides whether a word names a class or an array and a field of it.
pub fn is_member_field(word: &[u16]) -> bool
    ensures { result ≡ is_member is_name word.now }
{
    has_slash(word) && is_class_entry_name(class_of(word)) && is_name(name_of(word))
}

/// Decides whether a word names a class or an array and a method of it.
pub fn is_member_method(word: &[u16]) -> bool
    ensures { result ≡ is_member is_method_name word.now }
{
    has_slash(word) && is_class_entry_name(class_of(word)) && is_method_name(name_of(word))
}
