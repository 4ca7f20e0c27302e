//! Finds opcodes by mnemonic.

ghost use Rattle.std.specs.Prelude.{◌≡◌, ◌≤◌, length, position};
ghost use Rattle.jvms_file.specs.Names.{same_text};
ghost use Rattle.jasmin.specs.declared.mnemonic.TheConstants.{MNEMONICS as names};
ghost use Rattle.jasmin.specs.LineKinds.{opcode_named};

use descriptor::is_text;
use jasmin::mnemonic::MNEMONICS;

/// The opcode of invokespecial. `invokenonvirtual` is another name of it.
const INVOKESPECIAL: u8 = 183;

/// Decides whether a word is this name. The lengths, which usually differ, are compared first.
#[tactic(auto, using(crate::proofs::Lengths::not_same))]
fn is_name(name: &str, word: &[u16]) -> bool
    ensures { result ≡ same_text name.now word.now }
{
    name.len() == word.len() && is_text(name, word)
}

/// Returns the place of a word among names, if it is one of them.
fn place_of(word: &[u16], names: &[&str]) -> Option<usize>
    ensures { result ≡ position (λ name. same_text name.now word.now) names.now }
{
    names.iter().position(|name| is_name(name, word))
}

/// Returns the opcode of a word, which is its place among the names.
fn code_of(word: &[u16], names: &[&str]) -> Option<u8>
    requires { length names.now ≤ 256 }
    ensures { result ≡ position (λ name. same_text name.now word.now) names.now }
{
    match place_of(word, names) {
        Some(place) => Some(place as u8),
        None => None,
    }
}

/// Returns the opcode of a word in the table of mnemonics.
fn listed_opcode(word: &[u16]) -> Option<u8>
    ensures { result ≡ position (λ name. same_text name.now word.now) names }
{
    code_of(word, &MNEMONICS)
}

/// Returns the opcode of a mnemonic.
pub(crate) fn opcode_named(word: &[u16]) -> Option<u8>
    ensures { result ≡ opcode_named word.now }
{
    if is_text("invokenonvirtual", word) {
        Some(INVOKESPECIAL)
    } else {
        listed_opcode(word)
    }
}
