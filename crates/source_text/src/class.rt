//! Writes the lines of a class.

ghost use Rattle.std.specs.Prelude.{◌≡◌, ◌++◌, ◌∷◌, [], map, OnOk, IfOk, codes};
ghost use Rattle.std.specs.List.{flat_map};
ghost use Rattle.listing_spec.specs.Printed.{join_words, access_names, written_class_words, written_interface_words, class_line, lines_of_source};
ghost use Rattle.source_text.specs.Words.{units_in};
ghost use Rattle.source_text.specs.Lines.{with_lf, text_of_lines};

use crate::access::{push_class_words, push_interface_words, push_word};
use crate::member::{put_fields, put_methods};
use crate::word::{Word, put_line};
use descriptor::Flags;
use jasmin::source::Source;
use shared_data::shared::Text;
use std::alloc::{AllocError, Global};

/// Returns the words of a class's line.
fn words_of_class<'a>(alloc: Global, source: &'a Source) -> Result<Vec<Word<'a>>, AllocError>
    ensures { IfOk result (λ words. map units_in words.items ≡ codes ".class"
        ∷ access_names written_class_words source.now.access ++ source.now.name ∷ []) }
{
    let mut words = Vec::new(alloc);
    push_word(&mut words, Word::Ascii(".class"))?;
    push_class_words(&mut words, source.access)?;
    push_word(&mut words, Word::Name(source.name.as_slice()))?;
    Ok(words)
}

/// Returns the words of an interface's line.
fn words_of_interface<'a>(alloc: Global, source: &'a Source) -> Result<Vec<Word<'a>>, AllocError>
    ensures { IfOk result (λ words. map units_in words.items ≡ codes ".interface"
        ∷ access_names written_interface_words source.now.access ++ source.now.name ∷ []) }
{
    let mut words = Vec::new(alloc);
    push_word(&mut words, Word::Ascii(".interface"))?;
    push_interface_words(&mut words, source.access)?;
    push_word(&mut words, Word::Name(source.name.as_slice()))?;
    Ok(words)
}

/// Appends the line of a class or an interface.
fn put_class_line(alloc: Global, out: &mut Vec<u16>, source: &Source) -> Result<(), AllocError>
    ensures { OnOk result (out.new.items ≡ out.old.items ++ with_lf (class_line source.now)) }
{
    if Flags::of_access(source.access).is_interface() {
        let words = words_of_interface(alloc, source)?;
        put_line(alloc, out, &words)
    } else {
        let words = words_of_class(alloc, source)?;
        put_line(alloc, out, &words)
    }
}

/// Appends the line of an implemented interface.
fn put_interface(alloc: Global, out: &mut Vec<u16>, name: &Text) -> Result<(), AllocError>
    ensures { OnOk result
        (out.new.items ≡ out.old.items
        ++ with_lf (join_words (codes ".implements" ∷ name.now ∷ []))) }
{
    let name = Word::Name(name.as_slice());
    put_line(alloc, out, &[Word::Ascii(".implements"), name])
}

/// Appends the lines of the implemented interfaces.
fn put_interfaces(alloc: Global, out: &mut Vec<u16>, names: &[Text]) -> Result<(), AllocError>
    ensures { OnOk result (out.new.items ≡ out.old.items
        ++ flat_map (λ name. with_lf (join_words (codes ".implements" ∷ name ∷ []))) names.now) }
{
    for name in names {
        put_interface(alloc, out, name)?;
    }
    Ok(())
}

/// Appends the lines of a source.
#[tactic(auto, using(crate::proofs::Classes::source_pieces))]
pub(crate) fn put_source(
    alloc: Global,
    out: &mut Vec<u16>,
    source: &Source,
) -> Result<(), AllocError>
    ensures { OnOk result
        (out.new.items ≡ out.old.items ++ text_of_lines (lines_of_source source.now)) }
{
    put_line(alloc, out, &[Word::Ascii(".bytecode 49.0")])?;
    put_class_line(alloc, out, source)?;
    let superclass = Word::Name(source.superclass.as_slice());
    put_line(alloc, out, &[Word::Ascii(".super"), superclass])?;
    put_interfaces(alloc, out, source.interfaces.as_slice())?;
    put_fields(alloc, out, source.fields.as_slice())?;
    put_methods(alloc, out, source.methods.as_slice())
}
