//! The texts and types that numbers of pool entries name.

ghost use Rattle.std.specs.Prelude.{◌≡◌, IfOk, map, slice_get};
ghost use Rattle.std.specs.Option.{option_and_then, option_copied, option_map};
ghost use Rattle.jvms_file.specs.ConstantPool.{utf8_at};
ghost use Rattle.jvms_program.specs.Meaning.{text_of, class_text, name_and_type};
ghost use Rattle.linker.specs.Spelled.{typed_text};

use crate::spelled::{TypedText, all_typed_texts, spelled_by_nothing};
use const_pool::{Constant, Pool};
use shared_data::items::Items;
use shared_data::shared::Text;
use std::alloc::{AllocError, Global};
use std::marker::Model;

/// A class's constant pool, whose texts are shared by all that name them. Contracts see the list of its entries, as of
/// a `Pool`.
#[derive(Drop)]
pub(crate) struct Texts {
    pool: Pool,
    typed_texts: Vec<Option<TypedText>>,
    /// The default for a text that isn't there.
    nothing: TypedText,
}

impl Model for Texts {
    ghost use Rattle.std.specs.Prelude.{List, [], ◌≡◌, map};
    ghost use Rattle.jvms_file.specs.declared.class_file.Constant.{Constant};
    ghost use Rattle.linker.specs.Spelled.{typed_text, typed_text_of};

    ghost Value = { List Constant };

    ghost view = { λ t. t.pool };

    ghost invariant = { λ t. (t.typed_texts.items ≡ map typed_text_of t.pool)
        × (t.nothing ≡ typed_text []) };
}

/// Copies items to a new list.
pub(crate) fn copied<T: Copy>(alloc: Global, items: &[T]) -> Result<Items<T>, AllocError>
    ensures { IfOk result (λ copy. copy ≡ items.now) }
{
    Ok(Items::from_vec(Vec::from_slice(alloc, items)?))
}

/// Returns the text of the entry at a place with its types, if it is a Utf8.
fn at_place(spelled: &[Option<TypedText>], place: usize) -> Option<&TypedText>
    ensures { option_copied result ≡ option_and_then (λ s. s) (slice_get spelled.now place) }
{
    match spelled.get(place) {
        Some(Some(found)) => Some(found),
        _ => None,
    }
}

impl Texts {
    /// Creates the texts of a pool.
    pub(crate) fn of(alloc: Global, pool: Pool) -> Result<Self, AllocError>
        ensures { IfOk result (λ texts. texts ≡ pool) }
    {
        let nothing = spelled_by_nothing(alloc)?;
        let typed_texts = all_typed_texts(alloc, pool.entries().as_slice(), &nothing)?;
        Ok(Texts {
            pool,
            typed_texts,
            nothing,
        })
    }

    /// Returns the pool.
    pub(crate) fn pool(&self) -> &Pool
        ensures { result.now ≡ self.now }
    {
        &self.pool
    }

    /// Returns the text of a Utf8 entry with its types (JVMS 4.4.7), if a number is one's.
    #[tactic(auto, using(crate::proofs::SpelledTexts::spelled_at))]
    fn found(&self, number: u16) -> Option<&TypedText>
        ensures { option_copied result ≡ option_map typed_text (utf8_at self.now number) }
    {
        if number == 0 {
            return None;
        }
        at_place(&self.typed_texts, usize::from(number) - 1)
    }

    /// Returns the text of a Utf8 entry with its types, or the empty text if the number is none's.
    #[tactic(auto, using(crate::proofs::SpelledTexts::found_spelled))]
    pub(crate) fn typed_text(&self, number: u16) -> &TypedText
        ensures { result.now ≡ typed_text (text_of self.now number) }
    {
        match self.found(number) {
            Some(found) => found,
            None => &self.nothing,
        }
    }

    /// Returns the text of a Utf8 entry, or the empty text if the number is none's.
    pub(crate) fn text(&self, number: u16) -> Result<Text, AllocError>
        ensures { IfOk result (λ text. text ≡ text_of self.now number) }
    {
        self.typed_text(number).text.share()
    }

    /// Returns the name of a Class entry (JVMS 4.4.1), or the empty text if the number is none's.
    pub(crate) fn class_name(&self, number: u16) -> Result<Text, AllocError>
        ensures { IfOk result (λ name. name ≡ class_text self.now number) }
    {
        match self.pool.entry(number) {
            Some(Constant::Class { name }) => self.text(*name),
            _ => self.nothing.text.share(),
        }
    }

    /// Returns the names of Class entries, in order.
    pub(crate) fn class_names(
        &self,
        alloc: Global,
        numbers: &[u16],
    ) -> Result<Items<Text>, AllocError>
        ensures { IfOk result (λ names. names ≡ map (class_text self.now) numbers.now) }
    {
        let mut names = Vec::with_capacity(alloc, numbers.len())?;
        for number in numbers {
            names.push(self.class_name(*number)?)?;
        }
        Ok(Items::from_vec(names))
    }

    /// Returns the name and the descriptor of a NameAndType entry with their types (JVMS 4.4.6), or empty texts if the
    /// number is none's.
    pub(crate) fn name_and_type(&self, number: u16) -> (&TypedText, &TypedText)
        ensures name { result.0.now ≡ typed_text (name_and_type self.now number).0 }
        ensures descriptor { result.1.now ≡ typed_text (name_and_type self.now number).1 }
    {
        match self.pool.entry(number) {
            Some(Constant::NameAndType { name, descriptor })
                if self.pool.is_utf8(*name) && self.pool.is_utf8(*descriptor) => (
                self.typed_text(*name),
                self.typed_text(*descriptor),
            ),
            _ => (&self.nothing, &self.nothing),
        }
    }
}
