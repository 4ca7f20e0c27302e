//! A pool with the forms of its texts.

ghost use Rattle.std.specs.Prelude.{◌≡◌, ℕ, List, IfOk, map, slice_get};
ghost use Rattle.std.specs.Option.{option_copied, option_map, option_and_then, unwrap_or};
ghost use Rattle.jvms_file.specs.ConstantPool.{entry, utf8_at, utf8_of, name_and_type_at};
ghost use Rattle.jvms_file.specs.Members.{same_entry_text};
ghost use Rattle.const_pool.specs.Firsts.{number_at};
ghost use Rattle.const_pool.specs.Texts.{forms_of, text_of as text_of_entry, text_with, known_after, canonical, is_one_number};

use crate::firsts::Firsts;
use crate::forms::{Forms, forms_of};
use crate::pool::Pool;
use jvms_file::class_file::Constant;
use shared_data::items::Items;
use std::alloc::{AllocError, Global};
use std::marker::Model;

/// The form of an entry's text, and the first entry with an equal text.
#[derive(Clone, Copy, Debug, PartialEq, Eq)]
pub(crate) struct Text {
    /// The least number of an entry with an equal text.
    pub(crate) canonical: usize,
    /// The forms of the text.
    pub(crate) forms: Forms,
}

/// A constant pool that keeps the forms of each of its texts, so that a member that names a text doesn't inspect it
/// again. Contracts see the list of its entries, as of a `Pool`.
#[derive(Drop)]
pub struct ScannedPool {
    pool: Pool,
    texts: Vec<Option<Text>>,
}

impl Model for ScannedPool {
    ghost use Rattle.std.specs.Prelude.{List, ◌≡◌, map};
    ghost use Rattle.jvms_file.specs.declared.class_file.Constant.{Constant};
    ghost use Rattle.const_pool.specs.Texts.{text_of};

    ghost Value = { List Constant };

    ghost view = { λ p. p.pool };

    ghost invariant = { λ p. p.texts.items ≡ map (text_of p.pool) p.pool };
}

/// Returns the first number and the forms of an entry's text, if it is one. `firsts` has the texts of the entries
/// before it.
fn text_of<'a>(
    firsts: &mut Firsts<'a>,
    number: usize,
    entry: &'a Constant,
) -> Result<Option<Text>, AllocError>
    ensures exact { IfOk result
        (λ text. text ≡ text_with (λ t. unwrap_or (number_at firsts.old t) number) entry.now) }
    ensures kept { IfOk result (λ text. (other : List ℕ) → number_at firsts.new other
        ≡ known_after (number_at firsts.old other) number other entry.now) }
{
    let Constant::Utf8(text) = entry else {
        return Ok(None);
    };
    let canonical = firsts.number(text.as_slice(), number)?;
    let forms = forms_of(text.as_slice());
    Ok(Some(Text { canonical, forms }))
}

/// Returns the first numbers and the forms of the texts of a pool's entries, in order.
fn texts_of(alloc: Global, entries: &[Constant]) -> Result<Vec<Option<Text>>, AllocError>
    ensures { IfOk result (λ texts. texts.items ≡ map (text_of_entry entries.now) entries.now) }
{
    let mut firsts = Firsts::new(alloc);
    let mut texts = Vec::new(alloc);
    for entry in entries {
        let text = text_of(&mut firsts, texts.len() + 1, entry)?;
        texts.push(text)?;
    }
    Ok(texts)
}

/// Returns the item at a place, if there is one.
fn at_place(texts: &[Option<Text>], place: usize) -> Option<&Option<Text>>
    ensures { option_copied result ≡ slice_get texts.now place }
{
    texts.get(place)
}

impl ScannedPool {
    /// Creates the pool of these entries.
    pub fn of(alloc: Global, entries: Items<Constant>) -> Result<Self, AllocError>
        ensures { IfOk result (λ pool. pool ≡ entries) }
    {
        let texts = texts_of(alloc, entries.as_slice())?;
        Ok(ScannedPool {
            pool: Pool::of(entries),
            texts,
        })
    }

    /// Returns the pool.
    pub fn pool(&self) -> &Pool
        ensures { result.now ≡ self.now }
    {
        &self.pool
    }

    /// Returns the entries by value.
    pub fn into_entries(self) -> Items<Constant>
        ensures { result ≡ self }
    {
        self.pool.into_entries()
    }

    /// Returns the pool by value.
    pub fn into_pool(self) -> Pool
        ensures { result ≡ self }
    {
        self.pool
    }

    /// Returns the first number and the forms of the text of a number, if it is a Utf8 entry's.
    fn text(&self, number: u16) -> Option<Text>
        ensures { result ≡ option_and_then (text_of_entry self.now) (entry self.now number) }
    {
        if number == 0 {
            return None;
        }
        at_place(&self.texts, usize::from(number) - 1)
            .copied()
            .flatten()
    }

    /// Returns the forms of the text of a number, if it is a Utf8 entry's.
    pub fn forms(&self, number: u16) -> Option<Forms>
        ensures { result ≡ option_map forms_of (utf8_at self.now number) }
    {
        self.text(number).map(|text| text.forms)
    }

    /// Returns the forms of the descriptor of a NameAndType entry whose numbers are those of texts (JVMS 4.4.6).
    pub fn descriptor_forms(&self, number: u16) -> Option<Forms>
        ensures { result ≡ option_map (λ x. forms_of x.1) (name_and_type_at self.now number) }
    {
        match self.pool.entry(number) {
            Some(Constant::NameAndType { name, descriptor }) if self.pool.is_utf8(*name) => {
                self.forms(*descriptor)
            }
            _ => None,
        }
    }

    /// Returns the least number of a Utf8 entry whose text is equal to that of this number, if it is one's. Two entries
    /// share such a number exactly if their texts are equal.
    pub fn canonical(&self, number: u16) -> Option<usize>
        ensures exact { result ≡ canonical self.now number }
        ensures same { (other : ℕ) → is_one_number result (canonical self.now other)
            ≡ same_entry_text self.now number other }
    {
        self.text(number).map(|text| text.canonical)
    }
}
