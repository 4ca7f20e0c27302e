//! Texts of a constant pool by index. Each is made once, and shared by all that name it.

ghost use Rattle.std.specs.Prelude.{◌≡◌, [], IfOk, map, slice_get};
ghost use Rattle.std.specs.Option.{option_and_then, option_copied, unwrap_or};
ghost use Rattle.jvms_file.specs.ConstantPool.{entry, utf8_of, utf8_at, both};
ghost use Rattle.jvms_program.specs.Meaning.{text_of, class_text, name_and_type};

use jvms_file::class_file::Constant;
use shared_data::items::Items;
use shared_data::shared::{Shared, Text};
use shared_data::texts::copied_text;
use std::alloc::{AllocError, Global};
use std::marker::Model;

/// A class's constant pool with its texts, each of which is made once and shared. In contracts it is the list of its
/// entries.
#[derive(Drop)]
pub(crate) struct Texts<'p> {
    pool: &'p [Constant],
    texts: Vec<Option<Text>>,
    /// The empty text, which is returned for a missing one.
    nothing: Text,
}

impl<'p> Model for Texts<'p> {
    ghost use Rattle.std.specs.Prelude.{List, [], ◌≡◌, map};
    ghost use Rattle.jvms_file.specs.declared.class_file.Constant.{Constant};
    ghost use Rattle.jvms_file.specs.ConstantPool.{utf8_of};

    ghost Value = { List Constant };

    ghost view = { λ t. t.pool.now };

    ghost invariant = { λ t. (t.texts.items ≡ map utf8_of t.pool.now) × (t.nothing ≡ []) };
}

/// Returns the text of an entry, if it is a Utf8 entry (JVMS 4.4.7).
fn entry_text(alloc: Global, constant: &Constant) -> Result<Option<Text>, AllocError>
    ensures { IfOk result (λ text. text ≡ utf8_of constant.now) }
{
    match constant {
        Constant::Utf8(text) => Ok(Some(copied_text(alloc, text.as_slice())?)),
        _ => Ok(None),
    }
}

/// Returns the texts of entries, in order.
fn entry_texts(alloc: Global, pool: &[Constant]) -> Result<Vec<Option<Text>>, AllocError>
    ensures { IfOk result (λ texts. texts.items ≡ map utf8_of pool.now) }
{
    let mut texts = Vec::with_capacity(alloc, pool.len())?;
    for constant in pool {
        texts.push(entry_text(alloc, constant)?)?;
    }
    Ok(texts)
}

/// Returns the text at a place, if there is one.
fn at_place(texts: &[Option<Text>], place: usize) -> Option<&Text>
    ensures { option_copied result ≡ option_and_then (λ text. text) (slice_get texts.now place) }
{
    match texts.get(place) {
        Some(Some(found)) => Some(found),
        _ => None,
    }
}

impl<'p> Texts<'p> {
    /// Returns the texts of a pool.
    pub(crate) fn of(alloc: Global, pool: &'p [Constant]) -> Result<Self, AllocError>
        ensures { IfOk result (λ texts. texts ≡ pool.now) }
    {
        let nothing = Shared::new(alloc, Items::new(alloc))?;
        let texts = entry_texts(alloc, pool)?;
        Ok(Texts {
            pool,
            texts,
            nothing,
        })
    }

    /// Returns the entry of an index, if there is one.
    pub(crate) fn entry(&self, number: u16) -> Option<&Constant>
        ensures { option_copied result ≡ entry self.now number }
    {
        if number == 0 {
            return None;
        }
        self.pool.get(usize::from(number) - 1)
    }

    /// Returns the text of a Utf8 entry (JVMS 4.4.7), if the index is that of one.
    #[tactic(auto, using(crate::proofs::PoolTexts::text_at))]
    fn found(&self, number: u16) -> Option<&Text>
        ensures { option_copied result ≡ utf8_at self.now number }
    {
        if number == 0 {
            return None;
        }
        at_place(&self.texts, usize::from(number) - 1)
    }

    /// Returns the text of a Utf8 entry, or the empty text if the index isn't that of one.
    pub(crate) fn text(&self, number: u16) -> Result<Text, AllocError>
        ensures { IfOk result (λ text. text ≡ text_of self.now number) }
    {
        match self.found(number) {
            Some(found) => found.share(),
            None => self.nothing.share(),
        }
    }

    /// Returns the name of a Class entry (JVMS 4.4.1), or the empty text if the index isn't that of one.
    pub(crate) fn class_name(&self, number: u16) -> Result<Text, AllocError>
        ensures { IfOk result (λ name. name ≡ class_text self.now number) }
    {
        match self.entry(number) {
            Some(Constant::Class { name }) => self.text(*name),
            _ => self.nothing.share(),
        }
    }

    /// Returns the names of Class entries, in order.
    pub(crate) fn class_names(
        &self,
        alloc: Global,
        numbers: &[u16],
    ) -> Result<Items<Text>, AllocError>
        ensures { IfOk result (λ names. names ≡ map (class_text self.now) numbers.now) }
    {
        let mut names = Vec::with_capacity(alloc, numbers.len())?;
        for number in numbers {
            names.push(self.class_name(*number)?)?;
        }
        Ok(Items::from_vec(names))
    }

    /// Returns two texts, or two empty texts if one is missing.
    fn two_texts(&self, name: u16, descriptor: u16) -> (&Text, &Text)
        ensures name { result.0.now
            ≡ (unwrap_or (both (utf8_at self.now name) (utf8_at self.now descriptor)) ([], [])).0 }
        ensures descriptor { result.1.now
            ≡ (unwrap_or (both (utf8_at self.now name) (utf8_at self.now descriptor)) ([], [])).1 }
    {
        match (self.found(name), self.found(descriptor)) {
            (Some(name), Some(descriptor)) => (name, descriptor),
            _ => (&self.nothing, &self.nothing),
        }
    }

    /// Returns the name and the descriptor of a NameAndType entry (JVMS 4.4.6), or two empty texts if one is missing.
    pub(crate) fn name_and_type(&self, number: u16) -> (&Text, &Text)
        ensures name { result.0.now ≡ (name_and_type self.now number).0 }
        ensures descriptor { result.1.now ≡ (name_and_type self.now number).1 }
    {
        match self.entry(number) {
            Some(Constant::NameAndType { name, descriptor }) => self.two_texts(*name, *descriptor),
            _ => (&self.nothing, &self.nothing),
        }
    }
}
