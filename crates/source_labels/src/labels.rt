//! A table of the labels of a method's code.

ghost use Rattle.std.specs.Prelude.{◌≡◌, false, length, IfOk, MatchResult};
ghost use Rattle.jasmin.specs.Denote.{label_place, operations};
ghost use Rattle.jasmin.specs.Assembling.{repeats_label};
ghost use Rattle.source_labels.specs.Faults.{Explains};

use crate::fault::LabelsFault;
use jasmin::source::CodeItem;
use std::alloc::Global;
use std::collections::BTreeMap;
use std::marker::Model;

/// The labels of a method's code, each with the number of instructions before it. In contracts it is the code.
#[derive(Drop)]
pub struct Labels<'s> {
    code: &'s [CodeItem],
    places: BTreeMap<&'s [u16], usize>,
    operations: usize,
}

impl<'s> Model for Labels<'s> {
    ghost use Rattle.std.specs.Prelude.{List};
    ghost use Rattle.jasmin.specs.declared.source.CodeItem.{CodeItem};
    ghost use Rattle.source_labels.specs.Places.{ArePlacesOf};

    ghost Value = { List CodeItem };

    ghost view = { λ l. l.code.now };

    ghost invariant = { λ l. ArePlacesOf l.code.now l.places l.operations };
}

impl<'s> Labels<'s> {
    /// Returns the labels of code.
    ///
    /// # Errors
    ///
    /// Returns `Repeated` if a label is defined twice, which need not be referred to. Returns `Memory` if memory ran
    /// out.
    pub fn of(alloc: Global, code: &'s [CodeItem]) -> Result<Self, LabelsFault>
        ensures ok { IfOk result (λ labels. labels ≡ code.now) }
        ensures repeated { MatchResult result (λ _. repeats_label code.now ≡ false)
            (λ fault. Explains fault code.now) }
    {
        let mut places = BTreeMap::new(alloc);
        let mut operations = 0;
        for item in code {
            match item {
                CodeItem::Label(name) => {
                    if places.insert(name.as_slice(), operations)?.is_some() {
                        return Err(LabelsFault::Repeated);
                    }
                }
                CodeItem::Operation(_) => operations += 1,
            }
        }
        Ok(Labels {
            code,
            places,
            operations,
        })
    }

    /// Returns the number of instructions before a label, if it is defined.
    pub fn place(&self, label: &[u16]) -> Option<usize>
        ensures { result ≡ label_place self.now label.now }
    {
        self.places.get(label).copied()
    }

    /// Returns the number of instructions of the code.
    pub fn operations(&self) -> usize
        ensures { result ≡ length (operations self.now) }
    {
        self.operations
    }
}
