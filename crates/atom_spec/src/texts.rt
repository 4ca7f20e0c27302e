//! A map from texts to values.

ghost use Rattle.std.specs.Prelude.{◌≡◌, ℕ, List, [], false, Some, OnOk, if◌then◌else◌};
ghost use Rattle.std.specs.Option.{option_copied};
ghost use Rattle.jvms_file.specs.Names.{same_text};
ghost use Rattle.atom_spec.specs.Lookup.{lookup_text};

use std::alloc::{AllocError, Global};
use std::collections::BTreeMap;
use std::marker::Model;

/// A map from texts to values, in the texts' order. Contracts see the list of its entries.
#[derive(Drop)]
pub(crate) struct Texts<V> {
    values: BTreeMap<Vec<u16>, V>,
}

impl<V> Model for Texts<V> {
    ghost use Rattle.std.specs.Prelude.{ℕ, List, map};

    ghost Value = { List (List ℕ × V) };

    ghost view = { λ t. map (λ e. (e.0.items, e.1)) t.values.entries };
}

impl<V> Texts<V> {
    /// Returns an empty map.
    pub(crate) fn new(alloc: Global) -> Self
        ensures { result ≡ [] }
    {
        Texts {
            values: BTreeMap::new(alloc),
        }
    }

    /// Returns the value of a text.
    pub(crate) fn find(&self, text: &[u16]) -> Option<&V>
        ensures { option_copied result ≡ lookup_text self.now text.now }
    {
        self.values.get(text)
    }

    /// Removes the value of a text and returns it.
    pub(crate) fn take(&mut self, text: &[u16]) -> Option<V>
        ensures value { result ≡ lookup_text self.old text.now }
        ensures others { (q : List ℕ) → same_text q text.now ≡ false
            → lookup_text self.new q ≡ lookup_text self.old q }
    {
        self.values.remove(text)
    }

    /// Sets the value of a text.
    pub(crate) fn put(&mut self, alloc: Global, text: &[u16], value: V) -> Result<(), AllocError>
    where
        V: Drop,
        ensures { OnOk result ((q : List ℕ)
            → lookup_text self.new q
            ≡ (if same_text q text.now then Some value else lookup_text self.old q)) }
    {
        let key = Vec::from_slice(alloc, text)?;
        self.values.insert(key, value)?;
        Ok(())
    }
}
