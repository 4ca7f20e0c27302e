//! Removes texts from an index.

ghost use Rattle.std.specs.Prelude.{◌≡◌, ◌≢◌, List, ℕ, None, Some, if◌then◌else◌};
ghost use Rattle.jvms_file.specs.Names.{same_text};
ghost use Rattle.text_index.specs.Lookup.{indexed_reference};

use super::Index;

impl Index {
    /// Removes the reference of a text.
    fn remove(&mut self, units: &[u16])
        ensures { (q : List ℕ)
            → indexed_reference self.new q
            ≡ (if same_text units.now q then None else indexed_reference self.old q) }
    {
        let _ = self.references.remove(units);
    }

    /// Removes the reference of a text, if it is this one.
    pub fn remove_matching(&mut self, units: &[u16], reference: usize)
        ensures taken { indexed_reference self.old units.now ≡ Some reference → (q : List ℕ)
            → indexed_reference self.new q
            ≡ (if same_text units.now q then None else indexed_reference self.old q) }
        ensures other { indexed_reference self.old units.now ≢ Some reference
            → self.new ≡ self.old }
    {
        match self.find(units) {
            Some(found) if found as usize == reference => self.remove(units),
            _ => {}
        }
    }
}
