//! Creates several strings.

ghost use Rattle.std.specs.Prelude.{◌≡◌, ◌+◌, ◌-◌, ◌<◌, ◌^◌, ◌∷◌, [], ℕ, List, OnOk, OnErr, length, map, slice_get};
ghost use Rattle.std.specs.Option.{option_and_then, option_map};
ghost use Rattle.jvms_program.specs.declared.program.Class.{Class};
ghost use Rattle.jvms_machine.specs.State.{text};
ghost use Rattle.heap.specs.Stored.{object_of};
ghost use Rattle.heap.specs.Objects.{Heap as Seen, units_of, with_new};

use crate::heap::Heap;
use crate::stored_object::StoredObject;
use shared_data::shared::Text;
use std::alloc::AllocError;

/// Returns the units of the last object, if it is a string.
fn last_units(objects: &[StoredObject]) -> Option<&Text>
    ensures { (program : List Class) → option_map (λ units. units.now) result ≡ option_and_then
        (λ o. units_of (object_of program o)) (slice_get objects.now (length objects.now - 1)) }
{
    objects.last()?.units()
}

impl Heap<'_> {
    /// Removes the last object, if it is a string.
    fn remove_last_text(&mut self)
        ensures { (before : Seen) (units : List ℕ) → self.old ≡ with_new (text units ∷ []) before
            → self.new ≡ before }
    {
        let Some(units) = last_units(self.objects.as_slice()) else {
            return;
        };
        self.texts
            .remove_matching(units.as_slice(), self.objects.len());
        self.objects.pop();
    }

    /// Removes the last `count` objects, if they are strings.
    #[tactic(auto, using(crate::proofs::TextLaws::all_left, crate::proofs::TextLaws::none_left))]
    fn remove_last_texts(&mut self, count: usize)
        ensures { (before : Seen) (texts : List (List ℕ)) → length texts ≡ count
            → self.old ≡ with_new (map text texts) before → self.new ≡ before }
    {
        let mut left = count;
        while left > 0 {
            left -= 1;
            self.remove_last_text();
        }
    }

    /// Creates strings, in order. Without memory for all of them nothing changes.
    #[tactic(auto, using(crate::proofs::TextLaws::none_made, crate::proofs::TextLaws::one_more_made, crate::proofs::TextLaws::all_made, crate::proofs::TextLaws::room_for_one, crate::proofs::TextLaws::made_removed))]
    pub fn new_texts(&mut self, texts: &[Text]) -> Result<(), AllocError>
        requires room { length self.old.objects + length texts.now < 2 ^ 32 }
        ensures ok { OnOk result (self.new ≡ with_new (map text texts.now) self.old) }
        ensures err { OnErr result (self.new ≡ self.old) }
    {
        for (made, units) in texts.iter().enumerate() {
            if let Err(error) = self.new_text(units) {
                self.remove_last_texts(made);
                return Err(error);
            }
        }
        Ok(())
    }
}
