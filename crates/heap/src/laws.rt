//! Laws about the fields of instances and the elements of arrays. Each is the contract of an empty function.

ghost use Rattle.std.specs.Prelude.{◌≡◌, ℕ, IsTrue, List, None, Some, length};
ghost use Rattle.jvms_program.specs.declared.program.Class.{Class};
ghost use Rattle.jvms_program.specs.declared.key.FieldKey.{FieldKey};
ghost use Rattle.jvms_program.specs.Slots.{slot_of};
ghost use Rattle.jvms_machine.specs.declared.value.Value.{Value};
ghost use Rattle.jvms_machine.specs.State.{Object, instance, instance_fields, keys};
ghost use Rattle.jvms_machine.specs.Heap.{has_dimensions, value_of, with_field};
ghost use Rattle.jvms_machine.specs.Turn.{ElementsCanHold};
ghost use Rattle.heap.specs.Objects.{HasDimensions, Suits, value_in, with_slot};

/// Proves that the value at the slot of a key is that of its field, in an instance that has the fields of its class.
#[tactic(auto, using(crate::proofs::KeyLaws::read_by_key))]
pub fn a_slot_leads_to_its_field()
    ensures { (program : List Class) (class : List ℕ) (fields : List (FieldKey × Value))
        (key : FieldKey) (slot : ℕ) → keys fields ≡ keys (instance_fields program class)
        → slot_of program class key ≡ Some slot
        → value_in slot (instance class fields) ≡ value_of key fields }
{}

/// Proves that a value that is stored at the slot of a key is stored in its field, in an instance that has the fields
/// of its class.
#[tactic(auto, using(crate::proofs::KeyLaws::put_by_key))]
pub fn a_value_is_put_into_its_field()
    ensures { (program : List Class) (class : List ℕ)
        (fields : List (FieldKey × Value)) (key : FieldKey) (slot : ℕ) (v : Value)
        → keys fields ≡ keys (instance_fields program class) → slot_of program class key ≡ Some slot
        → with_slot slot v (instance class fields) ≡ with_field key v (instance class fields) }
{}

/// Proves that a key without a slot has no value, and that none is stored for it, in an instance that has the fields of
/// its class.
#[tactic(auto, using(crate::proofs::KeyLaws::no_field_read, crate::proofs::KeyLaws::no_field_put))]
pub fn without_a_slot_there_is_no_field()
    ensures value { (program : List Class) (class : List ℕ) (fields : List (FieldKey × Value))
        (key : FieldKey) → keys fields ≡ keys (instance_fields program class)
        → slot_of program class key ≡ None → value_of key fields ≡ None }
    ensures put { (program : List Class) (class : List ℕ)
        (fields : List (FieldKey × Value)) (key : FieldKey) (v : Value)
        → keys fields ≡ keys (instance_fields program class) → slot_of program class key ≡ None
        → with_field key v (instance class fields) ≡ instance class fields }
{}

/// Proves that arrays of some lengths can be nested if the class has as many dimensions as there are lengths.
#[tactic(auto, using(crate::proofs::DimensionLaws::dimensions_are))]
pub fn lengths_fit_the_dimensions()
    ensures { (class : List ℕ) (lengths : List ℕ) → IsTrue (has_dimensions class (length lengths))
        → HasDimensions class lengths }
{}

/// Proves that a value can be stored among an array's elements if the variables of its components can hold it.
#[tactic(auto, using(crate::proofs::DimensionLaws::suits))]
pub fn a_value_that_can_be_held_suits()
    ensures { (v : Value) (o : Object) → ElementsCanHold v o → Suits v o }
{}
