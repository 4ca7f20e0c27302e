//! The classes of the arrays of primitive types (JVMS 6.5 newarray).

ghost use Rattle.std.specs.Prelude.{◌≡◌, ◌∷◌, [], IfOk};
ghost use Rattle.jvms_machine.specs.Heap.{array_of_type};

use jvms_file::insn::ArrayType;
use shared_data::items::Items;
use shared_data::shared::{Shared, Text};
use std::alloc::{AllocError, Global};
use std::marker::Model;

/// The classes of the arrays of primitive types. Contracts see no value of them.
#[derive(Drop)]
pub(crate) struct PrimitiveArrays {
    booleans: Text,
    chars: Text,
    floats: Text,
    doubles: Text,
    bytes: Text,
    shorts: Text,
    ints: Text,
    longs: Text,
}

impl Model for PrimitiveArrays {
    ghost use Rattle.std.specs.Prelude.{ℕ};
    ghost use Rattle.heap.specs.PrimitiveArrays.{ArePrimitiveArrays};

    ghost Value = { ℕ };

    ghost view = { λ a. 0 };

    ghost invariant = { λ a.
        ArePrimitiveArrays a.booleans a.chars a.floats a.doubles a.bytes a.shorts a.ints a.longs };
}

/// Returns the class of an array of one dimension, by the letter of its type.
fn array_of(alloc: Global, letter: u8) -> Result<Text, AllocError>
    ensures { IfOk result (λ t. t ≡ 91 ∷ letter ∷ []) }
{
    let units = vec![in alloc; 91, u16::from(letter)]?;
    Shared::new(alloc, Items::from_vec(units))
}

impl PrimitiveArrays {
    pub(crate) fn new(alloc: Global) -> Result<PrimitiveArrays, AllocError> {
        Ok(PrimitiveArrays {
            booleans: array_of(alloc, b'Z')?,
            chars: array_of(alloc, b'C')?,
            floats: array_of(alloc, b'F')?,
            doubles: array_of(alloc, b'D')?,
            bytes: array_of(alloc, b'B')?,
            shorts: array_of(alloc, b'S')?,
            ints: array_of(alloc, b'I')?,
            longs: array_of(alloc, b'J')?,
        })
    }

    /// Returns the class of an array of a type.
    pub(crate) fn get(&self, array_type: ArrayType) -> &Text
        ensures { result.now ≡ array_of_type array_type }
    {
        match array_type {
            ArrayType::Boolean => &self.booleans,
            ArrayType::Char => &self.chars,
            ArrayType::Float => &self.floats,
            ArrayType::Double => &self.doubles,
            ArrayType::Byte => &self.bytes,
            ArrayType::Short => &self.shorts,
            ArrayType::Int => &self.ints,
            ArrayType::Long => &self.longs,
        }
    }
}
