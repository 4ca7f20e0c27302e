//! The heap at a machine's opening.

ghost use Rattle.std.specs.Prelude.{◌≡◌, [], IfOk, OnOk, codes};
ghost use Rattle.jvms_machine.specs.Opening.{opening_heap};

use crate::heap::Heap;
use crate::primitive_arrays::PrimitiveArrays;
use program::Program;
use shared_data::shared::Text;
use shared_data::texts::ascii_text;
use std::alloc::{AllocError, Global};
use text_index::Index;

/// The place of `java/lang/OutOfMemoryError` in every program.
const OUT_OF_MEMORY: usize = 35;

/// The place of `java/lang/StackOverflowError`.
const STACK_OVERFLOW: usize = 36;

/// The place of `java/io/PrintStream`.
const PRINT_STREAM: usize = 4;

/// Returns the class of main's argument.
fn strings(alloc: Global) -> Result<Text, AllocError>
    ensures { IfOk result (λ t. t ≡ codes "[Ljava/lang/String;") }
{
    ascii_text(alloc, "[Ljava/lang/String;")
}

impl<'p> Heap<'p> {
    /// Creates a heap without objects.
    pub fn empty(alloc: Global, program: &'p Program) -> Result<Heap<'p>, AllocError>
        ensures { IfOk result
            (λ h. h ≡ record { program = program.now; objects = []; elements = 0 }) }
    {
        Ok(Heap {
            alloc,
            program,
            objects: Vec::new(alloc),
            elements: 0,
            texts: Index::new(alloc),
            class_objects: Index::new(alloc),
            primitive_arrays: PrimitiveArrays::new(alloc)?,
        })
    }

    /// Appends the two errors of the limits, System.out, and main's argument to an empty heap.
    fn put_first_objects(&mut self) -> Result<(), AllocError>
        requires { self.old ≡ record { program = self.old.program; objects = []; elements = 0 } }
        ensures { OnOk result (self.new ≡ record {
          program = self.old.program;
          objects = opening_heap self.old.program;
          elements = 0;
        }) }
    {
        self.program().program_invariant();
        self.new_instance(OUT_OF_MEMORY)?;
        self.new_instance(STACK_OVERFLOW)?;
        self.new_instance(PRINT_STREAM)?;
        let strings = strings(self.alloc)?;
        self.new_array(&strings, 0)?;
        Ok(())
    }

    /// Creates the heap at the opening: the two errors of the limits, System.out, and main's argument.
    pub fn opening(alloc: Global, program: &'p Program) -> Result<Heap<'p>, AllocError>
        ensures { IfOk result (λ h. h
            ≡ record { program = program.now; objects = opening_heap program.now; elements = 0 }) }
    {
        let mut heap = Heap::empty(alloc, program)?;
        heap.put_first_objects()?;
        Ok(heap)
    }
}
