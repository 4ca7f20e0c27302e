//! Specifications.

ghost use Rattle.std.specs.Prelude.{◌≡◌, IfOk};
ghost use Rattle.jvms_file.specs.Names.{begins_with};
ghost use Rattle.jvms_program.specs.BuiltIn.{is_built_in};
ghost use Rattle.velodrome.specs.Specification.{is_atomic};
ghost use Rattle.atom_spec.specs.Decisions.{IsTableOf};
ghost use Rattle.atom_spec.specs.Specs.{IsRead};

use crate::fault::SpecFault;
use crate::reading::lines_of;
use crate::table::Table;
use built_in::is_built_in;
use descriptor::is_initializer_name;
use jvms_program::key::MethodKey;
use shared_data::items::Items;
use shared_data::shared::Shared;
use std::alloc::{AllocError, Global};
use std::marker::Model;
use velodrome::specification::SpecificationLine;

/// The first unit of the names of built-in classes.
const FIRST: u16 = b'j' as u16;

/// The lines, and the look-up table of what they say.
#[derive(Drop)]
struct Parts {
    lines: Items<SpecificationLine>,
    table: Table,
}

/// A specification of which methods are to be atomic. Contracts see the list of its lines. Copies share it.
#[derive(Drop)]
pub struct Spec {
    parts: Shared<Parts>,
}

impl Model for Spec {
    ghost use Rattle.std.specs.Prelude.{List};
    ghost use Rattle.velodrome.specs.declared.specification.SpecificationLine.{SpecificationLine};
    ghost use Rattle.atom_spec.specs.Decisions.{IsTableOf};

    ghost Value = { List SpecificationLine };

    ghost view = { λ s. s.parts.lines };

    ghost invariant = { λ s. IsTableOf s.parts.table s.parts.lines };
}

/// Returns the table of what the lines say.
fn table_of(alloc: Global, lines: &[SpecificationLine]) -> Result<Table, AllocError>
    ensures { IfOk result (λ table. IsTableOf table lines.now) }
{
    let mut table = Table::new(alloc, false);
    for line in lines {
        table.put(alloc, line)?;
    }
    Ok(table)
}

/// Decides whether a text begins as the names of all built-in classes do.
fn begins_as_built_in(class: &[u16]) -> bool
    ensures { result ≡ begins_with 106 class.now }
{
    matches!(class, [FIRST, ..])
}

/// Decides whether a class is built in, by its name. Most other names differ from these in their first unit.
fn is_built_in_class(class: &[u16]) -> bool
    ensures { result ≡ is_built_in class.now }
{
    if !begins_as_built_in(class) {
        return false;
    }
    is_built_in(class)
}

impl Spec {
    /// Reads a specification. LF ends each line, and the last may lack it.
    ///
    /// # Errors
    ///
    /// E01 with the number of the first faulty line, from 1. A line is faulty unless it is empty, begins with `#`, or
    /// is `atomic` or `plain`, one space and a pattern. E02 if memory ran out.
    pub fn read(alloc: Global, text: &str) -> Result<Spec, SpecFault>
        // The result is the specification of the text, or its first faulty line, unless memory runs out.
        ensures { IsRead text.now result }
    {
        let lines = lines_of(alloc, text.as_bytes())?;
        let table = table_of(alloc, lines.as_slice())?;
        Ok(Spec {
            parts: Shared::new(alloc, Parts { lines, table })?,
        })
    }

    /// Clones the specification. The clone shares its lines, however many there are.
    pub fn copy(&self) -> Result<Spec, AllocError>
        ensures { IfOk result (λ spec. spec ≡ self.now) }
    {
        Ok(Spec {
            parts: self.parts.share()?,
        })
    }

    /// Returns the lines in order.
    pub fn lines(&self) -> &[SpecificationLine]
        ensures { result.now ≡ self.now }
    {
        self.parts.get().lines.as_slice()
    }

    /// Decides whether a method is to be atomic. The last line about it decides, and without one it is not. `<clinit>`
    /// and the methods of built-in classes never are.
    #[tactic(auto, unfolding(velodrome::specs::Specification::is_atomic))]
    pub fn is_atomic(&self, method: &MethodKey) -> bool
        ensures { result ≡ is_atomic self.now method.now }
    {
        self.parts.get().table.decision(method)
            && !is_initializer_name(method.name.as_slice())
            && !is_built_in_class(method.class.as_slice())
    }
}
