//! The public result of reading: a source that a text spells.

ghost use Rattle.std.specs.Prelude.{◌≡◌};
ghost use Rattle.jasmin.specs.Reading.{source_of};
ghost use Rattle.jasmin_reader.specs.Readings.{IsRead};
ghost use Rattle.jasmin_reader.specs.Written.{IsWritten};

use crate::fault::SourceFault;
use crate::source::read_tree;
use jasmin::source::Source as Tree;
use std::alloc::Global;
use std::marker::Model;

/// A source that a text spells. In contracts it is its syntax tree.
#[derive(Drop)]
pub struct Source {
    tree: Tree,
}

impl Model for Source {
    ghost use Rattle.jasmin.specs.declared.source.Source.{Source as TreeValue};

    ghost Value = { TreeValue };

    ghost use Rattle.jasmin_reader.specs.Written.{IsWritten};

    ghost view = { λ s. s.tree };

    ghost invariant = { λ s. IsWritten s.tree };
}

impl Source {
    /// Returns the syntax tree.
    pub fn tree(&self) -> &Tree
        ensures same { result.now ≡ self.now }
        ensures written { IsWritten self.now }
    {
        &self.tree
    }
}

/// Returns the source that a text in Jasmin spells. Lines end at LF or CR LF.
///
/// # Errors
///
/// Returns the number of the first faulty line, from 1, with the least number of its faults, or `Memory` if memory ran
/// out.
pub fn read(alloc: Global, text: &str) -> Result<Source, SourceFault>
    // The result is the tree that the text spells, or its first faulty line, unless memory runs out.
    ensures exact { IsRead result (source_of text.now) }
{
    let tree = read_tree(alloc, text)?;
    Ok(Source { tree })
}
