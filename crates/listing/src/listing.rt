//! Lists a class file.

ghost use Rattle.std.specs.Prelude.{◌≡◌, map, Ok, Err, IfOk, IfErr, string_bytes};
ghost use Rattle.std.specs.Str.Lines.{lines};
ghost use Rattle.jasmin.specs.Sources.{units_of};
ghost use Rattle.listing_spec.specs.Listed.{listing_of};
ghost use Rattle.listing_spec.specs.Faults.{Lists};
ghost use Rattle.source_text.specs.Lines.{text_of_lines};
ghost use Rattle.listing.specs.Written.{MeansClass};

use class_file::ClassFile;
use class_tree::tree_of;
use listing_spec::fault::ListFault;
use source_text::{is_printable, text_of};
use std::alloc::Global;

/// Returns the listing of a class file: a source with the same meaning, one statement on each line, each ended by LF.
/// Attributes that are kept as bytes aren't listed.
///
/// # Errors
///
/// Returns L01 if a name can't be spelled in a source or there is no superclass. Returns L02 if an instruction or a
/// field uses a float or a double, and L03 if memory ran out.
#[tactic(auto, unfolding(listing_spec::specs::Listed::listing_of), using(crate::proofs::Meaning::means_class))]
pub fn list(alloc: Global, class: &ClassFile) -> Result<String, ListFault>
    // The result has the lines of the definition, or its fault, unless memory runs out.
    ensures exact { IfOk result
        (λ text. listing_of class.now ≡ Ok (map units_of (lines (string_bytes text)))) }
    ensures fault { IfErr result (λ fault. Lists (Err fault) (listing_of class.now)) }
    // LF follows each line, the last one included, and nothing else separates them.
    ensures ended { IfOk result (λ text. units_of (string_bytes text)
        ≡ text_of_lines (map units_of (lines (string_bytes text)))) }
    // The text is read as a source that denotes what the class means.
    ensures means { IfOk result (λ text. MeansClass (string_bytes text) class.now) }
{
    let tree = tree_of(alloc, class.class())?;
    if !is_printable(&tree) {
        return Err(ListFault::Name);
    }
    Ok(text_of(alloc, &tree)?)
}
