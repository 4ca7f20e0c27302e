//! Finds the place of a label's instruction, and the label's offset in bytes.

ghost use Rattle.std.specs.Prelude.{◌≡◌, ◌≤◌, length, slice_get};
ghost use Rattle.std.specs.Option.{unwrap_or};
ghost use Rattle.jasmin.specs.Denote.{target, operations};
ghost use Rattle.assembly.specs.Sizes.{offset};

use shared_data::shared::Text;
use source_labels::Labels;

/// Returns the number of instructions before a label, or 0 if the label is undefined.
#[tactic(auto, using(crate::proofs::Leading::target_within))]
fn place_of(labels: &Labels<'_>, label: &Text) -> usize
    ensures exact { result ≡ target labels.now label.now }
    ensures within { result ≤ length (operations labels.now) }
{
    labels.place(label.as_slice()).unwrap_or(0)
}

/// Returns the place of a label's instruction. It fits, as each of the instructions has at least one byte.
pub(crate) fn target_of(labels: &Labels<'_>, label: &Text) -> u32
    requires { length (operations labels.now) ≤ 65535 }
    ensures { result ≡ target labels.now label.now }
{
    place_of(labels, label) as u32
}

/// Returns the byte at which the instruction of a place starts, or 0 if there is none.
fn start_at(starts: &[u16], place: usize) -> u16
    ensures { result ≡ unwrap_or (slice_get starts.now place) 0 }
{
    starts.get(place).copied().unwrap_or(0)
}

/// Returns the offset of a label from byte `pc`. `starts` are the bytes at which the code's instructions start.
pub(crate) fn offset_of(labels: &Labels<'_>, starts: &[u16], pc: u16, label: &Text) -> i32
    ensures { result ≡ offset starts.now labels.now pc label.now }
{
    i32::from(start_at(starts, place_of(labels, label))) - i32::from(pc)
}
