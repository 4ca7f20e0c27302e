//! Lists what a program lacks. Its classes may use missing classes or members, or instructions outside of the profile.
//! Class files may name missing superclasses. Lines of a specification may match no method.
#![tactic(auto)]

mod hint;
mod lack;
mod laws;
mod line;
mod lines;
mod named;
mod outside;
mod supers;
mod text;
mod unmatched;

pub use lack::Lack;
pub use laws::a_turn_outside_of_the_profile_stops;
pub use line::put_need;
pub use supers::missing_supers;
pub use text::{missing_text, unmatched_text};
