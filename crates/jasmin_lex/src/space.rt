//! White space and comments.

ghost use Rattle.std.specs.Prelude.{◌≡◌};
ghost use Rattle.jasmin.specs.Lexing.{is_space, begin_from};

const SEMICOLON: u16 = 59;

/// Decides whether a unit is white space.
pub(crate) fn is_space(unit: u16) -> bool
    ensures { result ≡ is_space unit }
{
    unit == 32 || unit == 9 || unit == 12 || unit == 13
}

/// Returns the rest of a line from its next token on. A comment begins at a line's start or after white space, and
/// leaves nothing.
#[tactic(auto, unfolding(jasmin::specs::Lexing::begin_from))]
pub(crate) fn begin(may_comment: bool, units: &[u16]) -> &[u16]
    ensures { result.now ≡ begin_from may_comment units.now }
{
    let mut may_comment = may_comment;
    let mut rest = units;
    while let [unit, behind @ ..] = rest {
        if !is_space(*unit) {
            return if *unit == SEMICOLON && may_comment {
                &[]
            } else {
                rest
            };
        }
        may_comment = true;
        rest = behind;
    }
    rest
}
