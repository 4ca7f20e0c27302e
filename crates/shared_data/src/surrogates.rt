//! The code units of UTF-16 that are halves of a supplementary character.

ghost use Rattle.std.specs.Prelude.{◌≡◌};
ghost use Rattle.shared_data.specs.Surrogates.{is_high, is_low};

/// Decides whether a unit is a high surrogate, the first half of a supplementary character.
pub fn is_high(unit: u16) -> bool
    ensures { result ≡ is_high unit }
{
    0xd800 <= unit && unit <= 0xdbff
}

/// Decides whether a unit is a low surrogate, the second half of a supplementary character.
pub fn is_low(unit: u16) -> bool
    ensures { result ≡ is_low unit }
{
    0xdc00 <= unit && unit <= 0xdfff
}
