//! Writes numbers in decimal.

ghost use Rattle.std.specs.Prelude.{◌≡◌, ◌++◌, OnOk, OnErr};
ghost use Rattle.std.specs.Fmt.{decimal, signed_decimal};
ghost use Rattle.std.specs.String.{string_bytes};

use itoa::Buffer;
use std::alloc::AllocError;

/// Appends a number in decimal to a text.
pub fn put_number(out: &mut String, number: u64) -> Result<(), AllocError>
    ensures exact { OnOk result (string_bytes out.new ≡ string_bytes out.old ++ decimal number) }
    // Without memory nothing changes.
    ensures kept { OnErr result (string_bytes out.new ≡ string_bytes out.old) }
{
    let mut buffer = Buffer::new();
    out.push_str(buffer.format(number))
}

/// Appends a signed number in decimal to a text.
pub fn put_signed(out: &mut String, number: i64) -> Result<(), AllocError>
    ensures { OnOk result (string_bytes out.new ≡ string_bytes out.old ++ signed_decimal number) }
{
    let mut buffer = Buffer::new();
    out.push_str(buffer.format(number))
}

/// Appends a word and a number in decimal to a text.
pub fn put_counted(out: &mut String, word: &str, number: u64) -> Result<(), AllocError>
    ensures { OnOk result
        (string_bytes out.new ≡ string_bytes out.old ++ (word.now ++ decimal number)) }
{
    out.push_str(word)?;
    put_number(out, number)
}
