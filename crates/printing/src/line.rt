//! Appends output and its line end.

ghost use Rattle.std.specs.Prelude.{◌≡◌, ◌∷◌, ◌++◌, [], List, length, take, IsOk, OnOk, OnErr, codes};
ghost use Rattle.std.specs.Option.{option_copied};
ghost use Rattle.std.specs.Fmt.{signed_decimal};
ghost use Rattle.jvms_machine.specs.State.{Object};
ghost use Rattle.jvms_machine.specs.Output.{printed_bytes, line_bytes};
ghost use Rattle.printing.specs.Strings.{IsTheString};

use crate::characters::put_text;
use itoa::Buffer;
use jvms_machine::action::Printed;
use std::alloc::AllocError;

/// Appends an int in decimal. Without memory for it nothing changes.
pub fn put_int(out: &mut Vec<u8>, n: i32) -> Result<(), AllocError>
    ensures ok { OnOk result (out.new.items ≡ out.old.items ++ signed_decimal n) }
    ensures err { OnErr result (out.new.items ≡ out.old.items) }
{
    let mut buffer = Buffer::new();
    out.extend_from_slice(buffer.format(n).as_bytes())
}

/// Appends a long in decimal. Without memory for it nothing changes.
pub fn put_long(out: &mut Vec<u8>, n: i64) -> Result<(), AllocError>
    ensures ok { OnOk result (out.new.items ≡ out.old.items ++ signed_decimal n) }
    ensures err { OnErr result (out.new.items ≡ out.old.items) }
{
    let mut buffer = Buffer::new();
    out.extend_from_slice(buffer.format(n).as_bytes())
}

/// Appends null's name. Without memory for it nothing changes.
pub fn put_null(out: &mut Vec<u8>) -> Result<(), AllocError>
    ensures ok { OnOk result (out.new.items ≡ out.old.items ++ codes "null") }
    ensures err { OnErr result (out.new.items ≡ out.old.items) }
{
    out.extend_from_slice(b"null")
}

/// Appends a line end. Without memory for it nothing changes.
pub fn put_line_end(out: &mut Vec<u8>) -> Result<(), AllocError>
    ensures ok { OnOk result (out.new.items ≡ out.old.items ++ 10 ∷ []) }
    ensures err { OnErr result (out.new.items ≡ out.old.items) }
{
    out.extend_from_slice(b"\n")
}

/// Appends output. Without memory for it nothing changes. `text` is the string that is printed, if one is.
#[tactic(auto, using(crate::proofs::Decimals::int_printed, crate::proofs::Decimals::long_printed))]
fn put_printed(out: &mut Vec<u8>, what: Printed, text: Option<&[u16]>) -> Result<(), AllocError>
    ensures ok { (heap : List Object) → IsTheString heap what (option_copied text.entry)
        → OnOk result (out.new.items ≡ out.old.items ++ printed_bytes heap what) }
    ensures front { take (length out.old.items) out.new.items ≡ out.old.items }
    ensures err { OnErr result (out.new.items ≡ out.old.items) }
    ensures none { (heap : List Object) → IsTheString heap what (option_copied text.entry)
        → printed_bytes heap what ≡ [] → IsOk result }
{
    match what {
        Printed::Nothing => Ok(()),
        Printed::Int(n) => put_int(out, n),
        Printed::Long(n) => put_long(out, n),
        Printed::Null => put_null(out),
        Printed::Text { reference: _ } => put_text(out, text.unwrap_or(&[])),
    }
}

/// Appends output, and a line end if `ends_line` is true. Without memory for both nothing changes. `text` is the string
/// that is printed, if one is.
pub fn put_line(
    out: &mut Vec<u8>,
    what: Printed,
    text: Option<&[u16]>,
    ends_line: bool,
) -> Result<(), AllocError>
    ensures ok { (heap : List Object) → IsTheString heap what (option_copied text.entry)
        → OnOk result (out.new.items ≡ out.old.items ++ line_bytes heap what ends_line) }
    ensures err { OnErr result (out.new.items ≡ out.old.items) }
    // Output without bytes doesn't fail.
    ensures none { (heap : List Object) → IsTheString heap what (option_copied text.entry)
        → line_bytes heap what ends_line ≡ [] → IsOk result }
{
    let before = out.len();
    put_printed(out, what, text)?;
    if !ends_line {
        return Ok(());
    }
    let ended = put_line_end(out);
    if ended.is_err() {
        out.truncate(before);
    }
    ended
}
