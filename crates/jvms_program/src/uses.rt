//! The instructions that use static members (JVMS 6.5 `getstatic`, `invokestatic`, `putstatic`).

ghost use Rattle.std.specs.Prelude.{◌≡◌};
ghost use Rattle.jvms_program.specs.Resolution.{is_static_call, is_static_use};

use jvms_file::insn::{FieldUse, Invoke};

/// Decides whether an instruction uses a static field.
#[inline(always)]
pub fn is_static_use(how: FieldUse) -> bool
    ensures { result ≡ is_static_use how }
{
    match how {
        FieldUse::GetStatic | FieldUse::PutStatic => true,
        FieldUse::Get | FieldUse::Put => false,
    }
}

/// Decides whether an instruction calls a static method.
#[inline(always)]
pub fn is_static_call(how: Invoke) -> bool
    ensures { result ≡ is_static_call how }
{
    match how {
        Invoke::Static => true,
        Invoke::Virtual | Invoke::Special | Invoke::Interface => false,
    }
}
