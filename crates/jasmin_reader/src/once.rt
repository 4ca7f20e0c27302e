//! Decides whether a method has its limits.

ghost use Rattle.std.specs.Prelude.{◌≡◌};
ghost use Rattle.jasmin.specs.Reading.{has_stack, has_locals};

use jasmin::reading::OpenMethod;

/// Decides whether the open method has `.limit stack`.
pub(crate) fn has_stack(method: &Option<OpenMethod>) -> bool
    ensures { result ≡ has_stack method.now }
{
    match method {
        Some(method) => method.max_stack.is_some(),
        None => false,
    }
}

/// Decides whether the open method has `.limit locals`.
pub(crate) fn has_locals(method: &Option<OpenMethod>) -> bool
    ensures { result ≡ has_locals method.now }
{
    match method {
        Some(method) => method.max_locals.is_some(),
        None => false,
    }
}
