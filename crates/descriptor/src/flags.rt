//! Access flags (JVMS tables 4.1-A, 4.5-A and 4.6-A).

ghost use Rattle.std.specs.Prelude.{⊤, ◌≡◌, [], ◌∷◌, codes};
ghost use Rattle.std.specs.Int.RustNames.{bit_or};
ghost use Rattle.jvms_file.specs.Members.{has_flag, is_private, is_static, is_synchronized, is_native, is_interface, is_abstract};

use bitflags::{Flag, Flags as BitSet, bitflag_items};

/// The access flags of a class, a field or a method: the 16 bits of its `access_flags`. Some bits mean one thing in a
/// class or a field and another in a method, and have a name for each.
#[derive(Clone, Copy, Debug, PartialEq, Eq)]
pub struct Flags(u16);

bitflag_items! {
    impl Flags: u16 {
        const PUBLIC = 0x0001;
        const PRIVATE = 0x0002;
        const PROTECTED = 0x0004;
        const STATIC = 0x0008;
        const FINAL = 0x0010;
        const SUPER = 0x0020;
        const SYNCHRONIZED = 0x0020;
        const VOLATILE = 0x0040;
        const TRANSIENT = 0x0080;
        const NATIVE = 0x0100;
        const INTERFACE = 0x0200;
        const ABSTRACT = 0x0400;
    }
}

impl BitSet for Flags {
    type Bits = u16;

    ghost exact = { ⊤ };

    ghost table = { (codes "PUBLIC", 1) ∷ (codes "PRIVATE", 2) ∷ (codes "PROTECTED", 4)
        ∷ (codes "STATIC", 8) ∷ (codes "FINAL", 16) ∷ (codes "SUPER", 32)
        ∷ (codes "SYNCHRONIZED", 32) ∷ (codes "VOLATILE", 64) ∷ (codes "TRANSIENT", 128)
        ∷ (codes "NATIVE", 256) ∷ (codes "INTERFACE", 512) ∷ (codes "ABSTRACT", 1024) ∷ [] };

    ghost set_of = { λ f. f.0 };

    fn flags<'a>() -> &'a [Flag<Flags>] {
        Flags::FLAGS
    }

    fn bits(&self) -> u16 {
        self.0
    }

    fn from_bits_retain(bits: u16) -> Flags {
        Flags(bits)
    }
}

impl Flags {
    /// Returns the flags of an item's `access_flags`. Bits that no flag has are kept.
    pub fn of_access(access: u16) -> Flags
        ensures { result.0 ≡ access }
    {
        Flags(access)
    }

    /// Returns the item's `access_flags`.
    pub fn access(self) -> u16
        ensures { result ≡ self.0 }
    {
        self.bits()
    }

    /// Returns these flags together with the others.
    pub fn with(self, others: Flags) -> Flags
        ensures { result.0 ≡ bit_or self.0 others.0 }
    {
        self.union(others)
    }

    /// Returns whether any of the others is set.
    pub fn has(self, others: Flags) -> bool
        ensures { result ≡ has_flag others.0 self.0 }
    {
        self.intersects(others)
    }

    /// Returns whether a field or a method is private.
    pub fn is_private(self) -> bool
        ensures { result ≡ is_private self.0 }
    {
        self.has(Flags::PRIVATE)
    }

    /// Returns whether a field or a method is static.
    pub fn is_static(self) -> bool
        ensures { result ≡ is_static self.0 }
    {
        self.has(Flags::STATIC)
    }

    /// Returns whether a method is synchronized.
    pub fn is_synchronized(self) -> bool
        ensures { result ≡ is_synchronized self.0 }
    {
        self.has(Flags::SYNCHRONIZED)
    }

    /// Returns whether a method is native.
    pub fn is_native(self) -> bool
        ensures { result ≡ is_native self.0 }
    {
        self.has(Flags::NATIVE)
    }

    /// Returns whether a class file declares an interface.
    pub fn is_interface(self) -> bool
        ensures { result ≡ is_interface self.0 }
    {
        self.has(Flags::INTERFACE)
    }

    /// Returns whether a class or a method is abstract.
    pub fn is_abstract(self) -> bool
        ensures { result ≡ is_abstract self.0 }
    {
        self.has(Flags::ABSTRACT)
    }
}
