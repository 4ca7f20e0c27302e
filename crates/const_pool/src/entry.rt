//! Entries that are added to a pool.

ghost use Rattle.std.specs.Prelude.{◌≡◌};
ghost use Rattle.jvms_file.specs.ConstantPool.{takes_two};
ghost use Rattle.const_pool.specs.Interning.{constant_of};

use jvms_file::class_file::Constant;
use shared_data::items::Items;

/// An entry of a pool (JVMS 4.4). It is a `Constant`, except the unusable one, which only follows a long or a double.
#[derive(Debug, PartialEq, Eq, Hash, Drop)]
pub enum Entry {
    /// A text, as its UTF-16 code units.
    Utf8(Vec<u16>),
    Integer(i32),
    /// The four bytes of a float.
    Float(u32),
    Long(i64),
    /// The eight bytes of a double.
    Double(u64),
    Class { name: u16 },
    String { text: u16 },
    Field { class: u16, name_and_type: u16 },
    Method { class: u16, name_and_type: u16 },
    InterfaceMethod { class: u16, name_and_type: u16 },
    NameAndType { name: u16, descriptor: u16 },
}

impl Entry {
    /// Decides whether this is a long or a double, which take two numbers (JVMS 4.4.5).
    pub(crate) fn takes_two(&self) -> bool
        ensures { result ≡ takes_two (constant_of self.now) }
    {
        matches!(self, Entry::Long(_) | Entry::Double(_))
    }

    /// Converts the entry to that of a class file.
    pub(crate) fn into_constant(self) -> Constant
        ensures { result ≡ constant_of self }
    {
        match self {
            Entry::Utf8(text) => Constant::Utf8(Items::from_vec(text)),
            Entry::Integer(number) => Constant::Integer(number),
            Entry::Float(number) => Constant::Float(number),
            Entry::Long(number) => Constant::Long(number),
            Entry::Double(number) => Constant::Double(number),
            Entry::Class { name } => Constant::Class { name },
            Entry::String { text } => Constant::String { text },
            Entry::Field {
                class,
                name_and_type,
            } => Constant::Field {
                class,
                name_and_type,
            },
            Entry::Method {
                class,
                name_and_type,
            } => Constant::Method {
                class,
                name_and_type,
            },
            Entry::InterfaceMethod {
                class,
                name_and_type,
            } => Constant::InterfaceMethod {
                class,
                name_and_type,
            },
            Entry::NameAndType { name, descriptor } => Constant::NameAndType { name, descriptor },
        }
    }
}
