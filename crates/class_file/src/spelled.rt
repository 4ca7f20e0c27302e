//! Class files that bytes spell (JVMS 4.1): read from bytes, and written as bytes.

ghost use Rattle.std.specs.Prelude.{◌≡◌, IfOk, Ok};
ghost use Rattle.jvms_file.specs.declared.class_file.ClassFile.{ClassFile as Class};
ghost use Rattle.jvms_file.specs.ClassFile.{read};
ghost use Rattle.jvms_file.specs.Reading.{Gives};
ghost use Rattle.jvms_file.specs.Spelling.{Spells};
ghost use Rattle.class_file.specs.Spelled.{HasSpelling};
ghost use Rattle.class_file.specs.Writing.{class_bytes};

use crate::class::read_class;
use crate::writing::write_class;
use jvms_file::fault::ReadError;
use std::alloc::{AllocError, Global};
use std::marker::Model;

/// A class file that bytes spell (JVMS 4.1). Contracts see the class.
#[derive(Drop)]
pub struct ClassFile {
    class: jvms_file::class_file::ClassFile,
}

impl Model for ClassFile {
    ghost use Rattle.jvms_file.specs.declared.class_file.ClassFile.{ClassFile as Class};

    ghost Value = { Class };

    ghost use Rattle.class_file.specs.Spelled.{HasSpelling};

    ghost view = { λ a. a.class };

    ghost invariant = { λ a. HasSpelling a.class };

    ghost inverse = { λ c. record { class = c } };
}

impl ClassFile {
    /// Wraps a class that bytes spell.
    pub fn new(class: jvms_file::class_file::ClassFile) -> ClassFile
        requires spelled { HasSpelling class }
        ensures same { result ≡ class }
    {
        ClassFile { class }
    }

    /// Returns the class.
    pub fn class(&self) -> &jvms_file::class_file::ClassFile
        ensures same { result.now ≡ self.now }
        ensures spelled { HasSpelling self.now }
    {
        &self.class
    }

    /// Returns the class by value.
    pub fn into_class(self) -> jvms_file::class_file::ClassFile
        ensures same { result ≡ self }
        ensures spelled { HasSpelling self }
    {
        self.class
    }
}

/// Reads a class from bytes, or returns their first fault (JVMS 4.1). Truncated bytes have their length as the place of
/// the fault.
pub fn read(alloc: Global, bytes: &[u8]) -> Result<ClassFile, ReadError>
    // The class that the definition reads, or its first fault.
    ensures exact { Gives (λ c. c) result (read bytes.now) }
    // A class that is returned is spelled by the bytes.
    ensures found { IfOk result (λ c. Spells bytes.now c) }
    // A class that the bytes spell is returned, unless memory runs out.
    ensures only { (c : Class) → Spells bytes.now c → Gives (λ d. d) result (Ok c) }
{
    let class = read_class(alloc, bytes)?;
    Ok(ClassFile { class })
}

/// Writes the bytes of a class (JVMS 4.1). Its code has the bytes that were read, with pads set to 0. Fails only
/// without memory.
pub fn write(alloc: Global, class: &ClassFile) -> Result<Vec<u8>, AllocError>
    ensures exact { IfOk result (λ bytes. bytes.items ≡ class_bytes class.now) }
    ensures spells { IfOk result (λ bytes. Spells bytes.items class.now) }
{
    write_class(alloc, &class.class)
}
