//! The meaning of a class file: a class of a program (JVMS 4.1).

ghost use Rattle.std.specs.Prelude.{◌≡◌, ◌==◌, None, Some, IfOk, if◌then◌else◌, map};
ghost use Rattle.jvms_program.specs.Meaning.{class_text, kind_of, meaning};

use crate::field::fields_of;
use crate::method::methods_of;
use crate::texts::Texts;
use const_pool::Pool;
use descriptor::Flags;
use jvms_file::class_file::ClassFile;
use jvms_program::program::{Class, ClassKind};
use shared_data::items::Items;
use shared_data::shared::Text;
use std::alloc::{AllocError, Global};
use std::mem;

/// Returns the sort of class with these access flags (JVMS table 4.1-A).
fn kind_of(access: u16) -> ClassKind
    ensures { result ≡ kind_of access }
{
    let flags = Flags::of_access(access);
    if flags.is_interface() {
        ClassKind::Interface
    } else if flags.is_abstract() {
        ClassKind::Abstract
    } else {
        ClassKind::Neither
    }
}

/// Returns the superclass's name, or `None` for number 0.
fn superclass_of(texts: &Texts, number: u16) -> Result<Option<Text>, AllocError>
    ensures { IfOk result
        (λ name. name ≡ (if number == 0 then None else Some (class_text texts.now number))) }
{
    if number == 0 {
        Ok(None)
    } else {
        Ok(Some(texts.class_name(number)?))
    }
}

/// The names of a class, its superclass and its superinterfaces.
#[derive(Drop)]
struct ClassNames {
    name: Text,
    superclass: Option<Text>,
    interfaces: Items<Text>,
}

/// Returns the names of a class file's class, from the texts of its pool.
fn names_of(alloc: Global, texts: &Texts, file: &ClassFile) -> Result<ClassNames, AllocError>
    ensures name { IfOk result (λ n. n.name ≡ class_text texts.now file.now.this_class) }
    ensures superclass { IfOk result (λ n. n.superclass ≡ (if file.now.super_class == 0
        then None else Some (class_text texts.now file.now.super_class))) }
    ensures interfaces { IfOk result
        (λ n. n.interfaces ≡ map (class_text texts.now) file.now.interfaces) }
{
    Ok(ClassNames {
        name: texts.class_name(file.this_class)?,
        superclass: superclass_of(texts, file.super_class)?,
        interfaces: texts.class_names(alloc, file.interfaces.as_slice())?,
    })
}

/// Returns the class that a class file means, from the texts of its pool. Drops the file.
#[tactic(auto, unfolding(jvms_program::specs::Meaning::meaning))]
fn class_of(alloc: Global, texts: &Texts, file: ClassFile) -> Result<Class, AllocError>
    ensures { IfOk result (λ c. c ≡ meaning (record file { pool = texts.now })) }
{
    let access = file.access;
    let is_interface = Flags::of_access(access).is_interface();
    let names = names_of(alloc, texts, &file)?;
    let fields = fields_of(alloc, texts, is_interface, file.fields.as_slice())?;
    let methods = methods_of(alloc, texts, file.methods)?;
    Ok(Class {
        name: names.name,
        kind: kind_of(access),
        superclass: names.superclass,
        interfaces: names.interfaces,
        fields,
        methods,
    })
}

/// Returns the class that a class file means: with texts in place of pool numbers.
#[tactic(auto, unfolding(jvms_program::specs::Meaning::meaning))]
pub fn meaning(alloc: Global, file: ClassFile) -> Result<Class, AllocError>
    ensures { IfOk result (λ c. c ≡ meaning file) }
{
    let mut file = file;
    let pool = mem::replace(&mut file.pool, Items::new(alloc));
    let texts = Texts::of(alloc, Pool::of(pool))?;
    class_of(alloc, &texts, file)
}
