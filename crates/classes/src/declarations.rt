//! The names and descriptors that the classes of a program declare. A member that none of them declares is known to be
//! missing without a search through the classes above one.

ghost use Rattle.std.specs.Prelude.{◌≡◌, ◌∷◌, [], IfOk, OnOk, map};
ghost use Rattle.classes.specs.Declarations.{Adds, AreThoseOf, field_names, fields_of, is_among, method_names, methods_of};

use jvms_program::members::{Member, Members};
use jvms_program::program::{Class, Field, Method};
use shared_data::shared::Text;
use std::alloc::{AllocError, Global};
use std::collections::BTreeSet;
use std::marker::Model;

/// The name and the descriptor of a field or a method.
#[derive(Drop)]
pub(crate) struct DeclaredNames {
    name: Text,
    descriptor: Text,
}

impl Member for DeclaredNames {
    ghost names = { λ d. (d.name, d.descriptor) };

    fn name(&self) -> &[u16] {
        self.name.as_slice()
    }

    fn descriptor(&self) -> &[u16] {
        self.descriptor.as_slice()
    }
}

/// The names and descriptors of a program's fields, and those of its methods, each once.
#[derive(Drop)]
pub(crate) struct Declarations {
    pub(crate) fields: Members<DeclaredNames>,
    pub(crate) methods: Members<DeclaredNames>,
}

/// Names and descriptors, each once. Contracts see the list of them.
#[derive(Drop)]
struct Collection<'a> {
    declared: Vec<DeclaredNames>,
    seen: BTreeSet<(&'a [u16], &'a [u16])>,
}

impl<'a> Model for Collection<'a> {
    ghost use Rattle.std.specs.Prelude.{List};
    ghost use Rattle.classes.specs.declared.declarations.DeclaredNames.{DeclaredNames};
    ghost use Rattle.classes.specs.Declarations.{AreSeen};

    ghost Value = { List DeclaredNames };

    ghost view = { λ c. c.declared.items };

    ghost invariant = { λ c. AreSeen c.declared.items c.seen };
}

impl<'a> Collection<'a> {
    /// Creates a collection of none.
    fn new(alloc: Global) -> Self
        ensures { result ≡ [] }
    {
        Collection {
            declared: Vec::new(alloc),
            seen: BTreeSet::new(alloc),
        }
    }

    /// Adds a name and a descriptor, unless they are there.
    fn add(&mut self, name: &'a Text, descriptor: &'a Text) -> Result<(), AllocError>
        ensures { OnOk result (Adds self.old
            (record { name = name.now; descriptor = descriptor.now } ∷ []) self.new) }
    {
        let names = (name.as_slice(), descriptor.as_slice());
        if self.seen.contains(&names) {
            return Ok(());
        }
        self.declared.push(DeclaredNames {
            name: name.share()?,
            descriptor: descriptor.share()?,
        })?;
        self.seen.insert(names)?;
        Ok(())
    }

    /// Adds the names and descriptors of fields.
    fn add_fields(&mut self, fields: &'a [Field]) -> Result<(), AllocError>
        ensures { OnOk result (Adds self.old (map field_names fields.now) self.new) }
    {
        for field in fields {
            self.add(&field.name, &field.descriptor)?;
        }
        Ok(())
    }

    /// Adds the names and descriptors of methods.
    fn add_methods(&mut self, methods: &'a [Method]) -> Result<(), AllocError>
        ensures { OnOk result (Adds self.old (map method_names methods.now) self.new) }
    {
        for method in methods {
            self.add(&method.name, &method.descriptor)?;
        }
        Ok(())
    }

    /// Returns the names and descriptors with their order.
    fn in_order(self, alloc: Global) -> Result<Members<DeclaredNames>, AllocError>
        ensures { IfOk result (λ members. members ≡ self.entry) }
    {
        Members::from_vec(alloc, self.declared)
    }
}

/// Returns the names and descriptors of the fields of classes.
fn fields_of(alloc: Global, classes: &[Class]) -> Result<Members<DeclaredNames>, AllocError>
    ensures { IfOk result (AreThoseOf (fields_of classes.now)) }
{
    let mut collection = Collection::new(alloc);
    for class in classes {
        collection.add_fields(class.fields.as_slice())?;
    }
    collection.in_order(alloc)
}

/// Returns the names and descriptors of the methods of classes.
fn methods_of(alloc: Global, classes: &[Class]) -> Result<Members<DeclaredNames>, AllocError>
    ensures { IfOk result (AreThoseOf (methods_of classes.now)) }
{
    let mut collection = Collection::new(alloc);
    for class in classes {
        collection.add_methods(class.methods.as_slice())?;
    }
    collection.in_order(alloc)
}

impl Declarations {
    /// Returns the names and descriptors that classes declare.
    pub(crate) fn of(alloc: Global, classes: &[Class]) -> Result<Self, AllocError>
        ensures fields { IfOk result (λ d. AreThoseOf (fields_of classes.now) d.fields) }
        ensures methods { IfOk result (λ d. AreThoseOf (methods_of classes.now) d.methods) }
    {
        Ok(Declarations {
            fields: fields_of(alloc, classes)?,
            methods: methods_of(alloc, classes)?,
        })
    }
}
