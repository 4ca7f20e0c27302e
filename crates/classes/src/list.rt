//! The classes of a program whose hierarchy isn't circular.

ghost use Rattle.std.specs.Prelude.{◌≡◌, ◌∷◌, ◌<◌, ◌≤◌, All, IfOk, Some, IsOk, None, false, length, option_copied, slice_get};
ghost use Rattle.std.specs.Option.{option_map, unwrap_or};
ghost use Rattle.jvms_program.specs.BuiltIn.{is_built_in};
ghost use Rattle.jvms_program.specs.Program.{IsProgram, class_named, class_number, method_at, key_of};
ghost use Rattle.jvms_program.specs.Resolution.{chain, names_interface};
ghost use Rattle.classes.specs.Declarations.{HasNoField, HasNoMethod};
ghost use Rattle.classes.specs.Hierarchy.{chain_up};
ghost use Rattle.classes.specs.Ordered.{IsOrderedOf};
ghost use Rattle.classes.specs.Slots.{AreCountable};

use crate::class_list::ClassList;
use crate::declarations::Declarations;
use crate::hierarchy::{Hierarchy, hierarchy_of};
use crate::lookup::method_of;
use crate::ranked::Ranked;
use jvms_program::key::MethodKey;
use jvms_program::number::{ClassNumber, MethodNumber};
use jvms_program::program::{Class, Method};
use std::alloc::{AllocError, Global};
use std::marker::Model;

/// The classes of a program, none of which is its own superclass or superinterface, over one or more steps. Contracts
/// see the list of them.
#[derive(Drop)]
pub struct Classes {
    list: ClassList,
    hierarchy: Hierarchy,
    declared: Declarations,
}

impl Model for Classes {
    ghost use Rattle.std.specs.Prelude.{List};
    ghost use Rattle.jvms_program.specs.declared.program.Class.{Class};
    ghost use Rattle.classes.specs.Declarations.{AreThoseOf, fields_of, methods_of};
    ghost use Rattle.classes.specs.Hierarchy.{IsHierarchyOf};

    ghost Value = { List Class };

    ghost view = { λ p. p.list };

    ghost invariant = { λ p. IsHierarchyOf p.list p.hierarchy.supers.items
        p.hierarchy.ranks.items p.hierarchy.order.items
        × AreThoseOf (fields_of p.list) p.declared.fields
        × AreThoseOf (methods_of p.list) p.declared.methods };
}

/// The result of ordering a list of classes.
#[derive(Drop)]
pub enum Ordered {
    /// None of them is its own superclass or superinterface.
    Classes(Classes),
    /// No order was found in which each comes after its own.
    Unordered(ClassList),
}

impl Classes {
    /// Orders the classes of a list, each after its superclass and its superinterfaces.
    pub fn ordered(alloc: Global, list: ClassList) -> Result<Ordered, AllocError>
        ensures { IfOk result (λ ordered. IsOrderedOf list ordered) }
    {
        let Some(hierarchy) = hierarchy_of(alloc, &list)? else {
            return Ok(Ordered::Unordered(list));
        };
        let declared = Declarations::of(alloc, list.classes())?;
        Ok(Ordered::Classes(Classes {
            list,
            hierarchy,
            declared,
        }))
    }

    /// States that the classes are a program: the built-in classes come first, and types are those that descriptors
    /// spell. It does nothing at run time.
    pub fn program_invariant(&self)
        ensures { IsProgram self.now }
    {
        self.list.program_invariant();
    }

    /// States that the number of classes times the greatest number of fields of any doesn't overflow. It does nothing
    /// at run time.
    pub(crate) fn countable_invariant(&self)
        ensures { AreCountable self.now }
    {
        self.list.countable_invariant();
    }

    /// States that there are at most 1,048,576 classes, so that each can be marked. It does nothing at run time.
    pub(crate) fn few_classes_invariant(&self)
        ensures { length self.now ≤ 1048576 }
    {
        self.list.few_classes_invariant();
    }

    /// States that the chain of a class is the class, followed by the chain of its superclass. It does nothing at run
    /// time.
    pub fn chain_invariant(&self, number: ClassNumber, class: &Class)
        requires there { slice_get self.now number ≡ Some class.now }
        requires named { class_number self.now class.now.name ≡ Some number }
        ensures { chain self.now class.now.name
            ≡ class.now ∷ chain_up self.now class.now.superclass }
    {
        // Only for the proof: the chain is that of this class.
        let _ = number;
        let _ = class;
        let _ = &self.hierarchy;
    }

    /// Returns the numbers of the classes, each after those of its superclass and its superinterfaces.
    pub fn order(&self) -> &[usize]
        ensures { All (λ n. n < length self.now) result.now }
    {
        self.hierarchy.order.as_slice()
    }

    /// Returns the classes with their order.
    pub(crate) fn ranked(&self) -> Ranked<'_>
        ensures { result.classes.now ≡ self.now }
    {
        Ranked {
            classes: self.list.classes(),
            supers: self.hierarchy.supers.as_slice(),
            ranks: self.hierarchy.ranks.as_slice(),
            order: self.hierarchy.order.as_slice(),
        }
    }

    /// Returns whether a class may declare a field of this name and descriptor. If not, none does.
    pub(crate) fn may_declare_field(&self, name: &[u16], descriptor: &[u16]) -> bool
        ensures { result ≡ false → HasNoField self.now name.now descriptor.now }
    {
        self.declared.fields.number_of(name, descriptor).is_some()
    }

    /// Returns whether a class may declare a method of this name and descriptor. If not, none does.
    pub(crate) fn may_declare_method(&self, name: &[u16], descriptor: &[u16]) -> bool
        ensures { result ≡ false → HasNoMethod self.now name.now descriptor.now }
    {
        self.declared.methods.number_of(name, descriptor).is_some()
    }

    /// Returns the classes in order.
    pub fn classes(&self) -> &[Class]
        ensures { result.now ≡ self.now }
    {
        self.list.classes()
    }

    /// Returns the class of a number.
    pub fn class(&self, number: usize) -> Option<&Class>
        ensures { option_copied result ≡ slice_get self.now number }
    {
        self.list.class(number)
    }

    /// Returns whether the class of a number is built in, or false if there is no such class.
    pub fn is_built_in(&self, number: usize) -> bool
        ensures { result
            ≡ unwrap_or (option_map (λ c. is_built_in c.name) (slice_get self.now number)) false }
    {
        self.list.is_built_in(number)
    }

    /// Returns the class of a name.
    pub fn class_named(&self, name: &[u16]) -> Option<&Class>
        ensures { option_copied result ≡ class_named self.now name.now }
    {
        self.list.class_named(name)
    }

    /// Returns the number of the class of a name: its place in the list.
    pub fn class_number(&self, name: &[u16]) -> Option<ClassNumber>
        ensures { result ≡ class_number self.now name.now }
    {
        self.list.class_number(name)
    }

    /// Returns whether the class of a name is there, and an interface.
    pub fn names_interface(&self, name: &[u16]) -> bool
        ensures { result ≡ names_interface self.now name.now }
    {
        self.list.names_interface(name)
    }

    /// Returns the method of a number.
    pub fn method(&self, n: MethodNumber) -> Option<&Method>
        ensures { option_copied result ≡ method_at self.now n }
    {
        method_of(self.classes(), n)
    }

    /// Returns the key of a method in a trace, if there is a method of the number.
    pub fn key(&self, n: MethodNumber) -> Result<Option<MethodKey>, AllocError>
        ensures key { IfOk result (λ key. key ≡ key_of self.now n) }
        // If there is no such method, it doesn't fail.
        ensures none { key_of self.now n ≡ None → IsOk result }
    {
        let Some(class) = self.class(n.class) else {
            return Ok(None);
        };
        let Some(method) = class.methods.as_slice().get(n.method) else {
            return Ok(None);
        };
        Ok(Some(MethodKey {
            class: class.name.share()?,
            name: method.name.share()?,
            descriptor: method.descriptor.share()?,
        }))
    }
}
