//! Reads and clones fields and methods, for the cache.

ghost use Rattle.escapes.specs.Keys.{IsFieldKey, IsMethodKey, field_text, method_text};

use crate::known::{Member, Members};
use escapes::{field_of, method_of};
use jvms_program::key::{FieldKey, MethodKey};
use std::alloc::{AllocError, Global};

impl Member for FieldKey {
    ghost is_valid = { IsFieldKey };

    ghost text_of = { field_text };

    fn read(alloc: Global, text: &[u8]) -> Result<Option<FieldKey>, AllocError> {
        field_of(alloc, text)
    }

    fn share(&self) -> Result<FieldKey, AllocError> {
        Ok(FieldKey {
            class: self.class.share()?,
            name: self.name.share()?,
            descriptor: self.descriptor.share()?,
        })
    }
}

impl Member for MethodKey {
    ghost is_valid = { IsMethodKey };

    ghost text_of = { method_text };

    fn read(alloc: Global, text: &[u8]) -> Result<Option<MethodKey>, AllocError> {
        method_of(alloc, text)
    }

    fn share(&self) -> Result<MethodKey, AllocError> {
        Ok(MethodKey {
            class: self.class.share()?,
            name: self.name.share()?,
            descriptor: self.descriptor.share()?,
        })
    }
}

/// The caches of fields and of methods.
#[derive(Drop)]
pub(crate) struct Keys<'t> {
    pub fields: Members<'t, FieldKey>,
    pub methods: Members<'t, MethodKey>,
}

impl<'t> Keys<'t> {
    /// Returns empty caches.
    pub(crate) fn new(alloc: Global) -> Result<Self, AllocError> {
        Ok(Keys {
            fields: Members::new(alloc)?,
            methods: Members::new(alloc)?,
        })
    }
}
