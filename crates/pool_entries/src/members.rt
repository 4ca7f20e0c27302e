//! The entries of members.

ghost use Rattle.std.specs.Prelude.{◌≡◌, Some, IfOk};
ghost use Rattle.jvms_file.specs.declared.class_file.Constant.TheVariants as constant;
ghost use Rattle.jvms_file.specs.ConstantPool.{name_and_type_at};
ghost use Rattle.const_pool.specs.Interning.{pool_of};
ghost use Rattle.pool_entries.specs.Entries.{Gives, name_and_type_entry, field_entry, method_entry, method_constant};
ghost use Rattle.pool_entries.specs.Kept.{IsKept};
ghost use Rattle.pool_entries.specs.Named.{IsMember};

use crate::entries::Entries;
use crate::fault::EntryFault;
use crate::kind::MethodKind;
use const_pool::Entry;
use std::alloc::Global;

impl Entries {
    /// Returns the number of the entry of a member's name and descriptor, and appends it if it isn't there (JVMS
    /// 4.4.6).
    #[tactic(auto, unfolding(crate::specs::Entries::name_and_type_entry))]
    pub fn name_and_type(
        &mut self,
        alloc: Global,
        name: &[u16],
        descriptor: &[u16],
    ) -> Result<u16, EntryFault>
        ensures exact { Gives (name_and_type_entry (pool_of self.old) name.now descriptor.now)
            result (pool_of self.new) }
        ensures names { IfOk result
            (λ n. name_and_type_at (pool_of self.new) n ≡ Some (name.now, descriptor.now)) }
        ensures kept { IsKept (pool_of self.old) (pool_of self.new) }
    {
        let name = self.text(alloc, name)?;
        let descriptor = self.text(alloc, descriptor)?;
        self.constant(Entry::NameAndType { name, descriptor })
    }

    /// Returns the number of the entry of a class's field, and appends it if it isn't there (JVMS 4.4.2).
    #[tactic(auto, unfolding(crate::specs::Entries::member_entry))]
    pub fn field(
        &mut self,
        alloc: Global,
        class: &[u16],
        name: &[u16],
        descriptor: &[u16],
    ) -> Result<u16, EntryFault>
        ensures exact { Gives (field_entry (pool_of self.old) class.now name.now descriptor.now)
            result (pool_of self.new) }
        ensures names { IfOk result (λ n. IsMember (λ c m. constant.Field c m)
            (pool_of self.new) n class.now name.now descriptor.now) }
        ensures kept { IsKept (pool_of self.old) (pool_of self.new) }
    {
        let owner = self.class(alloc, class)?;
        let member = self.name_and_type(alloc, name, descriptor)?;
        self.constant(Entry::Field {
            class: owner,
            name_and_type: member,
        })
    }

    /// Returns the number of the entry of a method of a class or of an interface, and appends it if it isn't there
    /// (JVMS 4.4.2).
    #[tactic(auto, unfolding(crate::specs::Entries::member_entry))]
    pub fn method(
        &mut self,
        alloc: Global,
        kind: MethodKind,
        class: &[u16],
        name: &[u16],
        descriptor: &[u16],
    ) -> Result<u16, EntryFault>
        ensures exact { Gives (method_entry kind
            (pool_of self.old) class.now name.now descriptor.now) result (pool_of self.new) }
        ensures names { IfOk result (λ n. IsMember (method_constant kind)
            (pool_of self.new) n class.now name.now descriptor.now) }
        ensures kept { IsKept (pool_of self.old) (pool_of self.new) }
    {
        let class = self.class(alloc, class)?;
        let name_and_type = self.name_and_type(alloc, name, descriptor)?;
        match kind {
            MethodKind::OfClass => self.constant(Entry::Method {
                class,
                name_and_type,
            }),
            MethodKind::OfInterface => self.constant(Entry::InterfaceMethod {
                class,
                name_and_type,
            }),
        }
    }
}
