//! Assembles methods (JVMS 4.6).

ghost use Rattle.std.specs.Prelude.{◌≡◌, not, [], Ok, Err, IfOk, MatchResult};
ghost use Rattle.const_pool.specs.Interning.{pool_of};
ghost use Rattle.jvms_file.specs.Results.{want};
ghost use Rattle.jasmin.specs.Assembling.{repeats_label};
ghost use Rattle.assembly.specs.declared.fault.AsmFault.TheVariants as fault;
ghost use Rattle.assembly.specs.Faults.{Answers};
ghost use Rattle.assembly.specs.Assembled.{judge_labels, code_attribute, code_attributes, method_info, methods_onto};
ghost use Rattle.assembler.specs.Steps.{Assembles, list_of};

use crate::catches::catches_of;
use crate::listing::attributes_of;
use crate::operands::operands_of;
use crate::throws::throws_attribute;
use assembly::fault::AsmFault;
use class_file::CODE;
use code_bytes::{code_within, has_code};
use jasmin::source::{CodeItem, MethodLines};
use jvms_file::class_file::{MethodAttribute, MethodInfo};
use pool_entries::Entries;
use shared_data::items::Items;
use source_labels::{Labels, LabelsFault, has_bad_range, has_undefined_label};
use std::alloc::Global;

/// Returns the labels of code.
///
/// # Errors
///
/// Returns `RepeatedLabel` if a label is defined twice, or `Memory` if memory ran out.
fn labels_of<'s>(alloc: Global, code: &'s [CodeItem]) -> Result<Labels<'s>, AsmFault>
    ensures same { IfOk result (λ labels. labels ≡ code.now) }
    ensures once { MatchResult result (λ _. want (not (repeats_label code.now)) fault.RepeatedLabel
        ≡ Ok tt) (λ e. Answers (Err e) (want (not (repeats_label code.now)) fault.RepeatedLabel)) }
{
    match Labels::of(alloc, code) {
        Ok(labels) => Ok(labels),
        Err(LabelsFault::Repeated) => Err(AsmFault::RepeatedLabel),
        Err(LabelsFault::Memory) => Err(AsmFault::Memory),
    }
}

/// Returns the labels of a method's code, if they are good. Each is defined once. Each that is referred to marks an
/// instruction, or the code's end if it ends a range. Each range contains an instruction.
///
/// # Errors
///
/// Returns `RepeatedLabel`, `UndefinedLabel` or `CatchRange` if they aren't, or `Memory` if memory ran out.
#[tactic(auto, unfolding(assembly::specs::Assembled::judge_labels))]
fn judged_labels<'s>(alloc: Global, method: &'s MethodLines) -> Result<Labels<'s>, AsmFault>
    ensures same { IfOk result (λ labels. labels ≡ method.now.code) }
    ensures judged { MatchResult result (λ _. judge_labels method.now ≡ Ok tt)
        (λ e. Answers (Err e) (judge_labels method.now)) }
{
    let labels = labels_of(alloc, method.code.as_slice())?;
    if has_undefined_label(method, &labels) {
        return Err(AsmFault::UndefinedLabel);
    }
    if has_bad_range(method, &labels) {
        return Err(AsmFault::CatchRange);
    }
    Ok(labels)
}

/// Returns the Code attribute of a method (JVMS 4.7.3). `labels` are those of its code.
#[tactic(auto, unfolding(assembly::specs::Assembled::code_attribute))]
fn code_attribute(
    alloc: Global,
    entries: &mut Entries,
    method: &MethodLines,
    labels: &Labels<'_>,
) -> Result<MethodAttribute, AsmFault>
    requires { labels.now ≡ method.now.code }
    ensures { Assembles (λ attribute. attribute)
        (code_attribute (pool_of entries.old) method.now) result (pool_of entries.new) }
{
    let name = entries.text(alloc, &CODE)?;
    let operands = operands_of(alloc, entries, method.code.as_slice())?;
    let caught = catches_of(alloc, entries, method.catches.as_slice())?;
    let code = code_within(
        alloc,
        operands.as_slice(),
        caught.as_slice(),
        method,
        labels,
    )?;
    Ok(MethodAttribute::Code { name, code })
}

/// Returns the Code attribute of a method that has one (JVMS 4.7.3). `labels` are those of its code.
#[tactic(auto, unfolding(assembly::specs::Assembled::code_attributes))]
fn code_if_any(
    alloc: Global,
    entries: &mut Entries,
    method: &MethodLines,
    labels: &Labels<'_>,
) -> Result<Option<MethodAttribute>, AsmFault>
    requires { labels.now ≡ method.now.code }
    ensures { Assembles list_of (code_attributes (pool_of entries.old) method.now) result
        (pool_of entries.new) }
{
    if !has_code(method) {
        return Ok(None);
    }
    let code = code_attribute(alloc, entries, method, labels)?;
    Ok(Some(code))
}

/// Returns the info of a method (JVMS 4.6).
#[tactic(auto, unfolding(assembly::specs::Assembled::method_info))]
fn method_info(
    alloc: Global,
    entries: &mut Entries,
    method: &MethodLines,
) -> Result<MethodInfo, AsmFault>
    ensures { Assembles (λ info. info)
        (method_info (pool_of entries.old) method.now) result (pool_of entries.new) }
{
    let labels = judged_labels(alloc, method)?;
    let name = entries.text(alloc, method.name.as_slice())?;
    let descriptor = entries.text(alloc, method.descriptor.as_slice())?;
    let code = code_if_any(alloc, entries, method, &labels)?;
    let throws = throws_attribute(alloc, entries, method.throws.as_slice())?;
    Ok(MethodInfo {
        access: method.access,
        name,
        descriptor,
        attributes: attributes_of(alloc, code, throws)?,
    })
}

/// Returns the infos of a class's methods, in their order.
pub(crate) fn methods_of(
    alloc: Global,
    entries: &mut Entries,
    methods: &[MethodLines],
) -> Result<Items<MethodInfo>, AsmFault>
    ensures { Assembles (λ infos. infos)
        (methods_onto [] (pool_of entries.old) methods.now) result (pool_of entries.new) }
{
    let mut infos = Items::new(alloc);
    for method in methods {
        let info = method_info(alloc, entries, method)?;
        infos.push(info)?;
    }
    Ok(infos)
}
