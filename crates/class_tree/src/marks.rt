//! Marks the places of a method's code that instructions and handlers refer to.

ghost use Rattle.std.specs.Prelude.{◌≡◌, ◌≤◌, length, map, IfOk, replicate, suc, false, slice_get};
ghost use Rattle.std.specs.Option.{unwrap_or};
ghost use Rattle.listing_spec.specs.TreeOf.{targets_of, is_referred};
ghost use Rattle.class_tree.specs.Marks.{with_mark, with_marks, with_insn_marks, with_bound_marks, with_handler_marks, marks_of};

use jvms_file::class_file::{Code, Handler};
use jvms_file::insn::{Insn, SwitchCase};
use std::alloc::{AllocError, Global};
use std::marker::Model;

/// Code with a mark for each place, the one after the last instruction included. A mark is set if something refers to
/// its place. In contracts it is the code.
#[derive(Drop)]
pub(crate) struct Marks<'c> {
    code: &'c Code,
    marks: Vec<bool>,
}

impl<'c> Model for Marks<'c> {
    ghost use Rattle.std.specs.Prelude.{◌≡◌};
    ghost use Rattle.jvms_file.specs.declared.class_file.Code.{Code};
    ghost use Rattle.class_tree.specs.Marks.{marks_of};

    ghost Value = { Code };

    ghost view = { λ m. m.code.now };

    ghost invariant = { λ m. m.marks.items ≡ marks_of m.code.now };
}

/// Marks a place. Does nothing for a place without a mark.
fn mark(marks: &mut [bool], place: u32)
    ensures { marks.new ≡ with_mark place marks.old }
{
    let place = place as usize;
    if place < marks.len() {
        marks[place] = true;
    }
}

/// Marks places.
fn mark_all(marks: &mut [bool], places: &[u32])
    ensures { marks.new ≡ with_marks places.now marks.old }
{
    let mut rest = places;
    while let [place, others @ ..] = rest {
        mark(marks, *place);
        rest = others;
    }
}

/// Marks the targets of a lookupswitch's cases.
fn mark_cases(marks: &mut [bool], cases: &[SwitchCase])
    ensures { marks.new ≡ with_marks (map (λ c. c.target) cases.now) marks.old }
{
    let mut rest = cases;
    while let [case, others @ ..] = rest {
        mark(marks, case.target);
        rest = others;
    }
}

/// Marks the places that an instruction may jump to.
fn mark_targets(marks: &mut [bool], insn: &Insn)
    ensures { marks.new ≡ with_marks (targets_of insn.now) marks.old }
{
    match insn {
        Insn::Branch(_, target) => mark(marks, *target),
        Insn::Table(switch) => {
            let switch = switch.get();
            mark(marks, switch.default);
            mark_all(marks, switch.targets.as_slice());
        }
        Insn::Lookup(switch) => {
            let switch = switch.get();
            mark(marks, switch.default);
            mark_cases(marks, switch.cases.as_slice());
        }
        _ => {}
    }
}

/// Marks the places that instructions may jump to.
fn mark_insns(marks: &mut [bool], insns: &[Insn])
    ensures { marks.new ≡ with_insn_marks insns.now marks.old }
{
    let mut rest = insns;
    while let [insn, others @ ..] = rest {
        mark_targets(marks, insn);
        rest = others;
    }
}

/// Marks the bounds of a handler's range, and its target.
fn mark_bounds(marks: &mut [bool], handler: &Handler)
    ensures { marks.new ≡ with_bound_marks handler.now marks.old }
{
    mark(marks, handler.start);
    mark(marks, handler.end);
    mark(marks, handler.target);
}

/// Marks the places that handlers refer to.
fn mark_handlers(marks: &mut [bool], handlers: &[Handler])
    ensures { marks.new ≡ with_handler_marks handlers.now marks.old }
{
    let mut rest = handlers;
    while let [handler, others @ ..] = rest {
        mark_bounds(marks, handler);
        rest = others;
    }
}

/// Returns the marks of these instructions and of the place after the last, none of which is set.
fn no_marks(alloc: Global, insns: &[Insn]) -> Result<Vec<bool>, AllocError>
    ensures { IfOk result (λ marks. marks.items ≡ replicate (suc (length insns.now)) false) }
{
    let mut marks = Vec::new(alloc);
    marks.resize(insns.len() + 1, false)?;
    Ok(marks)
}

/// Returns the mark of a place, or `false` for a place without a mark.
fn mark_of(marks: &[bool], place: usize) -> bool
    ensures { result ≡ unwrap_or (slice_get marks.now place) false }
{
    marks.get(place).copied().unwrap_or(false)
}

impl<'c> Marks<'c> {
    /// Returns the marks of code, set in one pass.
    #[tactic(auto, unfolding(crate::specs::Marks::marks_of))]
    pub(crate) fn of(alloc: Global, code: &'c Code) -> Result<Self, AllocError>
        ensures { IfOk result (λ marks. marks ≡ code.now) }
    {
        let mut marks = no_marks(alloc, code.insns.as_slice())?;
        mark_insns(&mut marks, code.insns.as_slice());
        mark_handlers(&mut marks, code.handlers.as_slice());
        Ok(Marks { code, marks })
    }

    /// Decides whether an instruction or a handler refers to a place.
    #[tactic(auto, using(crate::proofs::Referred::mark_at))]
    pub(crate) fn is_referred(&self, place: usize) -> bool
        requires { place ≤ length self.now.insns }
        ensures { result ≡ is_referred self.now place }
    {
        mark_of(&self.marks, place)
    }
}
