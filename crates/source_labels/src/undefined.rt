//! Finds labels that have to mark an instruction and don't.

ghost use Rattle.std.specs.Prelude.{◌≡◌, ◌∷◌, map};
ghost use Rattle.std.specs.List.{list_any};
ghost use Rattle.jasmin.specs.Denote.{operations};
ghost use Rattle.jasmin.specs.Assembling.{labels_of, marks_no_instruction, has_bad_label, has_undefined_label};
ghost use Rattle.source_labels.specs.Leading.{item_leads_nowhere};

use crate::labels::Labels;
use jasmin::source::{
    CatchLine, CodeItem, LookupLines, MatchLine, MethodLines, Operation, TableLines,
};
use shared_data::shared::Text;

/// Decides whether a label marks no instruction: it is undefined, or follows the last instruction.
fn marks_no_instruction(labels: &Labels<'_>, label: &Text) -> bool
    ensures { result ≡ marks_no_instruction labels.now label.now }
{
    match labels.place(label.as_slice()) {
        Some(place) => place >= labels.operations(),
        None => true,
    }
}

/// Decides whether a label of a tableswitch, other than its default, marks no instruction.
fn any_leads_nowhere(labels: &Labels<'_>, names: &[Text]) -> bool
    ensures { result ≡ list_any (marks_no_instruction labels.now) names.now }
{
    names.iter().any(|name| marks_no_instruction(labels, name))
}

/// Decides whether a label of a lookupswitch, other than its default, marks no instruction.
fn any_match_leads_nowhere(labels: &Labels<'_>, lines: &[MatchLine]) -> bool
    ensures { result ≡ list_any (λ line. marks_no_instruction labels.now line.label) lines.now }
{
    lines
        .iter()
        .any(|line| marks_no_instruction(labels, &line.label))
}

/// Decides whether a label of a tableswitch marks no instruction.
fn table_leads_nowhere(labels: &Labels<'_>, lines: &TableLines) -> bool
    ensures { result
        ≡ list_any (marks_no_instruction labels.now) (lines.now.default ∷ lines.now.labels) }
{
    marks_no_instruction(labels, &lines.default)
        || any_leads_nowhere(labels, lines.labels.as_slice())
}

/// Decides whether a label of a lookupswitch marks no instruction.
#[tactic(auto, using(crate::proofs::Any::any_mapped))]
fn lookup_leads_nowhere(labels: &Labels<'_>, lines: &LookupLines) -> bool
    ensures { result ≡ list_any (marks_no_instruction labels.now)
        (lines.now.default ∷ map (λ m. m.label) lines.now.matches) }
{
    marks_no_instruction(labels, &lines.default)
        || any_match_leads_nowhere(labels, lines.matches.as_slice())
}

/// Decides whether an operation refers to a label that marks no instruction.
fn operation_leads_nowhere(labels: &Labels<'_>, operation: &Operation) -> bool
    ensures { result ≡ list_any (marks_no_instruction labels.now) (labels_of operation.now) }
{
    match operation {
        Operation::Branch(_, _, label) => marks_no_instruction(labels, label),
        Operation::Table(lines) => table_leads_nowhere(labels, lines.get()),
        Operation::Lookup(lines) => lookup_leads_nowhere(labels, lines.get()),
        _ => false,
    }
}

/// Decides whether an item of code is an operation that refers to a label that marks no instruction.
fn item_leads_nowhere(labels: &Labels<'_>, item: &CodeItem) -> bool
    ensures { result ≡ item_leads_nowhere labels.now item.now }
{
    match item {
        CodeItem::Label(_) => false,
        CodeItem::Operation(operation) => operation_leads_nowhere(labels, operation),
    }
}

/// Decides whether a catch refers to an undefined label, or to one after the last instruction. The end of its range may
/// follow the last instruction.
fn has_bad_label(labels: &Labels<'_>, catch: &CatchLine) -> bool
    ensures { result ≡ has_bad_label labels.now catch.now }
{
    marks_no_instruction(labels, &catch.from)
        || labels.place(catch.to.as_slice()).is_none()
        || marks_no_instruction(labels, &catch.using)
}

/// Decides whether an item of code refers to a label that marks no instruction.
fn any_item_leads_nowhere(labels: &Labels<'_>, code: &[CodeItem]) -> bool
    ensures { result ≡ list_any (item_leads_nowhere labels.now) code.now }
{
    code.iter().any(|item| item_leads_nowhere(labels, item))
}

/// Decides whether an instruction of a method refers to a label that marks no instruction.
#[tactic(auto, using(crate::proofs::Any::code_leads_nowhere))]
fn code_leads_nowhere(method: &MethodLines, labels: &Labels<'_>) -> bool
    requires { labels.now ≡ method.now.code }
    ensures { result ≡ list_any (λ o. list_any (marks_no_instruction method.now.code) (labels_of o))
        (operations method.now.code) }
{
    any_item_leads_nowhere(labels, method.code.as_slice())
}

/// Decides whether a catch refers to an undefined label, or to one after the last instruction other than its end.
fn any_bad_label(labels: &Labels<'_>, catches: &[CatchLine]) -> bool
    ensures { result ≡ list_any (has_bad_label labels.now) catches.now }
{
    catches.iter().any(|catch| has_bad_label(labels, catch))
}

/// Decides whether a catch of a method refers to an undefined label, or to one after the last instruction other than
/// its end.
fn catches_lead_nowhere(method: &MethodLines, labels: &Labels<'_>) -> bool
    requires { labels.now ≡ method.now.code }
    ensures { result ≡ list_any (has_bad_label method.now.code) method.now.catches }
{
    any_bad_label(labels, method.catches.as_slice())
}

/// Decides whether a label that a method refers to is undefined, or follows the last instruction where one has to
/// follow it. `labels` are those of the method's code.
pub fn has_undefined_label(method: &MethodLines, labels: &Labels<'_>) -> bool
    requires { labels.now ≡ method.now.code }
    ensures { result ≡ has_undefined_label method.now }
{
    code_leads_nowhere(method, labels) || catches_lead_nowhere(method, labels)
}
