//! Writes the lines of a method's code.

ghost use Rattle.std.specs.Prelude.{◌≡◌, ◌++◌, ◌∷◌, [], map, OnOk, Some, codes};
ghost use Rattle.std.specs.Option.{unwrap_or};
ghost use Rattle.std.specs.List.{flat_map};
ghost use Rattle.std.specs.Fmt.{decimal, signed_decimal};
ghost use Rattle.jvms_file.specs.Instructions.{interface_count};
ghost use Rattle.listing_spec.specs.Printed.{opcode_of, mnemonic, loaded_word, join_words, operand_words, count_words, switch_line, default_line, match_line, lines_after, item_lines, member_word};
ghost use Rattle.source_text.specs.Words.{units_in};
ghost use Rattle.source_text.specs.Lines.{with_lf, text_of_lines};

use crate::mnemonic::{array_type_name, mnemonic};
use crate::opcodes::opcode_of;
use crate::word::{Word, put_ascii, put_line};
use descriptor::method_units;
use jasmin::source::{
    CodeItem, FieldName, LoadedConstant, LookupLines, MatchLine, MethodName, Operation, TableLines,
};
use jvms_file::insn::Invoke;
use shared_data::shared::Text;
use std::alloc::{AllocError, Global};

/// Appends an instruction's line, indented by two spaces.
fn put_instruction(alloc: Global, out: &mut Vec<u16>, words: &[Word<'_>]) -> Result<(), AllocError>
    ensures { OnOk result
        (out.new.items ≡ out.old.items
        ++ with_lf (codes "  " ++ join_words (map units_in words.now))) }
{
    put_ascii(out, "  ")?;
    put_line(alloc, out, words)
}

/// Appends a line of a switch, indented by four spaces.
fn put_case(alloc: Global, out: &mut Vec<u16>, words: &[Word<'_>]) -> Result<(), AllocError>
    ensures { OnOk result
        (out.new.items ≡ out.old.items ++ with_lf (switch_line (map units_in words.now))) }
{
    put_ascii(out, "    ")?;
    put_line(alloc, out, words)
}

/// Appends the line of a switch's default.
fn put_default(alloc: Global, out: &mut Vec<u16>, label: &Text) -> Result<(), AllocError>
    ensures { OnOk result (out.new.items ≡ out.old.items ++ with_lf (default_line label.now)) }
{
    put_case(
        alloc,
        out,
        &[
            Word::Ascii("default"),
            Word::Ascii(":"),
            Word::Name(label.as_slice()),
        ],
    )
}

/// Appends the lines of labels.
fn put_labels(alloc: Global, out: &mut Vec<u16>, labels: &[Text]) -> Result<(), AllocError>
    ensures { OnOk result (out.new.items
        ≡ out.old.items ++ flat_map (λ label. with_lf (switch_line (label ∷ []))) labels.now) }
{
    for label in labels {
        put_case(alloc, out, &[Word::Name(label.as_slice())])?;
    }
    Ok(())
}

/// Appends a line `number : label`.
fn put_match(alloc: Global, out: &mut Vec<u16>, line: &MatchLine) -> Result<(), AllocError>
    ensures { OnOk result (out.new.items ≡ out.old.items ++ with_lf (match_line line.now)) }
{
    put_case(
        alloc,
        out,
        &[
            Word::Number(i64::from(line.value)),
            Word::Ascii(":"),
            Word::Name(line.label.as_slice()),
        ],
    )
}

/// Appends the lines of matches.
fn put_matches(alloc: Global, out: &mut Vec<u16>, matches: &[MatchLine]) -> Result<(), AllocError>
    ensures { OnOk result
        (out.new.items ≡ out.old.items ++ flat_map (λ m. with_lf (match_line m)) matches.now) }
{
    for line in matches {
        put_match(alloc, out, line)?;
    }
    Ok(())
}

/// Appends the lines of a `tableswitch` after its first.
fn put_table(alloc: Global, out: &mut Vec<u16>, lines: &TableLines) -> Result<(), AllocError>
    ensures { OnOk result (out.new.items
        ≡ out.old.items ++ (flat_map (λ label. with_lf (switch_line (label ∷ []))) lines.now.labels
        ++ with_lf (default_line lines.now.default))) }
{
    put_labels(alloc, out, lines.labels.as_slice())?;
    put_default(alloc, out, &lines.default)
}

/// Appends the lines of a `lookupswitch` after its first.
fn put_lookup(alloc: Global, out: &mut Vec<u16>, lines: &LookupLines) -> Result<(), AllocError>
    ensures { OnOk result
        (out.new.items ≡ out.old.items ++ (flat_map (λ m. with_lf (match_line m)) lines.now.matches
        ++ with_lf (default_line lines.now.default))) }
{
    put_matches(alloc, out, lines.matches.as_slice())?;
    put_default(alloc, out, &lines.default)
}

/// Appends the lines that follow that of an instruction's mnemonic.
#[tactic(auto, using(crate::proofs::Ended::table_lines, crate::proofs::Ended::lookup_lines))]
fn put_after(alloc: Global, out: &mut Vec<u16>, operation: &Operation) -> Result<(), AllocError>
    ensures { OnOk result
        (out.new.items ≡ out.old.items ++ text_of_lines (lines_after operation.now)) }
{
    match operation {
        Operation::Table(lines) => put_table(alloc, out, lines.get()),
        Operation::Lookup(lines) => put_lookup(alloc, out, lines.get()),
        _ => Ok(()),
    }
}

/// Returns the word of a constant that `ldc` loads.
fn loaded_word(constant: &LoadedConstant) -> Word<'_>
    ensures { units_in result ≡ loaded_word constant.now }
{
    match constant {
        LoadedConstant::Integer(number) => Word::Number(i64::from(*number)),
        LoadedConstant::String(text) => Word::Quoted(text.as_slice()),
        LoadedConstant::Class(name) => Word::Name(name.as_slice()),
    }
}

/// Returns the number of units of the arguments of an `invokeinterface` with the object, or 0 for a malformed
/// descriptor.
fn interface_count(descriptor: &[u16]) -> u16
    ensures { result ≡ unwrap_or (interface_count (Some ([], descriptor.now))) 0 }
{
    match method_units(descriptor) {
        Some(units) => units as u16 + 1,
        None => 0,
    }
}

/// Appends the line of an instruction with one operand.
fn put_with<'a>(
    alloc: Global,
    out: &mut Vec<u16>,
    name: Word<'a>,
    operand: Word<'a>,
) -> Result<(), AllocError>
    ensures { OnOk result (out.new.items ≡ out.old.items
        ++ with_lf (codes "  " ++ join_words (units_in name.entry ∷ units_in operand.entry ∷ []))) }
{
    put_instruction(alloc, out, &[name, operand])
}

/// Appends the line of an instruction with two operands.
fn put_with_two<'a>(
    alloc: Global,
    out: &mut Vec<u16>,
    name: Word<'a>,
    first: Word<'a>,
    second: Word<'a>,
) -> Result<(), AllocError>
    ensures { OnOk result (out.new.items ≡ out.old.items ++ with_lf (codes "  "
        ++ join_words (units_in name.entry ∷ units_in first.entry ∷ units_in second.entry ∷ []))) }
{
    put_instruction(alloc, out, &[name, first, second])
}

/// Appends the line of an invoke instruction.
fn put_invoke<'a>(
    alloc: Global,
    out: &mut Vec<u16>,
    name: Word<'a>,
    how: Invoke,
    method: &'a MethodName,
) -> Result<(), AllocError>
    ensures { OnOk result (out.new.items ≡ out.old.items ++ with_lf (codes "  "
        ++ join_words (units_in name.entry ∷ (member_word method.now.class method.now.name
        ++ method.now.descriptor) ∷ count_words how method.now.descriptor))) }
{
    let descriptor = method.descriptor.as_slice();
    let called = Word::Method(method.class.as_slice(), method.name.as_slice(), descriptor);
    match how {
        Invoke::Interface => {
            let count = Word::Number(i64::from(interface_count(descriptor)));
            put_with_two(alloc, out, name, called, count)
        }
        Invoke::Virtual | Invoke::Special | Invoke::Static => put_with(alloc, out, name, called),
    }
}

/// Appends the line of an instruction that names a field.
fn put_field_use<'a>(
    alloc: Global,
    out: &mut Vec<u16>,
    name: Word<'a>,
    field: &'a FieldName,
) -> Result<(), AllocError>
    ensures { OnOk result
        (out.new.items ≡ out.old.items ++ with_lf (codes "  " ++ join_words (units_in name.entry
        ∷ member_word field.now.class field.now.name ∷ field.now.descriptor ∷ []))) }
{
    let member = Word::Member(field.class.as_slice(), field.name.as_slice());
    let descriptor = Word::Name(field.descriptor.as_slice());
    put_with_two(alloc, out, name, member, descriptor)
}

/// Appends the line of an `iinc`.
fn put_increment(
    alloc: Global,
    out: &mut Vec<u16>,
    name: Word<'_>,
    local: u16,
    by: i16,
) -> Result<(), AllocError>
    ensures { OnOk result (out.new.items ≡ out.old.items ++ with_lf (codes "  "
        ++ join_words (units_in name.entry ∷ decimal local ∷ signed_decimal by ∷ []))) }
{
    let local = Word::Number(i64::from(local));
    let by = Word::Number(i64::from(by));
    put_with_two(alloc, out, name, local, by)
}

/// Appends the line of a `multianewarray`.
fn put_array<'a>(
    alloc: Global,
    out: &mut Vec<u16>,
    name: Word<'a>,
    class: &'a Text,
    dimensions: u8,
) -> Result<(), AllocError>
    ensures { OnOk result (out.new.items ≡ out.old.items ++ with_lf (codes "  "
        ++ join_words (units_in name.entry ∷ class.now ∷ decimal dimensions ∷ []))) }
{
    let class = Word::Name(class.as_slice());
    let dimensions = Word::Number(i64::from(dimensions));
    put_with_two(alloc, out, name, class, dimensions)
}

/// Appends the line of an instruction.
#[tactic(auto, unfolding(listing_spec::specs::Printed::operand_words))]
fn put_operation<'a>(
    alloc: Global,
    out: &mut Vec<u16>,
    name: Word<'a>,
    operation: &'a Operation,
) -> Result<(), AllocError>
    ensures { OnOk result (out.new.items ≡ out.old.items
        ++ with_lf (codes "  " ++ join_words (units_in name.entry ∷ operand_words operation.now))) }
{
    let operand = match operation {
        Operation::Alone(_) | Operation::Lookup(_) => {
            return put_instruction(alloc, out, &[name]);
        }
        Operation::Increment(n, by) => return put_increment(alloc, out, name, *n, *by),
        Operation::Field(_, field) => return put_field_use(alloc, out, name, field.get()),
        Operation::Invoke(how, method) => {
            return put_invoke(alloc, out, name, *how, method.get());
        }
        Operation::MultiNewArray(class, dimensions) => {
            return put_array(alloc, out, name, class, *dimensions);
        }
        Operation::PushByte(n) => Word::Number(i64::from(*n)),
        Operation::PushShort(n) => Word::Number(i64::from(*n)),
        Operation::Constant(_, constant) => loaded_word(constant.get()),
        Operation::ConstantLong(n) => Word::Number(*n),
        Operation::Local(_, n) => Word::Number(i64::from(*n)),
        Operation::Branch(_, _, label) => Word::Name(label.as_slice()),
        Operation::Table(lines) => Word::Number(i64::from(lines.get().low)),
        Operation::Class(_, class) => Word::Name(class.as_slice()),
        Operation::NewArray(component) => Word::Ascii(array_type_name(*component)),
    };
    put_with(alloc, out, name, operand)
}

/// Appends the line of a label.
fn put_label(out: &mut Vec<u16>, name: &[u16]) -> Result<(), AllocError>
    ensures { OnOk result (out.new.items ≡ out.old.items ++ with_lf (name.now ++ codes ":")) }
{
    out.extend_from_slice(name)?;
    put_ascii(out, ":\n")
}

/// Appends the lines of an instruction.
fn put_operation_lines(
    alloc: Global,
    out: &mut Vec<u16>,
    operation: &Operation,
) -> Result<(), AllocError>
    ensures { OnOk result (out.new.items ≡ out.old.items ++ (with_lf (codes "  "
        ++ join_words (mnemonic (opcode_of operation.now) ∷ operand_words operation.now))
        ++ text_of_lines (lines_after operation.now))) }
{
    let name = Word::Ascii(mnemonic(opcode_of(operation)));
    put_operation(alloc, out, name, operation)?;
    put_after(alloc, out, operation)
}

/// Appends the lines of a label or an instruction.
#[tactic(auto, using(crate::proofs::Ended::label_line, crate::proofs::Ended::operation_lines))]
fn put_item(alloc: Global, out: &mut Vec<u16>, item: &CodeItem) -> Result<(), AllocError>
    ensures { OnOk result (out.new.items ≡ out.old.items ++ text_of_lines (item_lines item.now)) }
{
    match item {
        CodeItem::Label(name) => put_label(out, name.as_slice()),
        CodeItem::Operation(operation) => put_operation_lines(alloc, out, operation),
    }
}

/// Appends the lines of a method's code.
pub(crate) fn put_code(
    alloc: Global,
    out: &mut Vec<u16>,
    code: &[CodeItem],
) -> Result<(), AllocError>
    ensures { OnOk result
        (out.new.items ≡ out.old.items ++ flat_map (λ i. text_of_lines (item_lines i)) code.now) }
{
    for item in code {
        put_item(alloc, out, item)?;
    }
    Ok(())
}
