//! Finds the lines of a specification that match no method of a program's classes.

ghost use Rattle.std.specs.Prelude.{◌≡◌, ◌++◌, IfSome, None, OnOk, Some, true};
ghost use Rattle.std.specs.List.{list_any};
ghost use Rattle.std.specs.String.{string_bytes};
ghost use Rattle.atom_spec.specs.Lines.{line_text, pattern_text, word_text};
ghost use Rattle.jvms_program.specs.Program.{class_number, key_in};
ghost use Rattle.velodrome.specs.Specification.{is_of};
ghost use Rattle.velodrome.specs.declared.specification.Pattern.TheVariants as pattern_case;
ghost use Rattle.needs.specs.Unmatched.{FindsEach, AreFacts, NamesClass, matches_in, no_match_line, unmatched_line, unmatched_lines};

use atom_spec::{Pattern, SpecificationLine};
use built_in::is_built_in;
use classes::declared_number;
use descriptor::same_text;
use escapes::{put_member, put_name};
use jvms_program::number::ClassNumber;
use jvms_program::program::Class;
use program::Program;
use shared_data::shared::Text;
use std::alloc::AllocError;

/// The facts that hold for all classes of a program.
#[derive(Clone, Copy)]
pub(crate) struct Facts {
    /// True only if each class is the one that its name finds.
    pub finds_each: bool,
    /// Whether a class that isn't built in has a method.
    pub has_method: bool,
}

/// Decides whether the class of a number is the one that its name finds.
fn finds_itself(program: &Program, number: ClassNumber, class: &Class) -> bool
    ensures { result ≡ true → class_number program.now class.now.name ≡ Some number }
{
    match program.class_number(class.name.as_slice()) {
        Some(found) => found == number,
        None => false,
    }
}

/// Decides whether each class of a program is the one that its name finds.
fn finds_each(program: &Program) -> bool
    ensures { result ≡ true → FindsEach program.now }
{
    for (number, class) in program.classes().iter().enumerate() {
        if !finds_itself(program, number, class) {
            return false;
        }
    }
    true
}

/// Returns whether a pattern matches one of a class's methods. The number of methods that it looks at is logarithmic.
fn is_of_one(pattern: &Pattern, class: &Class) -> bool
    ensures { result ≡ list_any (λ m. is_of pattern.now (key_in class.now m)) class.now.methods }
{
    let name = class.name.as_slice();
    match pattern {
        Pattern::All => class.methods.len() > 0,
        Pattern::Class { class: named } => {
            same_text(name, named.as_slice()) && class.methods.len() > 0
        }
        Pattern::Named {
            class: named,
            name: method,
        } => same_text(name, named.as_slice()) && class.methods.has_name(method.as_slice()),
        Pattern::Exactly {
            class: named,
            name: method,
            descriptor,
        } => {
            same_text(name, named.as_slice())
                && declared_number(class, method.as_slice(), descriptor.as_slice()).is_some()
        }
    }
}

/// Returns whether a pattern matches a method of a class that isn't built in.
fn matches_in(pattern: &Pattern, class: &Class) -> bool
    ensures { result ≡ matches_in pattern.now class.now }
{
    !is_built_in(class.name.as_slice()) && is_of_one(pattern, class)
}

/// Returns whether a pattern matches a method of one of these classes.
fn is_matched_in(pattern: &Pattern, classes: &[Class]) -> bool
    ensures { result ≡ list_any (matches_in pattern.now) classes.now }
{
    classes.iter().any(|class| matches_in(pattern, class))
}

/// Returns the facts that hold for all classes of a program.
fn facts_of(program: &Program) -> Facts
    ensures { AreFacts program.now result }
{
    Facts {
        finds_each: finds_each(program),
        has_method: is_matched_in(&Pattern::All, program.classes()),
    }
}

/// Returns whether a pattern of the class of a name matches a method of a program in which each class is the one that
/// its name finds.
fn is_matched_by_name(program: &Program, pattern: &Pattern, name: &[u16]) -> bool
    requires each { FindsEach program.now }
    requires name { NamesClass pattern.now name.now }
    ensures { result ≡ list_any (matches_in pattern.now) program.now }
{
    match program.class_named(name) {
        Some(class) => matches_in(pattern, class),
        None => false,
    }
}

/// Returns the name of the class whose methods a pattern matches, if it isn't the pattern of all methods.
fn class_of(pattern: &Pattern) -> Option<&Text>
    ensures named { IfSome result (λ name. NamesClass pattern.now name.now) }
    ensures all { result ≡ None → pattern.now ≡ pattern_case.All }
{
    match pattern {
        Pattern::All => None,
        Pattern::Class { class } | Pattern::Named { class, .. } | Pattern::Exactly { class, .. } =>
            Some(class),
    }
}

/// Returns whether a pattern matches a method of a program's classes that aren't built in.
fn is_matched(program: &Program, facts: Facts, pattern: &Pattern) -> bool
    requires { AreFacts program.now facts }
    ensures { result ≡ list_any (matches_in pattern.now) program.now }
{
    match class_of(pattern) {
        None => facts.has_method,
        Some(name) if facts.finds_each => is_matched_by_name(program, pattern, name.as_slice()),
        Some(_) => is_matched_in(pattern, program.classes()),
    }
}

/// Returns the word of a line: `atomic` or `plain`.
fn word_of(is_atomic: bool) -> &'static str
    ensures { result.now ≡ word_text is_atomic }
{
    if is_atomic { "atomic" } else { "plain" }
}

/// Appends a pattern.
fn put_pattern(out: &mut String, pattern: &Pattern) -> Result<(), AllocError>
    ensures { OnOk result
        (string_bytes out.new ≡ string_bytes out.old ++ pattern_text pattern.now) }
{
    match pattern {
        Pattern::All => out.push_str("*"),
        Pattern::Class { class } => {
            put_name(out, class.as_slice())?;
            out.push_str(".*")
        }
        Pattern::Named { class, name } => {
            put_name(out, class.as_slice())?;
            out.push_str(".")?;
            put_name(out, name.as_slice())
        }
        Pattern::Exactly {
            class,
            name,
            descriptor,
        } => put_member(
            out,
            class.as_slice(),
            name.as_slice(),
            descriptor.as_slice(),
        ),
    }
}

/// Appends a line of a specification, without a line end.
fn put_line(out: &mut String, line: &SpecificationLine) -> Result<(), AllocError>
    ensures { OnOk result (string_bytes out.new ≡ string_bytes out.old ++ line_text line.now) }
{
    out.push_str(word_of(line.is_atomic))?;
    out.push_str(" ")?;
    put_pattern(out, &line.pattern)
}

/// Appends that a line matches no method.
fn put_no_match(out: &mut String, line: &SpecificationLine) -> Result<(), AllocError>
    ensures { OnOk result (string_bytes out.new ≡ string_bytes out.old ++ no_match_line line.now) }
{
    out.push_str("spec ")?;
    put_line(out, line)?;
    out.push_str(" matches no method\n")?;
    Ok(())
}

/// Appends that a line matches no method, if it does not.
fn put_unmatched_line(
    out: &mut String,
    program: &Program,
    facts: Facts,
    line: &SpecificationLine,
) -> Result<(), AllocError>
    requires { AreFacts program.now facts }
    ensures { OnOk result (string_bytes out.new ≡ string_bytes out.old
        ++ unmatched_line program.now line.now) }
{
    if is_matched(program, facts, &line.pattern) {
        return Ok(());
    }
    put_no_match(out, line)
}

/// Appends that lines match no method, for those that do not.
pub(crate) fn put_unmatched(
    out: &mut String,
    program: &Program,
    lines: &[SpecificationLine],
) -> Result<(), AllocError>
    ensures { OnOk result (string_bytes out.new ≡ string_bytes out.old
        ++ unmatched_lines program.now lines.now) }
{
    let facts = facts_of(program);
    for line in lines {
        put_unmatched_line(out, program, facts, line)?;
    }
    Ok(())
}
