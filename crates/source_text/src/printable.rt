//! Decides which trees have a text.

ghost use Rattle.std.specs.Prelude.{◌≡◌};
ghost use Rattle.std.specs.List.{list_all};
ghost use Rattle.listing_spec.specs.Printable.{is_word, is_loadable_word, is_printable_operation, is_printable_item, is_printable_caught, is_printable_field, is_printable_method, is_printable};

use crate::names::{is_before_descriptor, is_word};
use descriptor::is_text;
use jasmin::source::{
    CatchLine, Caught, CodeItem, FieldLine, LoadedConstant, MethodLines, Operation, Source,
};
use jasmin_operands::spells_number;
use shared_data::shared::Text;

/// Decides whether all names of a list can be spelled as words.
fn are_words(names: &[Text]) -> bool
    ensures { result ≡ list_all is_word names.now }
{
    names.iter().all(|name| is_word(name.as_slice()))
}

/// Decides whether a constant of `ldc` can be spelled. The name of a class must not spell a number.
fn is_loadable(constant: &LoadedConstant) -> bool
    ensures { result ≡ is_loadable_word constant.now }
{
    match constant {
        LoadedConstant::Class(name) => is_word(name.as_slice()) && !spells_number(name.as_slice()),
        LoadedConstant::Integer(_) | LoadedConstant::String(_) => true,
    }
}

/// Decides whether the names of an instruction can be spelled as words.
#[tactic(auto, unfolding(listing_spec::specs::Printable::is_printable_operation))]
fn is_printable_operation(operation: &Operation) -> bool
    ensures { result ≡ is_printable_operation operation.now }
{
    match operation {
        Operation::Constant(_, constant) => is_loadable(constant.get()),
        Operation::Field(_, field) => {
            let field = field.get();
            is_word(field.class.as_slice())
                && is_word(field.name.as_slice())
                && is_word(field.descriptor.as_slice())
        }
        Operation::Invoke(_, method) => {
            let method = method.get();
            is_before_descriptor(method.class.as_slice())
                && is_before_descriptor(method.name.as_slice())
                && is_word(method.descriptor.as_slice())
        }
        Operation::Class(_, name) | Operation::MultiNewArray(name, _) => is_word(name.as_slice()),
        _ => true,
    }
}

/// Decides whether the names of an item of code can be spelled as words. A label can always be.
fn is_printable_item(item: &CodeItem) -> bool
    ensures { result ≡ is_printable_item item.now }
{
    match item {
        CodeItem::Label(_) => true,
        CodeItem::Operation(operation) => is_printable_operation(operation),
    }
}

/// Decides whether all names of a method's code can be spelled as words.
fn is_printable_code(code: &[CodeItem]) -> bool
    ensures { result ≡ list_all is_printable_item code.now }
{
    code.iter().all(|item| is_printable_item(item))
}

/// Decides whether a caught class can be spelled. Its name must not be `all`.
fn is_printable_caught(caught: &Caught) -> bool
    ensures { result ≡ is_printable_caught caught.now }
{
    match caught {
        Caught::All => true,
        Caught::Class(name) => is_word(name.as_slice()) && !is_text("all", name.as_slice()),
    }
}

/// Decides whether all caught classes can be spelled.
fn are_printable_catches(catches: &[CatchLine]) -> bool
    ensures { result ≡ list_all (λ c. is_printable_caught c.caught) catches.now }
{
    catches.iter().all(|line| is_printable_caught(&line.caught))
}

/// Decides whether the name and the descriptor of a field can be spelled as words.
fn is_printable_field(field: &FieldLine) -> bool
    ensures { result ≡ is_printable_field field.now }
{
    is_word(field.name.as_slice()) && is_word(field.descriptor.as_slice())
}

/// Decides whether the names of all fields can be spelled as words.
fn are_printable_fields(fields: &[FieldLine]) -> bool
    ensures { result ≡ list_all is_printable_field fields.now }
{
    fields.iter().all(|field| is_printable_field(field))
}

/// Decides whether all names of a method can be spelled as words.
#[tactic(auto, unfolding(listing_spec::specs::Printable::is_printable_method))]
fn is_printable_method(method: &MethodLines) -> bool
    ensures { result ≡ is_printable_method method.now }
{
    is_before_descriptor(method.name.as_slice())
        && is_word(method.descriptor.as_slice())
        && are_words(method.throws.as_slice())
        && are_printable_catches(method.catches.as_slice())
        && is_printable_code(method.code.as_slice())
}

/// Decides whether the names of all methods can be spelled as words.
fn are_printable_methods(methods: &[MethodLines]) -> bool
    ensures { result ≡ list_all is_printable_method methods.now }
{
    methods.iter().all(|method| is_printable_method(method))
}

/// Decides whether all names of a tree can be spelled as words.
#[tactic(auto, unfolding(listing_spec::specs::Printable::is_printable))]
pub fn is_printable(source: &Source) -> bool
    ensures { result ≡ is_printable source.now }
{
    is_word(source.name.as_slice())
        && is_word(source.superclass.as_slice())
        && are_words(source.interfaces.as_slice())
        && are_printable_fields(source.fields.as_slice())
        && are_printable_methods(source.methods.as_slice())
}
