//! Finds directives by name.

ghost use Rattle.std.specs.Prelude.{◌≡◌};
ghost use Rattle.jasmin.specs.LineKinds.{directive_named};

use descriptor::is_text;
use jasmin::statement::Directive;

/// Returns the directive of this name, which begins with a dot.
pub(crate) fn directive_named(word: &[u16]) -> Option<Directive>
    ensures { result ≡ directive_named word.now }
{
    if is_text(".bytecode", word) {
        Some(Directive::Bytecode)
    } else if is_text(".source", word) {
        Some(Directive::Source)
    } else if is_text(".class", word) {
        Some(Directive::Class)
    } else if is_text(".interface", word) {
        Some(Directive::Interface)
    } else if is_text(".super", word) {
        Some(Directive::Super)
    } else if is_text(".implements", word) {
        Some(Directive::Implements)
    } else if is_text(".field", word) {
        Some(Directive::Field)
    } else if is_text(".method", word) {
        Some(Directive::Method)
    } else if is_text(".end", word) {
        Some(Directive::End)
    } else if is_text(".limit", word) {
        Some(Directive::Limit)
    } else if is_text(".catch", word) {
        Some(Directive::Catch)
    } else if is_text(".throws", word) {
        Some(Directive::Throws)
    } else if is_text(".line", word) {
        Some(Directive::Line)
    } else if is_text(".var", word) {
        Some(Directive::Var)
    } else {
        None
    }
}
