//! Members with the class that declares them.

use shared_data::shared::Text;

/// A field with the class that declares it.
#[derive(Debug, PartialEq, Eq, Drop)]
pub struct FieldKey {
    pub class: Text,
    pub name: Text,
    pub descriptor: Text,
}

/// A method with the class that declares it.
#[derive(Debug, PartialEq, Eq, Drop)]
pub struct MethodKey {
    pub class: Text,
    pub name: Text,
    pub descriptor: Text,
}
