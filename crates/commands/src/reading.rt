//! Reads the files of a command.

use crate::files::Files;
use crate::refusal::Refusal;
use atom_spec::Spec;
use inputs::Input;
use std::alloc::Global;

/// Returns the bytes of a file.
fn read_file<'w, F: Files>(files: &mut F, name: &'w str) -> Result<Vec<u8>, Refusal<'w>> {
    files
        .read(name)
        .map_err(|fault| Refusal::of_file(name, fault))
}

/// Returns the text of a file in UTF-8.
pub(crate) fn read_text<'w, F: Files>(files: &mut F, name: &'w str) -> Result<String, Refusal<'w>> {
    match String::from_utf8(read_file(files, name)?) {
        Ok(text) => Ok(text),
        Err(_) => Err(Refusal::NotUtf8 { file: name }),
    }
}

/// Returns a source in Jasmin, whatever the name of its file.
pub(crate) fn read_source<'w, F: Files>(
    files: &mut F,
    name: &'w str,
) -> Result<Input, Refusal<'w>> {
    Ok(Input::Source(read_text(files, name)?))
}

/// Returns the input of a FILE: a source if its name ends in `.j`, else a class file.
pub(crate) fn read_input<'w, F: Files>(files: &mut F, name: &'w str) -> Result<Input, Refusal<'w>> {
    if name.ends_with(".j") {
        read_source(files, name)
    } else {
        Ok(Input::ClassFile(read_file(files, name)?))
    }
}

/// Returns the inputs of all FILEs, in order.
pub(crate) fn read_inputs<'w, F: Files>(
    alloc: Global,
    files: &mut F,
    names: &[&'w str],
) -> Result<Vec<Input>, Refusal<'w>> {
    let mut inputs = Vec::new(alloc);
    for name in names {
        inputs.push(read_input(files, *name)?)?;
    }
    Ok(inputs)
}

/// Returns the specification of a file.
pub(crate) fn read_spec<'w, F: Files>(
    alloc: Global,
    files: &mut F,
    name: &'w str,
) -> Result<Spec, Refusal<'w>> {
    let text = read_text(files, name)?;
    match Spec::read(alloc, text.as_str()) {
        Ok(spec) => Ok(spec),
        Err(fault) => Err(Refusal::Spec { file: name, fault }),
    }
}
