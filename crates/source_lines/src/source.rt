//! The sources of classes and methods: the name and the lines that class files have of them.

ghost use Rattle.std.specs.Prelude.{◌≡◌, ◌++◌, IfOk, OnOk, option_copied, slice_get};
ghost use Rattle.std.specs.Option.{option_and_then, option_map};
ghost use Rattle.std.specs.String.{string_bytes};
ghost use Rattle.source_lines.specs.SourceLines.{file_of, place_in, source_text};
ghost use Rattle.source_lines.specs.Lines.{file_name, lines_of};

use crate::files::SourceFiles;
use crate::lines::file_lines;
use crate::name::source_name;
use escapes::{put_name, put_number};
use jvms_file::class_file::ClassFile;
use jvms_program::number::ClassNumber;
use std::alloc::{AllocError, Global};
use std::marker::Model;

/// The source of a class: the name that its class file has. In contracts it is the class file, if there is one.
#[derive(Drop)]
pub struct ClassSource<'f> {
    file: Option<&'f ClassFile>,
    name: Option<&'f [u16]>,
}

impl<'f> Model for ClassSource<'f> {
    ghost use Rattle.std.specs.Prelude.{◌≡◌, Option};
    ghost use Rattle.std.specs.Option.{option_copied, option_map};
    ghost use Rattle.jvms_file.specs.declared.class_file.ClassFile.{ClassFile};
    ghost use Rattle.source_lines.specs.Lines.{file_name};

    ghost Value = { Option ClassFile };

    ghost view = { λ s. option_copied s.file };

    ghost invariant = { λ s. option_map (λ t. t.now) s.name ≡ file_name (option_copied s.file) };
}

/// The source of a method: the name that its class file has, and the lines of its instructions. In contracts it is the
/// class file, if there is one, and the method's number.
#[derive(Drop)]
pub struct MethodSource<'f> {
    file: Option<&'f ClassFile>,
    name: Option<&'f [u16]>,
    method: usize,
    lines: Vec<Option<u16>>,
}

impl<'f> Model for MethodSource<'f> {
    ghost use Rattle.std.specs.Prelude.{◌≡◌, ℕ, Option};
    ghost use Rattle.std.specs.Option.{option_copied, option_map};
    ghost use Rattle.jvms_file.specs.declared.class_file.ClassFile.{ClassFile};
    ghost use Rattle.source_lines.specs.Lines.{file_name, lines_of};

    ghost Value = { Option ClassFile × ℕ };

    ghost view = { λ s. (option_copied s.file, s.method) };

    ghost invariant = { λ s. (option_map (λ t. t.now) s.name ≡ file_name (option_copied s.file))
        × (s.lines.items ≡ lines_of (option_copied s.file) s.method) };
}

/// Returns the name of a class's source.
fn file_name(file: Option<&ClassFile>) -> Option<&[u16]>
    ensures { option_map (λ t. t.now) result ≡ file_name (option_copied file.entry) }
{
    let file = file?;
    source_name(file.pool.as_slice(), file.attributes.as_slice())
}

/// Returns the lines of a method's instructions.
fn lines_of(
    alloc: Global,
    file: Option<&ClassFile>,
    method: usize,
) -> Result<Vec<Option<u16>>, AllocError>
    ensures { IfOk result (λ lines. lines.items ≡ lines_of (option_copied file.entry) method) }
{
    match file {
        Some(file) => file_lines(alloc, file, method),
        None => Ok(Vec::new(alloc)),
    }
}

/// Appends a line of a source, if both its name and the line are known.
fn put_source(out: &mut String, name: Option<&[u16]>, line: Option<u16>) -> Result<(), AllocError>
    ensures { OnOk result (string_bytes out.new ≡ string_bytes out.old
        ++ source_text (option_map (λ t. t.now) name.entry) line) }
{
    let (Some(name), Some(line)) = (name, line) else {
        return Ok(());
    };
    out.push_str(" (")?;
    put_name(out, name)?;
    out.push_str(":")?;
    put_number(out, u64::from(line))?;
    out.push_str(")")
}

/// Returns the line of the instruction at a place.
fn line_at(lines: &[Option<u16>], place: usize) -> Option<u16>
    ensures { result ≡ option_and_then (λ line. line) (slice_get lines.now place) }
{
    match lines.get(place) {
        Some(line) => *line,
        None => None,
    }
}

impl<'f> SourceFiles<'f> {
    /// Returns the source of a class.
    pub fn source_of(&self, class: ClassNumber) -> ClassSource<'f>
        ensures { result ≡ file_of self.now.first self.now.files.now class }
    {
        let file = self.file_of(class);
        ClassSource {
            file,
            name: file_name(file),
        }
    }
}

impl<'f> ClassSource<'f> {
    /// Returns the source of a method of the class.
    pub fn method(&self, alloc: Global, method: usize) -> Result<MethodSource<'f>, AllocError>
        ensures { IfOk result (λ source. source ≡ (self.now, method)) }
    {
        Ok(MethodSource {
            file: self.file,
            name: self.name,
            method,
            lines: lines_of(alloc, self.file, method)?,
        })
    }
}

impl<'f> MethodSource<'f> {
    /// Appends the source place of an instruction: ` (F.java:12)`. Appends nothing if the class file doesn't have it.
    #[tactic(auto, using(crate::proofs::SourceLaws::place_by_lines))]
    pub fn put_place(&self, out: &mut String, place: usize) -> Result<(), AllocError>
        ensures { OnOk result (string_bytes out.new ≡ string_bytes out.old
            ++ place_in self.now.0 self.now.1 place) }
    {
        put_source(out, self.name, line_at(self.lines.as_slice(), place))
    }
}
