//! Writes a file as a whole.

ghost use Rattle.std.specs.Prelude.{◌≡◌, ◌<◌, true, Err, length};
ghost use Rattle.std.specs.Fs.{new_options, with_write};

use crate::beside::{Beside, make_beside};
use crate::fault::OutputFault;
use crate::limit::most_bytes;
use crate::mode::kept_permissions;
use crate::place::{Place, place_of};
use std::fs::{self, Metadata, OpenFile, OpenOptions};
use std::io::{self, Write};
use std::random::RandomSource;
use std::rt;

/// Writes the bytes of a fresh file, and gives it the mode of the old one. Writing would take away bits of the mode, so
/// it comes last. Closes the file.
fn fill<F: Write + OpenFile + Drop>(
    mut file: F,
    old: Option<&Metadata>,
    bytes: &[u8],
) -> io::Result<()> {
    file.write_all(bytes)?;
    if let Some(old) = old {
        let new = file.metadata()?;
        file.set_permissions(kept_permissions(old, &new))?;
    }
    Ok(())
}

/// Replaces a file as a whole, or makes a new one. Refuses more than `most` bytes before it makes a file. If anything
/// fails, nothing that was there has changed, and the fresh file is removed.
fn replace<R: rt::Files + RandomSource + AllocGlobal>(
    rt: &R,
    path: &str,
    old: Option<&Metadata>,
    bytes: &[u8],
    most: u64,
) -> Result<(), OutputFault>
    ensures { most < length bytes.now → result ≡ Err OutputFault.File }
{
    if bytes.len() as u64 > most {
        return Err(OutputFault::File);
    }
    let Beside { path: beside, file } = make_beside(rt, path, old.is_some())?;
    let placed = match fill(file, old, bytes) {
        Ok(()) => fs::rename(rt, beside.as_str(), path),
        Err(error) => Err(error),
    };
    match placed {
        Ok(()) => Ok(()),
        Err(error) => {
            // The fresh file is of no use. If it can't be removed, that changes no answer.
            let _removed = fs::remove_file(rt, beside.as_str());
            Err(error.into())
        }
    }
}

/// Returns how a device is opened. No file is made, and none is cut.
fn existing() -> OpenOptions
    ensures { result ≡ with_write new_options true }
{
    let mut options = OpenOptions::new();
    options.write(true);
    options
}

/// Writes bytes to a device or a pipe that is there.
fn write_device<R: rt::Files>(rt: &R, name: &str, bytes: &[u8]) -> io::Result<()> {
    let mut device = existing().open(rt, name)?;
    device.write_all(bytes)
}

/// Writes the bytes of a file. A file that is there is replaced as a whole, keeps its mode, and is unchanged if that
/// fails. A symbolic link stays, and the file that it names is replaced. A device or a pipe gets the bytes as it is.
pub fn write_output<R: rt::Files + RandomSource + AllocGlobal>(
    rt: &R,
    name: &str,
    bytes: &[u8],
) -> Result<(), OutputFault> {
    let most = most_bytes(rt);
    match place_of(rt, name)? {
        Place::Old { path, metadata } => replace(rt, path.as_str(), Some(&metadata), bytes, most),
        Place::New { path } => replace(rt, path.as_str(), None, bytes, most),
        Place::Device => Ok(write_device(rt, name, bytes)?),
    }
}
