//! Finds what a name names: a file, the file that a link will have, or a device.

use crate::fault::OutputFault;
use std::fs::{self, Metadata};
use std::io::{self, ErrorKind};
use std::path::{Path, PathBuf};
use std::rt;

/// The maximum number of links that are followed, as Linux has it.
const MOST_LINKS: u32 = 40;

/// What a name names.
#[derive(Drop)]
pub(crate) enum Place {
    /// A file that is there.
    Old { path: PathBuf, metadata: Metadata },
    /// A file that isn't there yet.
    New { path: PathBuf },
    /// A device or a pipe, or what can't be written.
    Device,
}

/// Returns whether a path is that of a symbolic link. A path that isn't there is none.
fn is_link<R: rt::Files>(rt: &R, path: &str) -> io::Result<bool> {
    match fs::symlink_metadata(rt, path) {
        Ok(found) => Ok(found.is_symlink()),
        Err(error) if error.kind() == ErrorKind::NotFound => Ok(false),
        Err(error) => Err(error),
    }
}

/// Returns the path of a file that is there. If a link names it, this is the path without links.
fn path_of_old<R: rt::Files + AllocGlobal>(rt: &R, name: &str) -> io::Result<PathBuf> {
    if is_link(rt, name)? {
        fs::canonicalize(rt, name)
    } else {
        Ok(PathBuf::from_str(rt.alloc(), name)?)
    }
}

/// Returns the path that a link names.
fn linked<R: rt::Files + AllocGlobal>(rt: &R, link: &str) -> io::Result<PathBuf> {
    let named = fs::read_link(rt, link)?;
    Ok(Path::new(link).with_file_name(rt.alloc(), named.as_str())?)
}

/// Returns the path of a file that isn't there, which links may name.
fn path_of_new<R: rt::Files + AllocGlobal>(rt: &R, name: &str) -> Result<PathBuf, OutputFault> {
    let mut path = PathBuf::from_str(rt.alloc(), name)?;
    for _ in 0..MOST_LINKS {
        if !is_link(rt, path.as_str())? {
            return Ok(path);
        }
        path = linked(rt, path.as_str())?;
    }
    Err(OutputFault::File)
}

/// Returns what a name names.
pub(crate) fn place_of<R: rt::Files + AllocGlobal>(
    rt: &R,
    name: &str,
) -> Result<Place, OutputFault> {
    match fs::metadata(rt, name) {
        Ok(metadata) if metadata.is_file() => {
            let path = path_of_old(rt, name)?;
            Ok(Place::Old { path, metadata })
        }
        Ok(_) => Ok(Place::Device),
        Err(error) if error.kind() == ErrorKind::NotFound => {
            let path = path_of_new(rt, name)?;
            Ok(Place::New { path })
        }
        Err(error) => Err(error.into()),
    }
}
