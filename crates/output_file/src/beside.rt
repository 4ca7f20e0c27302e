//! Makes a fresh file beside another, of a name that can't be guessed.

ghost use Rattle.std.specs.Prelude.{◌≡◌, true, IfOk};
ghost use Rattle.std.specs.Fs.{asks_write, asks_create_new};
ghost use Rattle.std.specs.Path.{path_buf_bytes};
ghost use Rattle.output_file.specs.Names.{path_beside};

use crate::fault::OutputFault;
use std::alloc::{AllocError, Global};
use std::fs::OpenOptions;
use std::io::{self, ErrorKind};
use std::os::unix::fs::OpenOptionsExt;
use std::path::{Path, PathBuf};
use std::random::RandomSource;
use std::rt;

/// The maximum number of names that are tried.
const MOST_NAMES: u32 = 16;

/// The mode of a new file, of which the system takes away what the user doesn't want.
const NEW_MODE: u32 = 0o666;

/// The mode of a file that will get that of another: no one else may read it before.
const PRIVATE_MODE: u32 = 0o600;

/// A fresh file, which is open, and its path.
#[derive(Drop)]
pub(crate) struct Beside<F> {
    pub(crate) path: PathBuf,
    pub(crate) file: F,
}

/// Returns a random number of the system.
fn random_number<R: RandomSource>(rt: &R) -> io::Result<u64> {
    let mut bytes = [0; 8];
    rt.fill_bytes(&mut bytes)?;
    Ok(u64::from_le_bytes(bytes))
}

/// Returns the path of the fresh file of a number, in the folder of a path.
fn path_beside(alloc: Global, path: &str, number: u64) -> Result<PathBuf, AllocError>
    ensures { IfOk result (λ beside. path_buf_bytes beside ≡ path_beside path.now number) }
{
    let name = format!(in alloc; ".jvmx-{number:x}")?;
    Path::new(path).with_file_name(alloc, name.as_str())
}

/// Returns how a fresh file is opened. A name that is there, also that of a link, is an error.
fn exclusive(is_private: bool) -> OpenOptions
    ensures written { asks_write result ≡ true }
    ensures exclusive { asks_create_new result ≡ true }
{
    let mut options = OpenOptions::new();
    options.mode(if is_private { PRIVATE_MODE } else { NEW_MODE });
    options.write(true).create_new(true);
    options
}

/// Makes a fresh file in the folder of a path. Fails if each name that is tried is there.
pub(crate) fn make_beside<R: rt::Files + RandomSource + AllocGlobal>(
    rt: &R,
    path: &str,
    is_private: bool,
) -> Result<Beside<R::File>, OutputFault> {
    let options = exclusive(is_private);
    for _ in 0..MOST_NAMES {
        let number = random_number(rt)?;
        let path = path_beside(rt.alloc(), path, number)?;
        match options.open(rt, path.as_str()) {
            Ok(file) => return Ok(Beside { path, file }),
            Err(error) if error.kind() == ErrorKind::AlreadyExists => {}
            Err(error) => return Err(error.into()),
        }
    }
    Err(OutputFault::File)
}
