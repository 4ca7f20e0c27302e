//! The mode of a file that takes another's place.

ghost use Rattle.std.specs.Prelude.{◌≡◌};
ghost use Rattle.std.specs.Fs.{permissions_mode};
ghost use Rattle.output_file.specs.Modes.{kept_mode};

use std::fs::{Metadata, Permissions};
use std::os::unix::fs::{MetadataExt, PermissionsExt};

/// The bits of a mode that stay with the same owner.
const ALL_BITS: u32 = 0o7777;

/// The bits of a mode that stay with another owner.
const PERMISSION_BITS: u32 = 0o777;

/// Returns whether two files have one owner and one group.
fn has_same_owner(old: &Metadata, new: &Metadata) -> bool {
    old.uid() == new.uid() && old.gid() == new.gid()
}

/// Returns the permissions of a mode, for a file that takes the place of one with this mode.
fn kept(mode: u32, has_same_owner: bool) -> Permissions
    ensures { permissions_mode result ≡ kept_mode has_same_owner mode }
{
    let bits = if has_same_owner {
        ALL_BITS
    } else {
        PERMISSION_BITS
    };
    Permissions::from_mode(mode & bits)
}

/// Returns the permissions of an old file, for a new one that takes its place.
pub(crate) fn kept_permissions(old: &Metadata, new: &Metadata) -> Permissions {
    kept(old.mode(), has_same_owner(old, new))
}
