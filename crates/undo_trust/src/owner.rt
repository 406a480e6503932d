//! The owner, the group and the permissions of a file beside a quota file.

use std::fs::{File, Metadata, Permissions};
use std::os::unix::fs::{MetadataExt, PermissionsExt, fchown};

/// What the owner of a file may do, in its mode. Source: inode(7).
const OWNER: u32 = 0o700;

/// What its group may do.
const GROUP: u32 = 0o070;

/// What others may do.
const OTHERS: u32 = 0o007;

/// What everybody but the owner may do.
const ALL_BUT_OWNER: u32 = GROUP | OTHERS;

/// What anybody may do.
const ALL: u32 = OWNER | ALL_BUT_OWNER;

/// To write, of everybody but the owner.
const WRITING: u32 = 0o022;

/// To read and write it, of its owner.
const OWN: u32 = 0o600;

/// The permissions that a file gets which is to be no more open than one of this mode. Where it did not get the group
/// of that one, its own may do nothing, and others what both the group and others may; where it did not get the owner,
/// nobody may do more than the owner.
fn mode_no_more_open(mode: u32, has_owner: bool, has_group: bool) -> u32 {
    let owner = if has_owner { mode & OWNER } else { OWN };
    let mut group = mode & GROUP;
    let mut others = mode & OTHERS;
    if !has_group {
        others &= group >> 3;
        group = 0;
    }
    if !has_owner {
        group &= (mode & OWNER) >> 3;
        others &= (mode & OWNER) >> 6;
    }
    owner | group | others
}

/// Gives an open file the owner, the group and the permissions of another one, as far as the system lets us, and never
/// more. Source: fchown(2), fchmod(2).
pub fn give_owner(file: &File, of: &Metadata) {
    let has_group = fchown(file, None, Some(of.gid())).is_ok();
    let has_owner = fchown(file, Some(of.uid()), None).is_ok();
    let mode = mode_no_more_open(of.mode(), has_owner, has_group);
    let _ = file.set_permissions(Permissions::from_mode(mode));
}

/// Whether a file has the permissions that it would get as a new one beside another file, with the owner and the group
/// that it has.
fn has_given_mode(file: &Metadata, of: &Metadata) -> bool {
    let has_owner = file.uid() == of.uid();
    let has_group = file.gid() == of.gid();
    file.mode() & ALL == mode_no_more_open(of.mode(), has_owner, has_group)
}

/// Whether a file has the owner and the group of another one.
fn has_given_owner(file: &Metadata, of: &Metadata) -> bool {
    file.uid() == of.uid() && file.gid() == of.gid()
}

/// Whether a file is as one that was made beside another file, by an account that can give files away, or by another
/// one.
pub fn is_as_made(file: &Metadata, of: &Metadata, gives_away: bool) -> bool {
    has_given_mode(file, of) && (!gives_away || has_given_owner(file, of))
}

/// Gives a file that this program has made the owner, the group and the permissions of another one, where those have
/// changed since. Meanwhile only its owner may use it.
pub fn follow_owner(file: &File, now: &Metadata, of: &Metadata) {
    if is_as_made(now, of, true) {
        return;
    }
    let _ = file.set_permissions(Permissions::from_mode(OWN));
    give_owner(file, of);
}

/// Whether a file gives anybody but its owner more of these permissions than another one gives.
fn gives_more(file: &Metadata, of: &Metadata, permissions: u32) -> bool {
    let everyone = of.mode() & (of.mode() >> 3) & OTHERS;
    let given = if file.gid() == of.gid() {
        of.mode()
    } else {
        everyone | (everyone << 3)
    };
    file.mode() & permissions & !given != 0
}

/// Whether anybody but its owner may write a file who may not write the one that it stands beside.
pub fn is_written_by_more(file: &Metadata, of: &Metadata) -> bool {
    gives_more(file, of, WRITING)
}

/// Whether anybody but its owner may do more with a file than with the one that it stands beside.
pub fn is_more_open(file: &Metadata, of: &Metadata) -> bool {
    gives_more(file, of, ALL_BUT_OWNER)
}
