//! Replaces a file as a whole: writes a new file beside it, syncs it, and renames it over the old one.
ghost use Rattle.std.specs.Prelude.{◌≡◌, ◌≤◌, ◌++◌, ℕ, IfOk, IsCharBoundary, codes, decimal, length, take};
ghost use Rattle.std.specs.Path.{path_buf_bytes, path_bytes, path_with_file_name};

use crate::StoreFault;
use crate::whole::write_whole;
use std::alloc::{AllocError, Global};
use std::fs::{File, Metadata, OpenFile, OpenOptions, Permissions};
use std::io::ErrorKind;
use std::os::unix::fs::{MetadataExt, PermissionsExt, chown};
use std::path::{Path, PathBuf};
use std::rt::Files;
use std::{fs, io};

/// How many links are followed, one to the next, before a name is given up: as many as Linux follows.
const LINKS: u32 = 40;

/// How many names are tried for a new file.
const TRIES: u32 = 100;

/// How many bytes of a file's name its new file's name has at most. A name of Linux has at most 255.
const KEPT: usize = 240;

/// Who may read, write and run a file, without what else a mode says.
const ACCESS: u32 = 0o777;

/// Lets the name stand for these bytes. Where it stands for a file, or for nothing, it does so until it stands for all of
/// the bytes. What is no regular file takes the bytes straight, and so does a file by a link of a process that has it open.
pub fn store_file<R: Files + AllocGlobal>(
    rt: &R,
    name: &str,
    bytes: &[u8],
) -> Result<(), StoreFault> {
    match OpenOptions::new().write(true).open(rt, name) {
        Ok(mut file) => store_over(rt, name, &mut file, bytes),
        Err(fault) if fault.kind() == ErrorKind::NotFound => store_new(rt, name, bytes),
        Err(_) => Err(StoreFault::Failed),
    }
}

// Stores the bytes under a name that stands for nothing.
fn store_new<R: Files + AllocGlobal>(rt: &R, name: &str, bytes: &[u8]) -> Result<(), StoreFault> {
    match end_of_links(rt, name)? {
        Some(path) => replace(rt, path.as_path(), None, bytes),
        None => Err(StoreFault::Failed),
    }
}

// Stores the bytes under a name that stands for this file, which is opened to be written as it is.
fn store_over<R: Files + AllocGlobal>(
    rt: &R,
    name: &str,
    file: &mut R::File,
    bytes: &[u8],
) -> Result<(), StoreFault> {
    let Ok(about) = file.metadata() else {
        return Err(StoreFault::Failed);
    };
    if about.is_file()
        && let Some(path) = end_of_links(rt, name)?
    {
        return replace(rt, path.as_path(), Some(&about), bytes);
    }
    write_straight(file, &about, bytes).or(Err(StoreFault::Failed))
}

// The bytes in place of what the file holds. Only a regular file holds any.
fn write_straight<F: OpenFile + io::Write>(
    file: &mut F,
    about: &Metadata,
    bytes: &[u8],
) -> io::Result<()> {
    if about.is_file() {
        file.set_len(0)?;
    }
    write_whole(file, bytes)
}

// The name that links lead to, the first of which is this name; or none where one of them names an open file of a process, as
// `/dev/stdout` does.
fn end_of_links<R: Files + AllocGlobal>(rt: &R, name: &str) -> Result<Option<PathBuf>, StoreFault> {
    let Ok(mut path) = PathBuf::from_str(rt.alloc(), name) else {
        return Err(StoreFault::Memory);
    };
    for _ in 0..LINKS {
        match fs::symlink_metadata(rt, path.as_str()) {
            Ok(about) if !about.is_symlink() => return Ok(Some(path)),
            Ok(about) if is_of_process(rt, &about) => return Ok(None),
            Ok(_) => path = follow(rt, path.as_path())?,
            Err(fault) if fault.kind() == ErrorKind::NotFound => return Ok(Some(path)),
            Err(_) => return Err(StoreFault::Failed),
        }
    }
    Err(StoreFault::Failed)
}

// Whether this is about a link of the file system of processes.
fn is_of_process<R: Files>(rt: &R, link: &Metadata) -> bool {
    match fs::symlink_metadata(rt, "/proc/self") {
        Ok(own) => own.dev() == link.dev(),
        Err(_) => false,
    }
}

// What the link says, from the folder in which it stands.
fn follow<R: Files + AllocGlobal>(rt: &R, link: Path<'_>) -> Result<PathBuf, StoreFault> {
    match fs::read_link(rt, link) {
        Ok(text) => link
            .with_file_name(rt.alloc(), text.as_str())
            .or(Err(StoreFault::Memory)),
        Err(fault) if fault.kind() == ErrorKind::OutOfMemory => Err(StoreFault::Memory),
        Err(_) => Err(StoreFault::Failed),
    }
}

// Lets a new file with these bytes take the place of what stands under the path. It is made in the same folder, under the first
// of its names that is free.
fn replace<R: Files + AllocGlobal>(
    rt: &R,
    path: Path<'_>,
    old: Option<&Metadata>,
    bytes: &[u8],
) -> Result<(), StoreFault> {
    let Some(name) = path.file_name() else {
        return Err(StoreFault::Failed);
    };
    for number in 1..=TRIES {
        let Ok(new) = beside(rt.alloc(), path, cut(name), number) else {
            return Err(StoreFault::Memory);
        };
        match File::create_new(rt, new.as_path()) {
            Ok(file) => return replace_by(rt, path, file, new.as_path(), old, bytes),
            Err(fault) if fault.kind() == ErrorKind::AlreadyExists => {}
            Err(_) => return Err(StoreFault::Failed),
        }
    }
    Err(StoreFault::Failed)
}

// Puts the bytes into the new file, and lets it take the place of what stands under the path.
fn replace_by<R: Files>(
    rt: &R,
    path: Path<'_>,
    file: R::File,
    new: Path<'_>,
    old: Option<&Metadata>,
    bytes: &[u8],
) -> Result<(), StoreFault> {
    let moved = match fill(rt, file, new, old, bytes) {
        Ok(()) => fs::rename(rt, new, path),
        Err(fault) => Err(fault),
    };
    if moved.is_err() {
        let _removed = fs::remove_file(rt, new);
        return Err(StoreFault::Failed);
    }
    Ok(())
}

// The name, or as many of its first letters as a new file's name has room for.
fn cut(name: &str) -> &str
    ensures at_most { length result.now ≤ 240 }
    ensures starts { result.now ≡ take (length result.now) name.now }
    ensures longest { (end : ℕ) → end ≤ 240 → IsCharBoundary name.now end → end ≤ length result.now }
{
    &name[..name.floor_char_boundary(KEPT)]
}

// Puts the bytes into the new file, and has the disk take them.
fn fill<R: Files>(
    rt: &R,
    mut file: R::File,
    new: Path<'_>,
    old: Option<&Metadata>,
    bytes: &[u8],
) -> io::Result<()> {
    if let Some(old) = old {
        take_after(rt, &file, new, old)?;
    }
    write_whole(&mut file, bytes)?;
    file.sync_all()
}

// Gives the new file the mode of the old one, and its owner and group where the system lets it.
fn take_after<R: Files>(rt: &R, file: &R::File, new: Path<'_>, old: &Metadata) -> io::Result<()> {
    let about = file.metadata()?;
    if (about.uid(), about.gid()) != (old.uid(), old.gid()) {
        let _given = chown(rt, new, Some(old.uid()), Some(old.gid()));
    }
    let access = old.mode() & ACCESS;
    if about.mode() & ACCESS != access {
        file.set_permissions(Permissions::from_mode(access))?;
    }
    Ok(())
}

// The path of a new file in the folder of a path, by a name and a number.
fn beside(alloc: Global, path: Path<'_>, name: &str, number: u32) -> Result<PathBuf, AllocError>
    ensures { IfOk result (λ new. path_buf_bytes new
        ≡ path_with_file_name (path_bytes path.entry) (codes "." ++ name.now ++ (codes ".opgen-" ++ decimal number))) }
{
    let new = format!(in alloc; ".{name}.opgen-{number}")?;
    path.with_file_name(alloc, new.as_str())
}
