//! Stores texts in the system's files: each text is written to a new file beside its place, and renamed into the place once all
//! texts are written. `real` calls `store_together`.
ghost use Rattle.std.specs.Prelude.{◌≡◌, ◌<◌, ◌≤◌, [], length, IfErr, IfOk};

use crate::folder::{NewFile, StoreErr, Unstored};
use crate::sink::Failed;
use crate::writing::write_all;
use std::alloc::{AllocError as NoMemory, Global};
use std::fs::{Files, Metadata, OpenFile};
use std::path::{Path, PathBuf};
use std::{fs, io};

// The number of names tried for a new file beside a place.
const MOST_TEMP_NAMES: u32 = 1_000;

// The path of a new file beside its place; `None` if the place itself was written.
type TempFile = Option<PathBuf<Global>>;

/// Stores these texts. Until every text is written, no plain file or free place is touched. After that, each text is renamed into
/// its place in one step.
///
/// A place that is free or holds a plain file gets a new file. The new file is synced to the disk first, if the file system can
/// sync files. A device, a pipe or a link is written directly, and not synced.
///
/// # Errors
///
/// Fails with the first text that could not be stored, and the reason. The plain files and free places of the texts after it are
/// then untouched.
pub(crate) fn store_together<R: Files>(
    files: &R,
    alloc: Global,
    texts: &[NewFile<'_>],
) -> Result<(), Unstored>
    ensures { IfErr result (λ e. e.at < length texts.now) }
{
    let mut beside = Vec::new(alloc);
    if let Err(why) = write_each(files, alloc, texts, &mut beside) {
        remove_temps(files, &beside);
        return Err(why);
    }
    rename_each(files, texts, &beside)
}

// Writes each text, up to the first that cannot be written.
fn write_each<R: Files>(
    files: &R,
    alloc: Global,
    texts: &[NewFile<'_>],
    beside: &mut Vec<TempFile>,
) -> Result<(), Unstored>
    requires { beside.old.items ≡ [] }
    ensures at { IfErr result (λ e. e.at < length texts.now) }
    ensures each { IfOk result (λ _. length beside.new.items ≡ length texts.now) }
{
    for (at, text) in texts.iter().enumerate() {
        if beside.push(None).is_err() {
            return Err(Unstored::new(at, StoreErr::NoMemory));
        }
        match write_one(files, alloc, text) {
            Ok(written) => beside[at] = written,
            Err(why) => return Err(Unstored::new(at, why)),
        }
    }
    Ok(())
}

// Writes a text: to a new file beside its place if the place is free or a plain file, and otherwise to the place itself. If the
// system does not say what is there, nothing is written.
fn write_one<R: Files>(files: &R, alloc: Global, text: &NewFile<'_>) -> Result<TempFile, StoreErr> {
    match fs::symlink_metadata(files, text.name) {
        Ok(old) if old.is_file() => write_temp(files, alloc, text, Some(old)),
        Ok(_) => {
            write_through(files, text)?;
            Ok(None)
        }
        Err(error) if error.kind() == io::ErrorKind::NotFound => {
            write_temp(files, alloc, text, None)
        }
        Err(_) => Err(StoreErr::Failed),
    }
}

// Writes a text to what is at its place: a device, a pipe, or the target of a link.
fn write_through<R: Files>(files: &R, text: &NewFile<'_>) -> Result<(), StoreErr> {
    let Ok(mut file) = fs::create(files, text.name) else {
        return Err(StoreErr::Failed);
    };
    match write_all(&mut file, text.bytes) {
        Ok(()) => Ok(()),
        Err(_) => Err(StoreErr::Failed),
    }
}

// Writes a text to a new file beside its place, with the permissions of the old file there. After an error the new file is removed.
fn write_temp<R: Files>(
    files: &R,
    alloc: Global,
    text: &NewFile<'_>,
    old: Option<Metadata>,
) -> Result<TempFile, StoreErr> {
    for number in 0..MOST_TEMP_NAMES {
        let path = temp_path(alloc, text.name, number)?;
        match fs::File::create_new(files, &path) {
            Ok(mut file) => {
                if fill(&mut file, text.bytes, old).is_err() {
                    let _ = fs::remove_file(files, &path);
                    return Err(StoreErr::Failed);
                }
                return Ok(Some(path));
            }
            Err(error) if error.kind() == io::ErrorKind::AlreadyExists => {}
            Err(_) => return Err(StoreErr::Failed),
        }
    }
    Err(StoreErr::Failed)
}

// Returns the path of this number beside a place.
fn temp_path(alloc: Global, place: &str, number: u32) -> Result<PathBuf<Global>, NoMemory> {
    let name = format!(in alloc; "repack-{number}.part")?;
    Path::new(place).with_file_name(alloc, &name)
}

// Gives a new file these bytes and the permissions of the old file, and syncs it.
fn fill<F: io::Write + OpenFile>(
    file: &mut F,
    bytes: &[u8],
    old: Option<Metadata>,
) -> Result<(), Failed> {
    if let Some(old) = old {
        // A file system without permissions has none to keep.
        let _ = file.set_permissions(old.permissions());
    }
    write_all(file, bytes)?;
    match file.sync_all() {
        Ok(()) => Ok(()),
        Err(error) => match error.kind() {
            // Some file systems cannot sync a file.
            io::ErrorKind::InvalidInput | io::ErrorKind::Unsupported => Ok(()),
            _ => Err(Failed),
        },
    }
}

// Renames the new files into their places, in order, and syncs their folders.
fn rename_each<R: Files>(
    files: &R,
    texts: &[NewFile<'_>],
    beside: &[TempFile],
) -> Result<(), Unstored>
    requires { length beside.now ≡ length texts.now }
    ensures { IfErr result (λ e. e.at < length texts.now) }
{
    for (at, path) in beside.iter().enumerate() {
        if let Some(path) = path {
            if fs::rename(files, path, texts[at].name).is_err() {
                remove_temps(files, &beside[at..]);
                return Err(Unstored::new(at, StoreErr::Failed));
            }
        }
    }
    for text in texts {
        sync_folder_of(files, text.name);
    }
    Ok(())
}

// Syncs the folder of a file. If the system cannot, a loss of power may bring the old file back.
fn sync_folder_of<R: Files>(files: &R, name: &str) {
    let folder = match Path::new(name).parent() {
        Some(parent) if !parent.as_str().is_empty() => parent,
        _ => Path::new("."),
    };
    if let Ok(folder) = fs::open(files, folder) {
        let _ = folder.sync_all();
    }
}

// Removes the new files beside their places.
fn remove_temps<R: Files>(files: &R, beside: &[TempFile]) {
    for path in beside {
        if let Some(path) = path {
            let _ = fs::remove_file(files, path);
        }
    }
}
