//! The files of the system. To write a plain file, the program writes a part file next to it (`NAME.vplace-part`), which then replaces it.
//! So neither a full disk nor a kill damages the old file. If that is not possible, the file itself is written.

ghost use Rattle.std.specs.Prelude.{◌≡◌, None, IfOk};
ghost use Rattle.std.specs.Io.KnownBytes.{Appends};

use crate::files::{NamedFiles, ReadFault, WriteFault};
use std::alloc::Global;
use std::fs::{File, Metadata, OpenOptions, TryLockError};
use std::io::{Error, ErrorKind, Write};
use std::os::unix::fs::{FileTypeExt, MetadataExt, fchown};
use std::{fs, str};

// How many names are tried for a temporary file.
const MOST_BESIDE: u32 = 100;

// How often the program looks at a file while memory is short, before it gives up.
const MOST_LOOKS: u32 = 3;

// How many symbolic links are followed, as in Linux.
const MOST_LINKS: u32 = 40;

/// The files of the system.
#[derive(Drop)]
pub struct HostFiles<'a> {
    rt: &'a HostRuntime,
}

/// The place that was reserved for an out file.
#[derive(Drop)]
pub struct Outlet {
    // The requested name, which contracts refer to.
    name: Vec<u8>,
    way: Way,
}

// Where the bytes of an out file go.
#[derive(Drop)]
enum Way {
    // To a temporary file, under a lock, which then replaces the target.
    Beside(Beside),
    // To the file itself: a device, a pipe, an open file of a process, or a file next to which no temporary one can be made.
    InPlace(String),
}

// A temporary file that is to replace another. The lock, a second handle of the file, is held until the file is removed or renamed.
#[derive(Drop)]
struct Beside {
    file: File,
    lock: File,
    name: String,
    target: String,
}

impl<'a> HostFiles<'a> {
    /// The files that this runtime reaches.
    pub fn new(rt: &'a HostRuntime) -> Self {
        HostFiles { rt }
    }
}

impl NamedFiles for HostFiles<'_> {
    ghost held = { λ files. None };

    ghost shut = { λ files. None };

    type Outlet = Outlet;

    ghost name_of = { λ outlet. outlet.name.items };

    /// The library opens files only by names that are text. A file with another name is not read.
    fn read(&self, _alloc: Global, name: &[u8]) -> Result<Vec<u8>, ReadFault> {
        let Ok(name) = str::from_utf8(name) else {
            return Err(ReadFault::Unreadable);
        };
        match fs::read(self.rt, name) {
            Ok(bytes) => Ok(bytes),
            Err(error) => match error.kind() {
                ErrorKind::OutOfMemory => Err(ReadFault::NoMemory),
                _ => Err(ReadFault::Unreadable),
            },
        }
    }

    fn reserve(&self, alloc: Global, name: &[u8]) -> Result<Outlet, WriteFault> {
        match Vec::from_slice(alloc, name) {
            Ok(name) => {
                let way = self.way_to(alloc, name.as_slice())?;
                Ok(Outlet { name, way })
            }
            Err(_) => Err(WriteFault::NoMemory),
        }
    }

    fn put(&mut self, outlet: Outlet, bytes: &[u8]) -> Result<(), WriteFault> {
        let Outlet { way, .. } = outlet;
        match way {
            Way::Beside(beside) => self.replace(beside, bytes),
            Way::InPlace(target) => self.overwrite(target.as_str(), bytes),
        }
    }

    fn release(&self, outlet: Outlet) {
        let Outlet { way, .. } = outlet;
        if let Way::Beside(beside) = way {
            self.remove(&beside.lock, beside.name.as_str());
        }
    }
}

/// Writes all of the bytes, and returns the writer only if that succeeds. A write that a signal interrupts is retried.
fn written<W: Write + Drop>(mut out: W, bytes: &[u8]) -> Result<W, WriteFault>
    ensures whole { IfOk result (λ w. Appends (W.contents out) (W.contents w) bytes.now) }
{
    match out.write_all(bytes) {
        Ok(()) => Ok(out),
        Err(error) => Err(WriteFault::of(&error)),
    }
}

// Waits until the bytes of a file are on its disk. Pipes, most devices and some file systems cannot sync. Then the system returns
// `InvalidInput`, which is no fault.
fn synced(file: File) -> Result<(), WriteFault> {
    match file.sync_all() {
        Err(error) if error.kind() != ErrorKind::InvalidInput => Err(WriteFault::of(&error)),
        _ => Ok(()),
    }
}

// Whether the name is that of an open file of a process; /dev/stdout leads to such a name. Its writer may already have put bytes there.
fn is_open_file(name: &str) -> bool {
    name.starts_with("/dev/fd/") || name.starts_with("/proc/") && name.contains("/fd/")
}

// The folder of a name, with its slash; empty for a name in the working folder.
fn folder_of(name: &str) -> &str {
    match name.rfind('/') {
        Some(slash) => name.get(..slash + 1).unwrap_or(""),
        None => "",
    }
}

impl HostFiles<'_> {
    fn way_to(&self, alloc: Global, name: &[u8]) -> Result<Way, WriteFault> {
        let Ok(name) = str::from_utf8(name) else {
            return Err(WriteFault::Unwritable);
        };
        let (target, found) = self.end_of_links(alloc, name)?;
        let Some(found) = found else {
            return self.place_beside(alloc, target, None);
        };
        if found.is_file() && !is_open_file(target.as_str()) {
            self.stop_unless_writable(target.as_str())?;
            return self.place_beside(alloc, target, Some(found));
        }
        // A pipe is opened only when there are bytes for it: opening it waits for a reader.
        if !found.file_type().is_fifo() {
            self.stop_unless_writable(target.as_str())?;
        }
        Ok(Way::InPlace(target))
    }

    // Follows symbolic links to the name that they end at. Returns that name, and what is there, if anything. An open file of a process is
    // an end.
    fn end_of_links(
        &self,
        alloc: Global,
        name: &str,
    ) -> Result<(String, Option<Metadata>), WriteFault> {
        let mut name = text_of(alloc, name)?;
        // What the last link names is looked at, too.
        for _ in 0..=MOST_LINKS {
            let found = if is_open_file(name.as_str()) {
                fs::metadata(self.rt, name.as_str())
            } else {
                fs::symlink_metadata(self.rt, name.as_str())
            };
            match found {
                Ok(found) if found.is_symlink() => name = self.link_target(alloc, name.as_str())?,
                Ok(found) => return Ok((name, Some(found))),
                Err(error) if error.kind() == ErrorKind::NotFound && !name.is_empty() => {
                    return Ok((name, None));
                }
                Err(error) => return Err(WriteFault::of(&error)),
            }
        }
        Err(WriteFault::Unwritable)
    }

    fn link_target(&self, alloc: Global, name: &str) -> Result<String, WriteFault> {
        let to = fs::read_link(self.rt, name).map_err(|error| WriteFault::of(&error))?;
        let to = to.as_str();
        if to.starts_with('/') {
            return text_of(alloc, to);
        }
        let folder = folder_of(name);
        format!(in alloc; "{folder}{to}").map_err(|_| WriteFault::NoMemory)
    }

    fn stop_unless_writable(&self, target: &str) -> Result<(), WriteFault> {
        match OpenOptions::new().write(true).open(self.rt, target) {
            Ok(_) => Ok(()),
            Err(error) => Err(WriteFault::of(&error)),
        }
    }

    // Makes a temporary file next to the target. Before it has a byte, it gets the group and the mode of what is at the target. If the
    // folder takes no new file, or none with a name of that length, the target itself is written. If the target is not there yet, making it
    // is tried first.
    fn place_beside(
        &self,
        alloc: Global,
        target: String,
        old: Option<Metadata>,
    ) -> Result<Way, WriteFault> {
        for number in 0..MOST_BESIDE {
            let name = beside_name(alloc, target.as_str(), number)?;
            match self.fresh(name.as_str()) {
                Ok(Some(file)) => return self.with_lock(file, name, target, old),
                Ok(None) => {}
                Err(error) if must_be_in_place(error.kind(), old.is_some()) => {
                    if old.is_none() {
                        self.try_new(target.as_str())?;
                    }
                    return Ok(Way::InPlace(target));
                }
                Err(error) => return Err(WriteFault::of(&error)),
            }
        }
        Err(WriteFault::Unwritable)
    }

    // Tests whether a file can be made at a name where there is none: makes it, and removes it again. So a run that could not write it ends
    // before its first move.
    fn try_new(&self, name: &str) -> Result<(), WriteFault> {
        match self.create(name) {
            Ok(_) => {
                let _ = fs::remove_file(self.rt, name);
                Ok(())
            }
            Err(error) if error.kind() == ErrorKind::AlreadyExists => Ok(()),
            Err(error) => Err(WriteFault::of(&error)),
        }
    }

    // Takes the second handle of the temporary file before the first move: no descriptor may be left after the last one.
    fn with_lock(
        &self,
        file: File,
        name: String,
        target: String,
        old: Option<Metadata>,
    ) -> Result<Way, WriteFault> {
        let lock = match file.try_clone() {
            Ok(lock) => lock,
            Err(error) => {
                self.remove(&file, name.as_str());
                return Err(WriteFault::of(&error));
            }
        };
        if let Some(old) = old {
            // The group comes first, since a new group may take bits of the mode away. The group stays as it is if the user of this run is
            // not in the old one.
            let _ = fchown(&file, None, Some(old.gid()));
            match file.set_permissions(old.permissions()) {
                Err(error) if !has_mode_of(&file, &old) => {
                    self.remove(&file, name.as_str());
                    if is_no_mode_taken(error.kind()) {
                        return Ok(Way::InPlace(target));
                    }
                    return Err(WriteFault::of(&error));
                }
                _ => {}
            }
        }
        Ok(Way::Beside(Beside {
            file,
            lock,
            name,
            target,
        }))
    }

    // Removes a temporary file, if the name is still its own.
    fn remove(&self, lock: &File, name: &str) {
        if let Ok(true) = self.is_at(lock, name) {
            let _ = fs::remove_file(self.rt, name);
        }
    }

    // A new file of this name, under a lock. `None` if another run uses the file that is there, or if something else has the name. A file
    // that a killed run left is removed first, so that the new one belongs to the user of this run.
    fn fresh(&self, name: &str) -> Result<Option<File>, Error> {
        match self.create(name) {
            Err(error) if error.kind() == ErrorKind::AlreadyExists => {}
            made => return self.locked(made?, name),
        }
        if !self.remove_left(name) {
            return Ok(None);
        }
        match self.create(name) {
            Err(error) if error.kind() == ErrorKind::AlreadyExists => Ok(None),
            made => self.locked(made?, name),
        }
    }

    fn create(&self, name: &str) -> Result<File, Error> {
        OpenOptions::new()
            .write(true)
            .create_new(true)
            .open(self.rt, name)
    }

    // Another run may have taken a new file for one that a killed run left, and removed it.
    fn locked(&self, file: File, name: &str) -> Result<Option<File>, Error> {
        if is_in_use(&file) {
            return Ok(None);
        }
        match self.is_at(&file, name) {
            Ok(true) => Ok(Some(file)),
            Ok(false) => Ok(None),
            Err(_) => {
                // The file was made just now, and would be left for good.
                let _ = fs::remove_file(self.rt, name);
                Err(Error::from(ErrorKind::OutOfMemory))
            }
        }
    }

    // Removes a plain file that no run uses. Returns whether it did.
    fn remove_left(&self, name: &str) -> bool {
        match fs::symlink_metadata(self.rt, name) {
            Ok(found) if found.is_file() => {}
            _ => return false,
        }
        match File::open(self.rt, name) {
            Ok(file) => {
                !is_in_use(&file)
                    && matches!(self.is_at(&file, name), Ok(true))
                    && fs::remove_file(self.rt, name).is_ok()
            }
            Err(_) => false,
        }
    }

    // Whether the name is still that of the open file: the run that held the lock before may have renamed it. An error means that memory is
    // short.
    fn is_at(&self, file: &File, name: &str) -> Result<bool, WriteFault> {
        for _ in 0..MOST_LOOKS {
            if let (Ok(open), Ok(named)) = (
                there(file.metadata()),
                there(fs::symlink_metadata(self.rt, name)),
            ) {
                return Ok(match (open, named) {
                    (Some(open), Some(named)) => {
                        open.dev() == named.dev() && open.ino() == named.ino()
                    }
                    _ => false,
                });
            }
        }
        Err(WriteFault::NoMemory)
    }

    // Writes the temporary file, and replaces the target with it. The target itself is written if it cannot be replaced: it is a mount
    // point, or belongs to another user in a sticky folder, or somebody removed the temporary file. If memory is short when the temporary
    // file should replace the target, the temporary file stays: it is whole.
    fn replace(&self, beside: Beside, bytes: &[u8]) -> Result<(), WriteFault> {
        let Beside {
            file,
            lock,
            name,
            target,
        } = beside;
        if let Err(fault) = self.fill(file, bytes) {
            self.remove(&lock, name.as_str());
            return Err(fault);
        }
        let is_there = self.is_at(&lock, name.as_str())?;
        if is_there && self.try_rename(name.as_str(), target.as_str())? {
            self.sync_folder(target.as_str());
            return Ok(());
        }
        let is_replaceable = self.is_replaceable(target.as_str())?;
        self.remove(&lock, name.as_str());
        if !is_replaceable {
            return Err(WriteFault::Unwritable);
        }
        self.overwrite(target.as_str(), bytes)
    }

    // Gives a temporary file the name of its target, if it may replace what is there. Returns whether it did. An error means that memory is
    // short.
    fn try_rename(&self, name: &str, target: &str) -> Result<bool, WriteFault> {
        if !self.is_replaceable(target)? {
            return Ok(false);
        }
        for _ in 0..MOST_LOOKS {
            match fs::rename(self.rt, name, target) {
                Ok(()) => return Ok(true),
                Err(error) if error.kind() == ErrorKind::OutOfMemory => {}
                Err(_) => return Ok(false),
            }
        }
        Err(WriteFault::NoMemory)
    }

    fn fill(&self, file: File, bytes: &[u8]) -> Result<(), WriteFault> {
        synced(written(file, bytes)?)
    }

    // Whether the name is that of a plain file or of none: this may have changed during a long run. An error means that memory is short.
    fn is_replaceable(&self, target: &str) -> Result<bool, WriteFault> {
        for _ in 0..MOST_LOOKS {
            match fs::symlink_metadata(self.rt, target) {
                Ok(found) => return Ok(found.is_file()),
                Err(error) if error.kind() == ErrorKind::OutOfMemory => {}
                Err(error) => return Ok(error.kind() == ErrorKind::NotFound),
            }
        }
        Err(WriteFault::NoMemory)
    }

    // Faults are ignored: the file is whole by now, and a system that cannot sync a folder stores the name in its own time.
    fn sync_folder(&self, target: &str) {
        let folder = folder_of(target);
        let folder = if folder.is_empty() { "." } else { folder };
        if let Ok(folder) = File::open(self.rt, folder) {
            let _ = folder.sync_all();
        }
    }

    fn overwrite(&self, target: &str, bytes: &[u8]) -> Result<(), WriteFault> {
        let is_shared = is_open_file(target);
        let file = OpenOptions::new()
            .write(true)
            .create(true)
            .append(is_shared)
            .truncate(!is_shared)
            .open(self.rt, target)
            .map_err(|error| WriteFault::of(&error))?;
        synced(written(file, bytes)?)
    }
}

// Whether the target itself is written when no temporary file can be made: if the target exists and its folder is closed, or if the
// temporary name would be too long.
fn must_be_in_place(kind: ErrorKind, is_there: bool) -> bool {
    match kind {
        ErrorKind::InvalidFilename => true,
        ErrorKind::PermissionDenied | ErrorKind::ReadOnlyFilesystem => is_there,
        _ => false,
    }
}

// Whether a file system refuses modes, as some on a network do. Then the target itself is written, so that its mode stays.
fn is_no_mode_taken(kind: ErrorKind) -> bool {
    matches!(kind, ErrorKind::PermissionDenied | ErrorKind::Unsupported)
}

// Whether a file has the mode of another.
fn has_mode_of(file: &File, other: &Metadata) -> bool {
    match file.metadata() {
        Ok(found) => found.mode() == other.mode(),
        Err(_) => false,
    }
}

// What is there, if the system reports it. An error means that memory is short.
fn there(found: Result<Metadata, Error>) -> Result<Option<Metadata>, WriteFault> {
    match found {
        Ok(found) => Ok(Some(found)),
        Err(error) if error.kind() == ErrorKind::OutOfMemory => Err(WriteFault::NoMemory),
        Err(_) => Ok(None),
    }
}

// Whether another run holds the lock of a file. If none does, this run takes it. On a file system without locks, none are used.
fn is_in_use(file: &File) -> bool {
    matches!(file.try_lock(), Err(TryLockError::WouldBlock))
}

fn text_of(alloc: Global, text: &str) -> Result<String, WriteFault> {
    String::from_str(alloc, text).map_err(|_| WriteFault::NoMemory)
}

// The name of the temporary file, and of those that are tried while other runs use it.
fn beside_name(alloc: Global, target: &str, number: u32) -> Result<String, WriteFault> {
    let name = match number {
        0 => format!(in alloc; "{target}.vplace-part"),
        _ => format!(in alloc; "{target}.vplace-part{number}"),
    };
    name.map_err(|_| WriteFault::NoMemory)
}
