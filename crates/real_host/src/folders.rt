//! The folder of an index. One that isn't there is made, so that a first run finds its indexes without documents.
use crate::host_disk::Call;
use chunk_store::DirDisk;
use srch_base::OpenFault;
use std::alloc::Global;
use std::fs::{self, File, OpenOptions, TryLockError};
use std::io::{self, ErrorKind};
use std::os::unix::fs::FileExt;
use std::rt::Files;

/// Why a folder is closed whose lock somebody holds.
const IN_USE: &str = "another index or program has it open";

/// The disk over a folder, which is made where it isn't there.
pub(crate) fn open_folder(
    files: HostRuntime,
    alloc: Global,
    path: &str,
) -> io::Result<DirDisk<HostRuntime>> {
    let unmade = make_folder(&files, path)?;
    match DirDisk::open(files, alloc, path) {
        Ok(disk) => Ok(disk),
        Err(OpenFault::NoMemory) => Err(io::Error::from(ErrorKind::OutOfMemory)),
        Err(OpenFault::Failed) => Err(why_closed(&files, alloc, path, unmade)),
    }
}

/// Makes a folder where none is there: one level, in a folder that is. The folder around it is synced, so that a crash leaves the new
/// one; where that can't be done it is removed again. Gives why none was made, which may be that it is there.
fn make_folder<R: Files<File = File>>(files: &R, path: &str) -> io::Result<Option<io::Error>> {
    if let Err(error) = fs::create_dir(files, path) {
        return Ok(Some(error));
    }
    match sync_folder(files, parent_of(path)) {
        Ok(()) => Ok(None),
        Err(error) => {
            fs::remove_dir(files, path)?;
            Err(error)
        }
    }
}

/// Syncs the names in a folder.
fn sync_folder<R: Files<File = File>>(files: &R, path: &str) -> io::Result<()> {
    File::open(files, path)?.sync_all()
}

/// The folder around another one.
fn parent_of(path: &str) -> &str {
    match path.trim_end_matches('/').rsplit_once('/') {
        Some(("", _)) => "/",
        Some((parent, _)) => parent,
        None => ".",
    }
}

/// Why no disk is open over a folder: why it wasn't made, or else what another try of its lock says.
fn why_closed<R: Files<File = File>>(
    files: &R,
    alloc: Global,
    path: &str,
    unmade: Option<io::Error>,
) -> io::Error {
    match unmade {
        Some(error) if error.kind() != ErrorKind::AlreadyExists => error,
        _ => match lock_for_a_moment(files, alloc, path) {
            Ok(()) => io::Error::other("it can be opened now"),
            Err(error) => error,
        },
    }
}

/// Takes the lock of a folder, as a disk over it does, and lets it go again.
fn lock_for_a_moment<R: Files<File = File>>(
    files: &R,
    alloc: Global,
    path: &str,
) -> io::Result<()> {
    let lock_path = format!(in alloc; "{path}/lock")?;
    let lock = OpenOptions::new()
        .read(true)
        .write(true)
        .create(true)
        .open(files, lock_path.as_str())?;
    match lock.try_lock() {
        Ok(()) => Ok(()),
        Err(TryLockError::WouldBlock) => Err(io::Error::other(IN_USE)),
        Err(TryLockError::Error(error)) => Err(error),
    }
}

/// Why a call on a file of a folder failed, as a try of its like tells: the file is opened, or a byte is put into the file `lock`, which
/// has none and whose lock this program holds. None where that goes well, or there is no such file, which is no failure.
pub(crate) fn why_failed<R: Files<File = File>>(
    files: &R,
    alloc: Global,
    path: &str,
    call: Call,
) -> Option<io::Error> {
    match call {
        Call::Read(file) => match look_at(files, alloc, path, file) {
            Err(error) if error.kind() != ErrorKind::NotFound => Some(error),
            Ok(()) | Err(_) => None,
        },
        Call::Write(_) => put_a_byte(files, alloc, path).err(),
        Call::Remove(_) => None,
    }
}

/// Opens a file as a disk over its folder does.
fn look_at<R: Files<File = File>>(
    files: &R,
    alloc: Global,
    path: &str,
    file: u32,
) -> io::Result<()> {
    let path = format!(in alloc; "{path}/{file}")?;
    let file = OpenOptions::new()
        .read(true)
        .write(true)
        .open(files, path.as_str())?;
    if file.metadata()?.is_file() {
        Ok(())
    } else {
        Err(io::Error::other("it isn't a file"))
    }
}

/// Puts a byte into the file `lock`, and takes it out again.
fn put_a_byte<R: Files<File = File>>(files: &R, alloc: Global, path: &str) -> io::Result<()> {
    let path = format!(in alloc; "{path}/lock")?;
    let lock = OpenOptions::new().write(true).open(files, path.as_str())?;
    let written = lock.write_at(&[0], 0);
    let synced = lock.sync_data();
    lock.set_len(0)?;
    written?;
    synced
}
