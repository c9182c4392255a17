//! Files in a folder of the system, each named by its number in decimal.
//!
//! One file stays open between calls, since a log is written and synced again and again. What a system makes of a name is on
//! the disk only once the folder is synced; so a sync of a file syncs the folder too, unless no file was made or removed since
//! the folder was synced last. A folder belongs to one program at a time: who opens it holds the lock of the file `lock`.
use std::alloc::Global;
use std::fs::{self, File, OpenOptions};
use std::io::{self, ErrorKind};
use std::os::unix::fs::FileExt;
use std::rt::Files;

/// A folder that this program has locked.
#[derive(Drop)]
pub(crate) struct Folder<R> {
    files: R,
    alloc: Global,
    path: String,
    directory: File,
    lock: File,
    kept: Option<Kept>,
    is_synced: bool,
}

/// The file that stays open, with its length, which no other program changes.
#[derive(Drop)]
struct Kept {
    number: u32,
    len: u64,
    file: File,
}

impl<R: Files<File = File> + Drop> Folder<R> {
    /// Opens a folder that is there, and takes its lock.
    pub(crate) fn open(files: R, alloc: Global, path: &str) -> io::Result<Folder<R>> {
        let lock_path = format!(in alloc; "{path}/lock")?;
        let lock = OpenOptions::new()
            .read(true)
            .write(true)
            .create(true)
            .open(&files, lock_path.as_str())?;
        lock.try_lock()?;
        let directory = File::open(&files, path)?;
        Ok(Folder {
            files,
            alloc,
            path: String::from_str(alloc, path)?,
            directory,
            lock,
            kept: None,
            is_synced: false,
        })
    }

    /// The length of a file. None where it isn't there.
    pub(crate) fn len(&mut self, number: u32) -> io::Result<Option<u64>> {
        match self.take(number) {
            Ok(kept) => {
                let len = kept.len;
                self.kept = Some(kept);
                Ok(Some(len))
            }
            Err(error) if error.kind() == ErrorKind::NotFound => Ok(None),
            Err(error) => Err(error),
        }
    }

    /// Reads a range of a file. One that doesn't lie inside it is an error.
    pub(crate) fn read(&mut self, number: u32, at: u64, into: &mut [u8]) -> io::Result<()> {
        let kept = self.take(number)?;
        if at > kept.len {
            return Err(io::Error::from(ErrorKind::UnexpectedEof));
        }
        kept.file.read_exact_at(into, at)?;
        self.kept = Some(kept);
        Ok(())
    }

    /// Writes into a file, which is made where it isn't there. A place past its end, and what is written in part, is an error.
    pub(crate) fn write(&mut self, number: u32, at: u64, bytes: &[u8]) -> io::Result<()> {
        let mut kept = match self.take(number) {
            Err(error) if at == 0 && error.kind() == ErrorKind::NotFound => self.make(number)?,
            found => found?,
        };
        if at > kept.len {
            return Err(io::Error::from(ErrorKind::InvalidInput));
        }
        if write_again(&kept.file, at, bytes)? < bytes.len() {
            return Err(io::Error::from(ErrorKind::WriteZero));
        }
        kept.len = kept.len.max(at.saturating_add(bytes.len() as u64));
        self.kept = Some(kept);
        Ok(())
    }

    /// Syncs a file, and the folder where names have changed.
    pub(crate) fn sync(&mut self, number: u32) -> io::Result<()> {
        let kept = self.take(number)?;
        kept.file.sync_data()?;
        self.kept = Some(kept);
        if !self.is_synced {
            self.directory.sync_all()?;
            self.is_synced = true;
        }
        Ok(())
    }

    /// Removes a file, if it is there.
    pub(crate) fn remove(&mut self, number: u32) -> io::Result<()> {
        self.kept = None;
        self.is_synced = false;
        match fs::remove_file(&self.files, self.path_of(number)?.as_str()) {
            Err(error) if error.kind() == ErrorKind::NotFound => Ok(()),
            removed => removed,
        }
    }

    /// A file that is there, opened unless it is the one that stays open.
    fn take(&mut self, number: u32) -> io::Result<Kept> {
        if let Some(kept) = self.kept.take()
            && kept.number == number
        {
            return Ok(kept);
        }
        let file = OpenOptions::new()
            .read(true)
            .write(true)
            .open(&self.files, self.path_of(number)?.as_str())?;
        let metadata = file.metadata()?;
        if !metadata.is_file() {
            return Err(io::Error::from(ErrorKind::Unsupported));
        }
        Ok(Kept {
            number,
            len: metadata.len(),
            file,
        })
    }

    fn make(&mut self, number: u32) -> io::Result<Kept> {
        self.is_synced = false;
        let file = OpenOptions::new()
            .read(true)
            .write(true)
            .create_new(true)
            .open(&self.files, self.path_of(number)?.as_str())?;
        Ok(Kept {
            number,
            len: 0,
            file,
        })
    }

    fn path_of(&self, number: u32) -> io::Result<String> {
        Ok(format!(in self.alloc; "{}/{}", self.path, number)?)
    }
}

/// Writes a front of bytes, and says how many. A write that a signal interrupts is made again: the system then wrote nothing.
fn write_again(file: &File, at: u64, bytes: &[u8]) -> io::Result<usize> {
    'tries: for _ in 0..u64::MAX {
        match file.write_at(bytes, at) {
            Ok(count) => return Ok(count),
            Err(error) if error.kind() == ErrorKind::Interrupted => {}
            Err(error) => return Err(error),
        }
    }
    Err(io::Error::from(ErrorKind::TimedOut))
}
