//! A file of the system as a disk.
ghost use Rattle.std.specs.Prelude.{◌≡◌, [], false, refl, None, Ok, IfOk};
ghost use Rattle.std.specs.Io.{ReadsAtMost};
ghost use Rattle.tm_ports.specs.Faults.{HasCause};

use crate::Disk;
use std::fs::{self, Files, OpenOptions};
use std::os::unix::fs::FileExt;
use std::{io, str};
use tm_base::Mem;
use tm_ports::Failed;

/// One file of the system. Each error of the system is a fault, and so is each call before the file was
/// opened. It tells nothing of its bytes.
#[derive(Drop)]
pub struct FileDisk<'a, R: Files<File = fs::File>> {
    files: &'a R,
    file: Option<fs::File>,
    faults: u64,
    room_size: u64,
    room_changes: u32,
}

impl<'a, R: Files<File = fs::File>> FileDisk<'a, R> {
    /// A disk over these files, none of which is open yet.
    pub fn new(files: &'a R) -> FileDisk<'a, R>
        ensures count { result.faults ≡ 0 }
    {
        FileDisk {
            files,
            file: None,
            faults: 0,
            room_size: 0,
            room_changes: 0,
        }
    }
}

// Counts an error.
fn counted<T>(faults: &mut u64, outcome: io::Result<T>) -> Result<T, Failed>
    ensures cause { HasCause faults.old faults.new result }
    ensures value { IfOk result (λ value. outcome ≡ Ok value) }
{
    match outcome {
        Ok(value) => Ok(value),
        Err(_) => {
            *faults = faults.saturating_add(1);
            Err(Failed)
        }
    }
}

// Opens the file, and makes it where it isn't there. What was made is synced, and so is its folder, so that the name
// is on the disk too.
fn open_file<R: Files<File = fs::File>>(files: &R, name: &[u8]) -> io::Result<fs::File> {
    let Ok(path) = str::from_utf8(name) else {
        return Err(io::ErrorKind::InvalidInput.into());
    };
    let mut options = OpenOptions::new();
    options.read(true).write(true);
    match options.open(files, path) {
        Ok(file) => Ok(file),
        Err(error) => {
            if error.kind() != io::ErrorKind::NotFound {
                return Err(error);
            }
            options.create_new(true);
            let file = options.open(files, path)?;
            file.sync_all()?;
            let folder = fs::open(files, folder_of(path))?;
            folder.sync_all()?;
            Ok(file)
        }
    }
}

// The folder of a path.
fn folder_of(path: &str) -> &str {
    match path.rfind('/') {
        Some(0) => "/",
        Some(at) => &path[..at],
        None => ".",
    }
}

fn closed() -> io::Error {
    io::ErrorKind::NotFound.into()
}

impl<'a, R: Files<File = fs::File>> Disk for FileDisk<'a, R> {
    ghost tells = { λ _. false };

    ghost seen = { λ _. [] };

    ghost may_leave = { λ _ c. c ≡ [] };

    ghost moment = { λ _. 0 };

    ghost left_since = { λ _ _ c. c ≡ [] };

    ghost count = { λ d. d.faults };

    ghost failing = { λ _. None };

    ghost room = { λ d. record { size = d.room_size; changes = d.room_changes } };

    ghost seen_may_stay = { λ _. refl };

    ghost counts_now = { λ _ _ c _ now. now };

    ghost only_now = { λ _ c left. left };

    fn faults(&self) -> u64 {
        self.faults
    }

    fn open(&mut self, name: &[u8]) -> Result<(), Failed> {
        let file = counted(&mut self.faults, open_file(self.files, name))?;
        self.file = Some(file);
        Ok(())
    }

    fn size(&mut self) -> Result<u64, Failed> {
        let outcome = match &self.file {
            Some(file) => measure(file),
            None => Err(closed()),
        };
        let size = counted(&mut self.faults, outcome)?;
        Ok(size)
    }

    fn read(&mut self, at: u64, into: &mut [u8]) -> Result<usize, Failed> {
        let outcome = match &self.file {
            Some(file) => read_all(file, at, into),
            None => Err(closed()),
        };
        let count = counted(&mut self.faults, outcome)?;
        Ok(count)
    }

    // Nothing here needs memory.
    fn reserve(&mut self, size: u64, changes: u32) -> Mem<()> {
        self.room_size = size;
        self.room_changes = changes;
        Ok(())
    }

    fn write_at(&mut self, at: u64, bytes: &[u8]) -> Result<(), Failed> {
        self.room_changes -= 1;
        let outcome = match &self.file {
            Some(file) => file.write_all_at(bytes, at),
            None => Err(closed()),
        };
        counted(&mut self.faults, outcome)?;
        Ok(())
    }

    fn cut(&mut self, size: u64) -> Result<(), Failed> {
        self.room_changes -= 1;
        let outcome = match &self.file {
            Some(file) => file.set_len(size),
            None => Err(closed()),
        };
        counted(&mut self.faults, outcome)?;
        Ok(())
    }

    fn sync(&mut self) -> Result<(), Failed> {
        self.room_changes -= 1;
        let outcome = match &self.file {
            Some(file) => file.sync_all(),
            None => Err(closed()),
        };
        counted(&mut self.faults, outcome)?;
        Ok(())
    }

    fn fail_at(&mut self, _k: u32) {}
}

fn measure(file: &fs::File) -> io::Result<u64> {
    Ok(file.metadata()?.len())
}

// Reads until there is no more room, or the file ends.
fn read_all(file: &fs::File, at: u64, into: &mut [u8]) -> io::Result<usize>
    ensures { ReadsAtMost result into.new }
{
    let mut done = 0;
    while done < into.len() {
        let count = file.read_at(&mut into[done..], at.saturating_add(done as u64))?;
        if count == 0 {
            return Ok(done);
        }
        done += count;
    }
    Ok(done)
}
