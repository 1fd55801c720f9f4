//! Disks of one file each, as a journal sees them.
//!
//! A [`Disk`] tells what a read gives, what a crash now may leave, and what a crash at any moment since may
//! have left. [`MemoryDisk`] is a file in memory, which can be made to fail and to crash; [`Fuse`] stops a
//! disk after so many calls; [`FileDisk`] is a file of the system, which tells nothing of its bytes.
#![tactic(auto)]

mod disk;
mod file_disk;
mod fuse;
mod history;
mod memory_disk;
mod stored;

pub use disk::Disk;
pub use file_disk::FileDisk;
pub use fuse::Fuse;
pub use memory_disk::MemoryDisk;
