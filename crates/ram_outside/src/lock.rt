//! The lock of a file that is written to, so that no two drives write to one image. What the system does is trusted.
use std::fs::File;
use std::io;

/// A file that can be locked.
pub trait LockFile {
    /// Locks the file for whoever opened it, until it is closed. It does not wait.
    ///
    /// # Answers
    ///
    /// - `Ok`: it is locked. Then: what the system did is not known. (none)
    /// - `Err`: who opened it elsewhere has locked it, or the system locks no such file. (none)
    fn lock_alone(&self) -> io::Result<()>;
}

impl LockFile for File {
    fn lock_alone(&self) -> io::Result<()> {
        Ok(self.try_lock()?)
    }
}
