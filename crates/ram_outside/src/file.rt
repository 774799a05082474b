//! Disc images that are files. No bytes of them are known; what the system does is trusted.
ghost use Rattle.std.specs.Prelude.{◌≡◌, ℕ, ◌<◌, ◌↔◌, false, IsTrue, None, if◌then◌else◌};
ghost use Rattle.model_counts.specs.Counts.{counted};
ghost use Rattle.ram_outside.specs.Image.{LenRule, ReadAtRule, WriteAtRule, SetLenRule, SyncRule, FailsAgain};
ghost use Rattle.ram_outside.specs.declared.image.Length.TheVariants as lengths;
ghost use Rattle.ram_outside.specs.declared.image.Moved.TheVariants as moves;
ghost use Rattle.ram_outside.specs.Opener.{OpenRule, CloseRule, opener_view};
ghost use Rattle.ram_outside.specs.Adapters.{count_after_len, count_after_move, count_after_open};
ghost use Rattle.ram_outside.specs.declared.opener.Access.TheVariants.{ReadWrite, ReadOnly};

use crate::errors::count_error;
use crate::image::{Image, Length, Moved};
use crate::lock::LockFile;
use crate::opener::{Access, Opened, Opener};
use std::fs::{OpenFile, OpenOptions};
use std::io;
use std::io::{Seek, SeekFrom};
use std::marker::Model;
use std::os::unix::fs::FileExt;
use std::rt::Files;

/// The bytes of an open file, seen as its count of errors.
#[derive(Drop)]
pub struct FileImage<F: FileExt + Seek + OpenFile + Drop> {
    file: F,
    faults: u64,
}

impl<F: FileExt + Seek + OpenFile + Drop> Model for FileImage<F> {
    ghost use Rattle.std.specs.Prelude.{ℕ};

    ghost Value = { ℕ };

    ghost view = { λ i. i.faults };
}

impl<F: FileExt + Seek + OpenFile + Drop> FileImage<F> {
    /// The bytes of this file, with no error counted.
    pub fn new(file: F) -> FileImage<F>
        ensures { result ≡ 0 }
    {
        FileImage { file, faults: 0 }
    }

    /// Whether an error was counted before. Then one more is, and the file is not touched again.
    fn fails_again(&mut self) -> bool
        ensures failed { IsTrue result ↔ (0 < self.old) }
        ensures count { self.new ≡ (if result then counted self.old 1 else self.old) }
    {
        let failed = self.faults > 0;
        if failed {
            self.faults = self.faults.saturating_add(1);
        }
        failed
    }
}

impl<F: FileExt + Seek + OpenFile + Drop> Image for FileImage<F> {
    ghost bytes = { λ _. None };

    ghost faults = { λ i. i };

    ghost past = { λ _. None };

    ghost laws = { record { newest = λ _. tt; failed = λ _. tt } };

    fn len(&mut self) -> Length
        ensures rule { LenRule None None self.old self.new result }
        ensures count { self.new ≡ count_after_len result self.old }
        ensures stops { 0 < self.old → FailsAgain lengths.Failed result None None }
    {
        if self.fails_again() {
            return Length::Failed;
        }
        match count_error(self.file.seek(SeekFrom::End(0)), &mut self.faults) {
            Some(len) => Length::Is(len),
            None => Length::Failed,
        }
    }

    /// The end of the file in the range is an error.
    fn read_at(&mut self, at: u64, into: &mut [u8]) -> Moved
        ensures rule { ReadAtRule None None self.old self.new at into.new result }
        ensures count { self.new ≡ count_after_move result self.old }
        ensures stops { 0 < self.old → FailsAgain moves.Failed result None None }
    {
        if self.fails_again() {
            return Moved::Failed;
        }
        let outcome = self.file.read_exact_at(into, at);
        moved(outcome, &mut self.faults)
    }

    fn write_at(&mut self, at: u64, from: &[u8]) -> Moved
        ensures rule { WriteAtRule None None self.old self.new at from.now result }
        ensures count { self.new ≡ count_after_move result self.old }
        ensures stops { 0 < self.old → FailsAgain moves.Failed result None None }
    {
        if self.fails_again() {
            return Moved::Failed;
        }
        let outcome = self.file.write_all_at(from, at);
        moved(outcome, &mut self.faults)
    }

    fn set_len(&mut self, len: u64) -> Moved
        ensures rule { SetLenRule None None self.old self.new len result }
        ensures count { self.new ≡ count_after_move result self.old }
        ensures stops { 0 < self.old → FailsAgain moves.Failed result None None }
    {
        if self.fails_again() {
            return Moved::Failed;
        }
        moved(self.file.set_len(len), &mut self.faults)
    }

    fn sync(&mut self) -> Moved
        ensures rule { SyncRule None None self.old self.new result }
        ensures count { self.new ≡ count_after_move result self.old }
        ensures stops { 0 < self.old → FailsAgain moves.Failed result None None }
    {
        if self.fails_again() {
            return Moved::Failed;
        }
        moved(self.file.sync_data(), &mut self.faults)
    }
}

fn moved(outcome: io::Result<()>, faults: &mut u64) -> Moved
    ensures { faults.new ≡ count_after_move result faults.old }
{
    match count_error(outcome, faults) {
        Some(()) => Moved::Done,
        None => Moved::Failed,
    }
}

/// Opens files by their paths, seen as its count of errors. A file that is written to is locked while it is open.
#[derive(Drop)]
pub struct FileOpener<R: Files> {
    rt: R,
    faults: u64,
}

impl<R: Files> Model for FileOpener<R> {
    ghost use Rattle.std.specs.Prelude.{ℕ};

    ghost Value = { ℕ };

    ghost view = { λ o. o.faults };
}

impl<R: Files> FileOpener<R> {
    /// An opener of the files of this system, with no error counted.
    pub fn new(rt: R) -> FileOpener<R>
        ensures { result ≡ 0 }
    {
        FileOpener { rt, faults: 0 }
    }
}

impl<R: Files> FileOpener<R>
where
    R::File: FileExt + LockFile,
{
    /// Opens the file of this path for this.
    fn open_for(&mut self, name: &str, access: Access) -> Opened<FileImage<R::File>>
        ensures rule { OpenRule (λ i. i) access name.now
            (opener_view None None None None None self.old) (opener_view None None None None None self.new) result }
        ensures count { self.new ≡ count_after_open result self.old }
    {
        match count_error(open_file(&self.rt, name, access), &mut self.faults) {
            Some(file) => Opened::Image(FileImage::new(file)),
            None => Opened::Failed,
        }
    }
}

/// Opens the file of this path for this. One that may be written to is locked; so a second drive over it is refused, and one that only
/// reads it is not.
fn open_file<R: Files>(rt: &R, name: &str, access: Access) -> io::Result<R::File>
where
    R::File: LockFile,
{
    let mut options = OpenOptions::new();
    options.read(true);
    match access {
        Access::ReadWrite => {
            options.write(true).create(true);
            let file = options.open(rt, name)?;
            file.lock_alone()?;
            Ok(file)
        }
        Access::ReadOnly => options.open(rt, name),
    }
}

impl<R: Files> Opener for FileOpener<R>
where
    R::File: FileExt + LockFile,
{
    type Image = FileImage<R::File>;

    ghost returned_known = { false };

    ghost next = { λ _. None };

    ghost after_next = { λ _. None };

    ghost returned = { λ _. None };

    ghost returned_before = { λ _. None };

    ghost asked = { λ _. None };

    ghost faults = { λ o. o };

    /// Opens the file of this path to be read and written, and locks it. It is made, empty, where there is none; what it holds
    /// stays. One that is locked already is a failure.
    fn open(&mut self, name: &str) -> Opened<FileImage<R::File>>
        ensures rule { OpenRule (λ i. i) ReadWrite name.now
            (opener_view None None None None None self.old) (opener_view None None None None None self.new) result }
        ensures count { self.new ≡ count_after_open result self.old }
    {
        self.open_for(name, Access::ReadWrite)
    }

    /// Opens the file of this path to be read alone, and locks nothing. Where there is none it fails, and none is made.
    fn open_to_read(&mut self, name: &str) -> Opened<FileImage<R::File>>
        ensures rule { OpenRule (λ i. i) ReadOnly name.now
            (opener_view None None None None None self.old) (opener_view None None None None None self.new) result }
        ensures count { self.new ≡ count_after_open result self.old }
    {
        self.open_for(name, Access::ReadOnly)
    }

    fn close(&mut self, image: FileImage<R::File>)
        ensures rule { CloseRule false (λ i. i) image
            (opener_view None None None None None self.old) (opener_view None None None None None self.new) }
        ensures count { self.new ≡ counted self.old image }
    {
        self.faults = self.faults.saturating_add(image.faults);
    }
}
