//! Rows on real files: what a user would lose, bytes behind a short read or write, and an image that is there already.
use ram_outside::{FileImage, FileOpener, Image, LockFile, Opened, Opener};
use std::fmt::Write;
use std::fs::{Metadata, OpenFile, OpenOptions};
use std::io::{Seek, SeekFrom};
use std::os::unix::fs::FileExt;
use std::rt::Files;
use std::{fs, io};

/// A file that moves at most three bytes at once.
#[derive(Drop)]
struct FewAtOnce<F: FileExt + Seek + OpenFile + Drop>(F);

impl<F: FileExt + Seek + OpenFile + Drop> FileExt for FewAtOnce<F> {
    fn read_at(&self, into: &mut [u8], at: u64) -> io::Result<usize> {
        let most = into.len().min(3);
        self.0.read_at(&mut into[..most], at)
    }

    fn write_at(&self, from: &[u8], at: u64) -> io::Result<usize> {
        self.0.write_at(&from[..from.len().min(3)], at)
    }
}

impl<F: FileExt + Seek + OpenFile + Drop> Seek for FewAtOnce<F> {
    fn seek(&mut self, to: SeekFrom) -> io::Result<u64> {
        self.0.seek(to)
    }
}

impl<F: FileExt + Seek + OpenFile + Drop> OpenFile for FewAtOnce<F> {
    fn metadata(&self) -> io::Result<Metadata> {
        self.0.metadata()
    }

    fn set_len(&self, size: u64) -> io::Result<()> {
        self.0.set_len(size)
    }

    fn sync_all(&self) -> io::Result<()> {
        self.0.sync_all()
    }

    fn sync_data(&self) -> io::Result<()> {
        self.0.sync_data()
    }
}

/// Adds bytes as text, with a point for each byte that is zero.
fn add_bytes(answer: &mut String, bytes: &[u8]) -> io::Result<()> {
    for byte in bytes {
        let letter = if *byte == 0 { '.' } else { char::from(*byte) };
        answer.push(letter)?;
    }
    Ok(())
}

/// Makes a new image longer, writes into it, and makes it shorter and longer again.
fn change<F: FileExt + Seek + OpenFile + Drop>(
    image: &mut FileImage<F>,
    answer: &mut String,
) -> io::Result<()> {
    let length = image.len();
    let longer = image.set_len(10);
    let written = image.write_at(3, b"abcde");
    let shorter = image.set_len(6);
    let longer_again = image.set_len(9);
    write!(
        answer,
        "{length:?} {longer:?} {written:?} {shorter:?} {longer_again:?} "
    )?;
    Ok(())
}

/// Reads an image, and then past its end.
fn read<F: FileExt + Seek + OpenFile + Drop>(
    image: &mut FileImage<F>,
    answer: &mut String,
) -> io::Result<()> {
    let mut into = *b"-----";
    let length = image.len();
    let inside = image.read_at(2, &mut into);
    write!(answer, " {length:?} {inside:?} ")?;
    add_bytes(answer, &into)?;
    let outside = image.read_at(5, &mut into);
    write!(answer, " {outside:?}")?;
    Ok(())
}

/// Opens an image, if it can be.
fn open<O: Opener>(opener: &mut O, name: &str) -> Option<O::Image> {
    match opener.open(name) {
        Opened::Image(image) => Some(image),
        Opened::Failed => None,
    }
}

/// Opens an image to be read alone, if it can be.
fn open_to_read<O: Opener>(opener: &mut O, name: &str) -> Option<O::Image> {
    match opener.open_to_read(name) {
        Opened::Image(image) => Some(image),
        Opened::Failed => None,
    }
}

/// Opens an image that is not there to be read alone, and tells whether it is open, and whether there is one then.
fn read_missing<R: Files>(
    rt: &R,
    opener: &mut FileOpener<&R>,
    name: &str,
    answer: &mut String,
) -> io::Result<()>
where
    R::File: FileExt + LockFile,
{
    let is_open = open_to_read(opener, name).is_some();
    let mut options = OpenOptions::new();
    options.read(true);
    let is_there = options.open(rt, name).is_ok();
    write!(
        answer,
        "the missing image is open: {is_open}, is made: {is_there}, "
    )?;
    Ok(())
}

/// `FOLDER`: makes the folder, and in it an image, which is changed, closed, and opened and read again, without a write.
pub fn answer_file<R: Files + AllocGlobal>(
    rt: &R,
    folder: &str,
    answer: &mut String,
) -> io::Result<()>
where
    R::File: FileExt + LockFile,
{
    let mut name = String::new(rt.alloc());
    write!(name, "{folder}/disc.img")?;
    fs::create_dir(rt, folder)?;
    let mut opener = FileOpener::new(rt);
    let is_open = open(&mut opener, folder).is_some();
    write!(answer, "the folder is open: {is_open}, ")?;
    read_missing(rt, &mut opener, name.as_str(), answer)?;
    if let Some(mut image) = open(&mut opener, name.as_str()) {
        change(&mut image, answer)?;
        opener.close(image);
    }
    add_bytes(answer, &fs::read(rt, name.as_str())?)?;
    if let Some(mut image) = open_to_read(&mut opener, name.as_str()) {
        read(&mut image, answer)?;
        let written = image.write_at(0, b"x");
        write!(answer, " {written:?}")?;
        opener.close(image);
    }
    fs::remove_dir_all(rt, folder)
}

/// `NAME`: an image that is open to be written is opened again, to be written and to be read alone; and once more when it is closed.
pub fn answer_locked<R: Files + AllocGlobal>(
    rt: &R,
    name: &str,
    answer: &mut String,
) -> io::Result<()>
where
    R::File: FileExt + LockFile,
{
    let (mut opener, mut other) = (FileOpener::new(rt), FileOpener::new(rt));
    if let Some(image) = open(&mut opener, name) {
        let is_open = open(&mut other, name).is_some();
        let is_read = open_to_read(&mut other, name).is_some();
        write!(answer, "opened again: {is_open}, to be read: {is_read}, ")?;
        opener.close(image);
    }
    let is_open = open(&mut other, name).is_some();
    write!(answer, "after it was closed: {is_open}")?;
    fs::remove_file(rt, name)
}

/// Makes an image longer, writes into it, and reads it.
fn write_and_read<F: FileExt + Seek + OpenFile + Drop>(
    file: F,
    answer: &mut String,
) -> io::Result<()> {
    let mut image = FileImage::new(file);
    let mut into = *b"--------";
    let longer = image.set_len(12);
    let written = image.write_at(2, b"abcdefgh");
    let read = image.read_at(3, &mut into);
    write!(answer, "{longer:?} {written:?} {read:?} ")?;
    add_bytes(answer, &into)
}

/// `NAME`: an image over a file that moves three bytes at once is written and read, and then what the file has.
pub fn answer_few<R: Files + AllocGlobal>(rt: &R, name: &str, answer: &mut String) -> io::Result<()>
where
    R::File: FileExt,
{
    let mut options = OpenOptions::new();
    options.read(true).write(true).create(true);
    let file = options.open(rt, name)?;
    write_and_read(FewAtOnce(file), answer)?;
    answer.push_str(" ")?;
    add_bytes(answer, &fs::read(rt, name)?)?;
    fs::remove_file(rt, name)
}
