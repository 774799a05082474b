//! Calls sources, sinks, images and openers, in memory and over real files: what a caller of each meets, which no contract says of
//! the real ones. The rows stand in `stdin`, and what each must be answered in `stdout`.
//!
//! A line that begins with `== ` is a title, and is printed as it is. Each other line is a row. The README lists them.
#![tactic(auto)]

mod files;
mod images;
mod streams;

use crate::files::{answer_few, answer_file, answer_locked};
use crate::images::{answer_image, answer_pair};
use crate::streams::{answer_copy, answer_sink, answer_source};
use ram_outside::LockFile;
use std::io;
use std::os::unix::fs::FileExt;
use std::rt::Files;

fn main(rt: HostRuntime) -> io::Result<()> {
    for row in rt.lines(rt.alloc()) {
        let row = row?;
        let mut answer = String::new(rt.alloc());
        answer_row(&rt, row.as_str(), &mut answer)?;
        println!(rt; "{answer}")?;
    }
    Ok(())
}

/// Adds the answer of a row, by its first word.
fn answer_row<R: Files + AllocGlobal>(rt: &R, row: &str, answer: &mut String) -> io::Result<()>
where
    R::File: FileExt + LockFile,
{
    let (word, rest) = row.split_once(' ').unwrap_or((row, ""));
    match word {
        "==" => answer.push_str(row)?,
        "copy" => answer_copy(rt.alloc(), rest, answer)?,
        "source" => answer_source(rt.alloc(), rest, answer)?,
        "sink" => answer_sink(rt.alloc(), rest, answer)?,
        "image" => answer_image(rt.alloc(), rest, answer)?,
        "pair" => answer_pair(rt.alloc(), rest, answer)?,
        "file" => answer_file(rt, rest, answer)?,
        "locked" => answer_locked(rt, rest, answer)?,
        "few-at-once" => answer_few(rt, rest, answer)?,
        _ => answer.push_str("no such row")?,
    }
    Ok(())
}
