//! Rows on mode pages: replies of MODE SENSE, and lists of MODE SELECT.
ghost use Rattle.std.specs.Prelude.{◌+◌, ◌<◌, ◌≤◌, vec_len, vec_capacity, IsTrue};
ghost use Rattle.model_modes.specs.Pages.{is_page_code};

use crate::words::{add_bytes, add_sense, bytes_of, number_of};
use ram_modes::Modes;
use std::alloc::{AllocError, Global};
use std::fmt::Write;

/// How many bytes a reply has at most.
const MOST: usize = 64;

/// Adds the reply of a page behind the bytes that are there.
fn put_page(modes: &Modes, short: bool, control: u8, page: u8, length: u32, out: &mut Vec<u8>)
    requires page { IsTrue (is_page_code page) }
    requires room { vec_len out.old + 64 ≤ vec_capacity out.old }
{
    if control < 3 {
        modes.sense_within(short, control, page, length, out);
    }
}

/// Adds the reply of the page with this code, if there is one, behind the bytes that are there.
fn put_reply(modes: &Modes, short: bool, control: u8, page: u8, length: u32, out: &mut Vec<u8>)
    requires room { vec_len out.old + 64 ≤ vec_capacity out.old }
{
    match page {
        0x01 => put_page(modes, short, control, 0x01, length, out),
        0x08 => put_page(modes, short, control, 0x08, length, out),
        0x2a => put_page(modes, short, control, 0x2a, length, out),
        0x3f => put_page(modes, short, control, 0x3f, length, out),
        _ => {}
    }
}

/// Adds the bytes of the first word, and behind them the reply of the page that the others name, cut to their allocation length.
fn answer_reply(
    alloc: Global,
    modes: &Modes,
    short: bool,
    words: [&str; 4],
    answer: &mut String,
) -> Result<(), AllocError> {
    let [before, control, page, length] = words;
    let before = bytes_of(alloc, before);
    let mut out = Vec::with_capacity(alloc, before.len().saturating_add(MOST))?;
    out.extend_from_slice(&before)?;
    let control: u8 = control.parse().unwrap_or(0);
    let page = u8::from_str_radix(page, 16).unwrap_or(0);
    if out.capacity() - out.len() >= MOST {
        put_reply(modes, short, control, page, number_of(length), &mut out);
    }
    add_bytes(answer, &out)
}

/// `BYTES CONTROL PAGE LENGTH`, and `on` behind it: the bytes, and behind them the reply of MODE SENSE(10), cut to the allocation
/// length, where the write cache is off, or on.
pub fn answer_sense(alloc: Global, words: &[&str], answer: &mut String) -> Result<(), AllocError> {
    let [before, control, page, length, caches @ ..] = words else {
        return Ok(());
    };
    let modes = Modes::new(!caches.is_empty(), false);
    answer_reply(
        alloc,
        &modes,
        false,
        [before, control, page, length],
        answer,
    )
}

/// The same of MODE SENSE(6), and `locked` behind it, where removal is allowed, or prevented.
pub fn answer_sense_6(
    alloc: Global,
    words: &[&str],
    answer: &mut String,
) -> Result<(), AllocError> {
    let [before, control, page, length, locked @ ..] = words else {
        return Ok(());
    };
    let modes = Modes::new(false, !locked.is_empty());
    answer_reply(alloc, &modes, true, [before, control, page, length], answer)
}

/// `LIST`, and `on` behind it: whether this list is taken where the write cache is off, or on, and whether writes are cached then.
pub fn answer_select(alloc: Global, words: &[&str], answer: &mut String) -> Result<(), AllocError> {
    let [list, caches @ ..] = words else {
        return Ok(());
    };
    let mut modes = Modes::new(!caches.is_empty(), false);
    match modes.select(&bytes_of(alloc, list)) {
        Ok(()) => answer.push_str("taken")?,
        Err(sense) => add_sense(answer, &sense)?,
    }
    write!(answer, ", write cache {}", modes.caches)
}
