//! Rows on an image in memory and its opener: steps one after another, each with its answer.
use crate::streams::{number_of, numbers_of};
use ram_outside::{Image, MemImage, MemOpener, Moved, Opened, Opener};
use std::alloc::{AllocError, Global};
use std::fmt::Write;

/// Adds whether a call was done, and the bytes of the image then.
fn add_moved(image: &MemImage, moved: Moved, answer: &mut String) -> Result<(), AllocError> {
    let bytes = str::from_utf8(image.bytes()).unwrap_or("no text");
    write!(answer, "{moved:?} ")?;
    for letter in bytes.chars() {
        answer.push(if letter == '\0' { '.' } else { letter })?;
    }
    Ok(())
}

/// Adds what is read from a place on, where this many bytes lie inside the image.
fn add_read(
    image: &mut MemImage,
    at: u64,
    count: u64,
    answer: &mut String,
) -> Result<(), AllocError> {
    let mut into = *b"----";
    let held = image.bytes().len() as u64;
    if count > 4 || at > held || count > held - at {
        return answer.push_str("outside");
    }
    let moved = image.read_at(at, &mut into[..count as usize]);
    add_moved(image, moved, answer)?;
    match moved {
        Moved::Done => {
            let bytes = str::from_utf8(&into[..count as usize]).unwrap_or("no text");
            write!(answer, " gives {bytes}")
        }
        Moved::Failed => Ok(()),
    }
}

/// Writes a text from a place on, where it lies inside the image, and adds what then stands.
fn add_write(
    image: &mut MemImage,
    at: u64,
    text: &str,
    answer: &mut String,
) -> Result<(), AllocError> {
    let held = image.bytes().len() as u64;
    if at > held || text.len() as u64 > held - at {
        return answer.push_str("outside");
    }
    let moved = image.write_at(at, text.as_bytes());
    add_moved(image, moved, answer)
}

/// Gives the image a length, and adds what then stands.
fn add_set_len(image: &mut MemImage, len: u64, answer: &mut String) -> Result<(), AllocError> {
    let moved = image.set_len(len);
    add_moved(image, moved, answer)
}

/// Adds the length that the image tells.
fn add_len(image: &mut MemImage, answer: &mut String) -> Result<(), AllocError> {
    let length = image.len();
    write!(answer, "{length:?}")
}

/// Adds whether all that was written will last, and the bytes of the image.
fn add_sync(image: &mut MemImage, answer: &mut String) -> Result<(), AllocError> {
    let moved = image.sync();
    add_moved(image, moved, answer)
}

/// Makes room for this many bytes, and adds how that went.
fn add_reserve(image: &mut MemImage, len: u64, answer: &mut String) -> Result<(), AllocError> {
    let reserved = image.reserve(len as usize);
    write!(answer, "{reserved:?}")
}

/// Makes one step with an image.
fn make(image: &mut MemImage, words: &[&str], answer: &mut String) -> Result<(), AllocError> {
    match words {
        ["len"] => add_len(image, answer),
        ["reserve", len] => add_reserve(image, number_of(len), answer),
        ["read", at, count] => add_read(image, number_of(at), number_of(count), answer),
        ["write", at, text] => add_write(image, number_of(at), text, answer),
        ["set-len", len] => add_set_len(image, number_of(len), answer),
        ["sync"] => add_sync(image, answer),
        _ => answer.push_str("no such step"),
    }
}

/// Makes a step with the image that is open, if one is.
fn make_words(
    alloc: Global,
    place: &mut Option<MemImage>,
    step: &str,
    answer: &mut String,
) -> Result<(), AllocError> {
    let words: Vec<&str> = step.split(':').collect(alloc)?;
    match place {
        Some(image) => make(image, &words, answer),
        None => answer.push_str("none is open"),
    }
}

/// Opens an image, and adds whether one was opened. Where none was, the one that was open stays.
fn open(
    opener: &mut MemOpener,
    place: &mut Option<MemImage>,
    answer: &mut String,
) -> Result<(), AllocError> {
    match opener.open("disc") {
        Opened::Image(image) => {
            *place = Some(image);
            answer.push_str("open")
        }
        Opened::Failed => answer.push_str("not opened"),
    }
}

/// Adds the bytes of the image that was handed back.
fn add_returned(returned: Option<&MemImage>, answer: &mut String) -> Result<(), AllocError> {
    match returned {
        Some(image) => add_moved(image, Moved::Done, answer),
        None => answer.push_str("none was handed back"),
    }
}

/// Hands the image back that is open, and adds how often it was called.
fn close(
    opener: &mut MemOpener,
    place: &mut Option<MemImage>,
    answer: &mut String,
) -> Result<(), AllocError> {
    match place.take() {
        Some(image) => {
            write!(answer, "{} calls", image.calls())?;
            opener.close(image);
            Ok(())
        }
        None => answer.push_str("none is open"),
    }
}

/// Makes a step, and adds what it is answered.
fn add_step(
    alloc: Global,
    opener: &mut MemOpener,
    place: &mut Option<MemImage>,
    step: &str,
    answer: &mut String,
) -> Result<(), AllocError> {
    match step {
        "open" => open(opener, place, answer),
        "close" => close(opener, place, answer),
        "returned" => add_returned(opener.returned(), answer),
        "returned-before" => add_returned(opener.returned_before(), answer),
        _ => make_words(alloc, place, step, answer),
    }
}

/// Makes the steps, and adds what each is answered.
fn add_steps(
    alloc: Global,
    opener: &mut MemOpener,
    steps: &str,
    answer: &mut String,
) -> Result<(), AllocError> {
    let mut place = None;
    for step in steps.split(' ') {
        add_step(alloc, opener, &mut place, step, answer)?;
        answer.push_str(" | ")?;
    }
    Ok(())
}

/// `BYTES FAILING FAILING STEP ..`: steps with an image of these bytes, which fails at the first calls, and its opener,
/// which fails at the second ones.
pub fn answer_image(alloc: Global, words: &str, answer: &mut String) -> Result<(), AllocError> {
    let (bytes, words) = words.split_once(' ').unwrap_or((words, ""));
    let (failing, words) = words.split_once(' ').unwrap_or((words, ""));
    let (openings, steps) = words.split_once(' ').unwrap_or((words, ""));
    let bytes = bytes.as_bytes().to_vec(alloc)?;
    let image = MemImage::new(bytes, numbers_of(alloc, failing)?);
    let mut opener = MemOpener::new(image, numbers_of(alloc, openings)?);
    add_steps(alloc, &mut opener, steps, answer)
}

/// `BYTES BYTES FAILING STEP ..`: steps with an opener of two images of these bytes, which fails at these calls.
pub fn answer_pair(alloc: Global, words: &str, answer: &mut String) -> Result<(), AllocError> {
    let (first, words) = words.split_once(' ').unwrap_or((words, ""));
    let (second, words) = words.split_once(' ').unwrap_or((words, ""));
    let (openings, steps) = words.split_once(' ').unwrap_or((words, ""));
    let first = MemImage::new(first.as_bytes().to_vec(alloc)?, Vec::new(alloc));
    let second = MemImage::new(second.as_bytes().to_vec(alloc)?, Vec::new(alloc));
    let mut opener = MemOpener::pair(first, second, numbers_of(alloc, openings)?);
    add_steps(alloc, &mut opener, steps, answer)
}
