//! The media of a row, each taken through its steps.
use crate::steps::{Step, straight};
use crate::uses::{Answer, take};
use ram_bytes::{Block, Budget};
use ram_image::header::image_len;
use ram_image::{ImageMedium, MediumRooms, PressOut, Refused, open, press};
use ram_medium::{MediumControl, MemMedium};
use ram_outside::MemImage;
use ram_zones::{Geometry, LayoutKind};
use std::alloc::{AllocError, Global};

/// How many blocks the disc has that is pressed: one of one zone, scale 1 and one primary spare.
const BLOCKS: u32 = 41;

/// Takes a medium through steps, straight or not, and gives the answers.
fn take_all<M: MediumControl>(
    alloc: Global,
    medium: &mut M,
    steps: &[Step],
    is_straight: bool,
) -> Result<Vec<Answer>, AllocError> {
    let mut block = Block::zeros(&mut Budget::ample(alloc))?;
    let mut answers = Vec::new(alloc);
    for step in steps {
        let step = if is_straight { straight(*step) } else { *step };
        answers.push(take(medium, step, &mut block))?;
    }
    Ok(answers)
}

/// Takes a new medium in memory of this many blocks through steps. Its uses of these numbers fail.
pub fn in_memory(
    alloc: Global,
    blocks: u32,
    failing: Vec<u64>,
    steps: &[Step],
    is_straight: bool,
) -> Result<Vec<Answer>, AllocError> {
    let mut medium = MemMedium::new(alloc, blocks, failing)?;
    take_all(alloc, &mut medium, steps, is_straight)
}

/// The bytes of a disc of 41 blocks that was just pressed, where it was.
fn pressed(alloc: Global) -> Result<Vec<u8>, AllocError> {
    let mut image = MemImage::new(Vec::new(alloc), Vec::new(alloc));
    if let Ok(geometry) = Geometry::new(1, 1, 1) {
        image.reserve(image_len(&geometry) as usize)?;
        match press(&mut image, &geometry) {
            PressOut::Done => {}
            PressOut::Failed => return Ok(Vec::new(alloc)),
        }
    }
    image.bytes().to_vec(alloc)
}

/// Takes a medium over an image through steps. The answers, and the bytes of the image then.
fn take_image(
    alloc: Global,
    medium: ImageMedium<MemImage>,
    steps: &[Step],
    is_straight: bool,
) -> Result<(Vec<Answer>, Vec<u8>), AllocError> {
    let mut medium = medium;
    let answers = take_all(alloc, &mut medium, steps, is_straight);
    let (image, _) = medium.into_parts();
    Ok((answers?, image.bytes().to_vec(alloc)?))
}

/// The same of a new medium over an image of these bytes, which fails at these calls. No answers where it is not opened.
fn over_bytes(
    alloc: Global,
    bytes: Vec<u8>,
    failing: Vec<u64>,
    steps: &[Step],
    is_straight: bool,
) -> Result<(Vec<Answer>, Vec<u8>), AllocError> {
    let image = MemImage::new(bytes, failing);
    match open(
        MediumRooms::new(&mut Budget::ample(alloc))?,
        image,
        LayoutKind::OneGroup,
    ) {
        Ok((medium, _)) => take_image(alloc, medium, steps, is_straight),
        Err(
            Refused {
                image,
                rooms,
                fault: _,
            },
        ) => {
            drop(image);
            drop(rooms);
            Ok((Vec::new(alloc), Vec::new(alloc)))
        }
    }
}

/// The steps before the image is opened anew, and those from there on.
fn before_again(steps: &[Step]) -> (&[Step], &[Step]) {
    let place = steps
        .iter()
        .position(|step| matches!(step, Step::Again))
        .unwrap_or(steps.len());
    (&steps[..place], &steps[place..])
}

/// Takes a new medium over an image through steps. The image fails at these calls, of which opening takes two, until it is opened
/// anew. No answers where it is not opened.
pub fn over_image(
    alloc: Global,
    failing: Vec<u64>,
    steps: &[Step],
    is_straight: bool,
) -> Result<Vec<Answer>, AllocError> {
    let (before, behind) = before_again(steps);
    let (mut answers, bytes) = over_bytes(alloc, pressed(alloc)?, failing, before, is_straight)?;
    if behind.is_empty() {
        return Ok(answers);
    }
    let (more, _) = over_bytes(alloc, bytes, Vec::new(alloc), behind, is_straight)?;
    for answer in &more {
        answers.push(*answer)?;
    }
    Ok(answers)
}

/// The answers of four media, each to the same steps: in memory and over an image, and both once more straight.
pub fn take_both(alloc: Global, steps: &[Step]) -> Result<[Vec<Answer>; 4], AllocError> {
    Ok([
        in_memory(alloc, BLOCKS, Vec::new(alloc), steps, false)?,
        over_image(alloc, Vec::new(alloc), steps, false)?,
        in_memory(alloc, BLOCKS, Vec::new(alloc), steps, true)?,
        over_image(alloc, Vec::new(alloc), steps, true)?,
    ])
}
