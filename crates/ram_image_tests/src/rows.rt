//! A row: which media there are, the steps, and the answers.
use crate::media::{in_memory, over_image, take_both};
use crate::steps::{Step, step_of};
use crate::uses::Answer;
use std::alloc::{AllocError, Global};
use std::fmt::Write;

/// Adds an answer: the byte that was read, or the word.
fn add_answer(answers: &mut String, answer: Option<Answer>) -> Result<(), AllocError> {
    match answer {
        Some(Answer::Filled(byte)) => write!(answers, "{byte:02x}"),
        Some(answer) => write!(answers, "{answer:?}"),
        None => answers.push_str("no answer"),
    }
}

/// Adds the answers of one medium, a line each.
fn add_answers(answers: &mut String, each: &[Answer]) -> Result<(), AllocError> {
    for answer in each {
        add_answer(answers, Some(*answer))?;
        answers.push_str("\n")?;
    }
    Ok(())
}

/// The answer to a step, by its place.
fn answer_at(answers: &[Answer], place: usize) -> Option<Answer> {
    answers.get(place).copied()
}

/// Adds the answers of two media to a step, one where they are the same.
fn add_two(
    answers: &mut String,
    one: Option<Answer>,
    other: Option<Answer>,
) -> Result<(), AllocError> {
    add_answer(answers, one)?;
    if one != other {
        answers.push_str(" and ")?;
        add_answer(answers, other)?;
    }
    Ok(())
}

/// Adds the answers of four media, a line a step: in memory and over an image, and both once more straight where these
/// differ.
fn add_all(answers: &mut String, each: &[Vec<Answer>; 4], steps: usize) -> Result<(), AllocError> {
    let [one, other, one_straight, other_straight] = each;
    for place in 0..steps {
        let found = (answer_at(one, place), answer_at(other, place));
        let straight = (
            answer_at(one_straight, place),
            answer_at(other_straight, place),
        );
        add_two(answers, found.0, found.1)?;
        if straight != found {
            answers.push_str(", straight ")?;
            add_two(answers, straight.0, straight.1)?;
        }
        answers.push_str("\n")?;
    }
    Ok(())
}

/// Adds the step of a line, if it is one.
fn add_step(alloc: Global, steps: &mut Vec<Step>, line: &str) -> Result<bool, AllocError> {
    let words: Vec<&str> = line.split(' ').collect(alloc)?;
    match step_of(&words) {
        Some(step) => {
            steps.push(step)?;
            Ok(true)
        }
        None => Ok(false),
    }
}

/// The steps of lines. None where a line is no step.
fn steps_of(alloc: Global, lines: &str) -> Result<Option<Vec<Step>>, AllocError> {
    let mut steps = Vec::new(alloc);
    for line in lines.lines() {
        if !add_step(alloc, &mut steps, line)? {
            return Ok(None);
        }
    }
    Ok(Some(steps))
}

/// The numbers of these words.
fn numbers_of(alloc: Global, words: &[&str]) -> Result<Vec<u64>, AllocError> {
    let mut numbers = Vec::new(alloc);
    for word in words {
        numbers.push(word.parse().unwrap_or(0))?;
    }
    Ok(numbers)
}

/// Takes the media that these words name through steps, and adds the answers.
fn answer_steps(
    alloc: Global,
    words: &[&str],
    steps: &[Step],
    answers: &mut String,
) -> Result<(), AllocError> {
    match words {
        ["both"] => add_all(answers, &take_both(alloc, steps)?, steps.len()),
        ["memory", blocks, failing @ ..] => {
            let blocks: u32 = blocks.parse().unwrap_or(0);
            let failing = numbers_of(alloc, failing)?;
            add_answers(answers, &in_memory(alloc, blocks, failing, steps, false)?)
        }
        ["image", failing @ ..] => {
            let failing = numbers_of(alloc, failing)?;
            add_answers(answers, &over_image(alloc, failing, steps, false)?)
        }
        _ => answers.push_str("no such media\n"),
    }
}

/// Adds the answers of a row.
pub fn answer_row(alloc: Global, row: &str, answers: &mut String) -> Result<(), AllocError> {
    let Some((media, lines)) = row.split_once('\n') else {
        return Ok(());
    };
    let words: Vec<&str> = media.split(' ').collect(alloc)?;
    match steps_of(alloc, lines)? {
        Some(steps) => answer_steps(alloc, &words, &steps, answers),
        None => answers.push_str("no such step\n"),
    }
}
