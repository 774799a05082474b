//! The forms of the program's words.
ghost use Rattle.std.specs.Prelude.{◌≡◌, is_some, map};
ghost use Rattle.std.specs.List.{list_all};
ghost use Rattle.ram_text.specs.Faults.{fault_word};
ghost use Rattle.ram_run.specs.Words.{FormRule, LongerRule, SessionRule, MirrorRule};

use crate::seed::seed_of;
use ram_text::parse_fault;
use ram_zones::LayoutKind;

/// The forms of the program's words.
#[derive(Clone, Copy, Debug, PartialEq, Eq)]
pub enum Form<'a> {
    /// Run a script over the image of this name, whose discs have a layout of this kind.
    Run(LayoutKind, &'a str),
    /// Run the script of a number over the image of this name.
    Generate(&'a str, u64),
    /// Tell what the image of this name holds.
    Audit(&'a str),
    /// Check a text against the image of this name.
    Check(&'a str),
    /// Serve a client the disc in the image of this name, in which the words make something fail.
    Nbd(&'a str, &'a [&'a str]),
    /// Run a script for a mirror of the discs in the images of these names.
    Mirror(&'a str, &'a str),
    /// Tell what the program does.
    Help,
    /// Tell the program's version.
    Version,
}

/// The form of the words, if they have one.
pub fn form_of<'a>(words: &'a [&'a str]) -> Option<Form<'a>>
    ensures { FormRule (map (λ word. word.now) words.now) result }
{
    match words {
        [verb, name] if *verb == "run" => Some(Form::Run(LayoutKind::OneGroup, *name)),
        [verb, name] if *verb == "groups" => Some(Form::Run(LayoutKind::EachZone, *name)),
        [verb, name] if *verb == "audit" => Some(Form::Audit(*name)),
        [verb, name] if *verb == "check" => Some(Form::Check(*name)),
        [verb, name, number] if *verb == "generate" => match seed_of(number.as_bytes()) {
            Some(seed) => Some(Form::Generate(*name, seed)),
            None => None,
        },
        [word] if *word == "--help" => Some(Form::Help),
        [word] if *word == "--version" => Some(Form::Version),
        _ => longer_form_of(words),
    }
}

/// The form of words that ask for a session of a client or for a mirror, if they do.
fn longer_form_of<'a>(words: &'a [&'a str]) -> Option<Form<'a>>
    ensures { LongerRule (map (λ word. word.now) words.now) result }
{
    match session_of(words) {
        Some(form) => Some(form),
        None => mirror_of(words),
    }
}

/// The form of words that ask for a mirror of two images, if they do.
fn mirror_of<'a>(words: &'a [&'a str]) -> Option<Form<'a>>
    ensures { MirrorRule (map (λ word. word.now) words.now) result }
{
    match words {
        [verb, a, b] if *verb == "mirror" && *a != *b => Some(Form::Mirror(*a, *b)),
        _ => None,
    }
}

/// The form of words that ask for a session of a client, if they do.
fn session_of<'a>(words: &'a [&'a str]) -> Option<Form<'a>>
    ensures { SessionRule (map (λ word. word.now) words.now) result }
{
    match words {
        [verb, name, asked @ ..] if *verb == "nbd" && are_faults(asked) => {
            Some(Form::Nbd(*name, asked))
        }
        _ => None,
    }
}

/// Whether each of the words reads as a fault.
fn are_faults(words: &[&str]) -> bool
    ensures { result ≡ list_all (λ word. is_some (fault_word word.now)) words.now }
{
    words
        .iter()
        .all(|word| parse_fault(word.as_bytes()).is_some())
}
