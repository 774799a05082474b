//! What a line of a row asks for, word for word. Numbers are decimal, and bytes have two hexadecimal digits.
use ram_medium::Fate;

/// What is done to a medium.
#[derive(Clone, Copy)]
pub enum Step {
    On,
    Off,
    Read { block: u32 },
    ReadInto { block: u32 },
    Write { block: u32, byte: u8 },
    WriteFrom { block: u32, byte: u8 },
    Fail { block: u32 },
    Wear { block: u32, n: u32 },
    Cut { n: u32, fate: Fate },
    /// All that was written is to last.
    Sync,
    /// The image is opened anew, as a file is that failed; now it fails no more.
    Again,
}

/// A decimal number.
fn number_of(word: &str) -> Option<u32> {
    word.parse().ok()
}

/// A byte of two hexadecimal digits.
fn byte_of(word: &str) -> Option<u8> {
    u8::from_str_radix(word, 16).ok()
}

/// What a write that is cut leaves.
fn fate_of(word: &str) -> Option<Fate> {
    match word {
        "old" => Some(Fate::Old),
        "new" => Some(Fate::New),
        "torn" => Some(Fate::Torn),
        _ => None,
    }
}

/// The use of a block that these words ask for.
fn use_of(words: &[&str]) -> Option<Step> {
    match *words {
        ["read", block] => Some(Step::Read {
            block: number_of(block)?,
        }),
        ["read-into", block] => Some(Step::ReadInto {
            block: number_of(block)?,
        }),
        ["write", block, byte] => Some(Step::Write {
            block: number_of(block)?,
            byte: byte_of(byte)?,
        }),
        ["write-from", block, byte] => Some(Step::WriteFrom {
            block: number_of(block)?,
            byte: byte_of(byte)?,
        }),
        _ => None,
    }
}

/// The step that these words ask for.
pub fn step_of(words: &[&str]) -> Option<Step> {
    match *words {
        ["on"] => Some(Step::On),
        ["off"] => Some(Step::Off),
        ["again"] => Some(Step::Again),
        ["sync"] => Some(Step::Sync),
        ["fail", block] => Some(Step::Fail {
            block: number_of(block)?,
        }),
        ["wear", block, n] => Some(Step::Wear {
            block: number_of(block)?,
            n: number_of(n)?,
        }),
        ["cut", n, fate] => Some(Step::Cut {
            n: number_of(n)?,
            fate: fate_of(fate)?,
        }),
        _ => use_of(words),
    }
}

/// The same step, where a read goes straight into the caller's bytes, and a write comes straight from them.
pub fn straight(step: Step) -> Step {
    match step {
        Step::Read { block } => Step::ReadInto { block },
        Step::Write { block, byte } => Step::WriteFrom { block, byte },
        other => other,
    }
}
