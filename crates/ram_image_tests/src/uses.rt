//! One step of any medium, and what it answers.
use crate::steps::Step;
use ram_bytes::Block;
use ram_medium::{Arm, FailEnd, Fate, MediumControl, ReadEnd, SyncEnd, WriteEnd};

/// What a step answers.
#[derive(Clone, Copy, Debug, PartialEq, Eq)]
pub enum Answer {
    Done,
    Filled(u8),
    Mixed,
    Unreadable,
    PowerCut,
    PowerOff,
    Failed,
    NoBlock,
    Full,
}

/// What a block is full of before it is read into: a byte that no step writes.
const BEFORE_A_READ: u8 = 0x99;

/// Which byte the block is full of.
fn filled(block: &Block) -> Answer {
    let bytes = block.bytes();
    let first = bytes[0];
    if bytes.iter().all(|byte| *byte == first) {
        Answer::Filled(first)
    } else {
        Answer::Mixed
    }
}

/// What a read answers that left this block.
fn read_answer(end: ReadEnd, block: &Block) -> Answer {
    match end {
        ReadEnd::Done => filled(block),
        ReadEnd::Unreadable => Answer::Unreadable,
        ReadEnd::Cut => Answer::PowerCut,
        ReadEnd::Off => Answer::PowerOff,
        ReadEnd::Failed => Answer::Failed,
    }
}

/// What a write answers.
fn write_answer(end: WriteEnd) -> Answer {
    match end {
        WriteEnd::Done => Answer::Done,
        WriteEnd::Cut => Answer::PowerCut,
        WriteEnd::Off => Answer::PowerOff,
        WriteEnd::Failed => Answer::Failed,
    }
}

fn read<M: MediumControl>(medium: &mut M, number: u32, block: &mut Block) -> Answer {
    if number >= medium.blocks() {
        return Answer::NoBlock;
    }
    block.fill(BEFORE_A_READ);
    let end = medium.read(number, block);
    read_answer(end, block)
}

fn read_into<M: MediumControl>(medium: &mut M, number: u32, block: &mut Block) -> Answer {
    if number >= medium.blocks() {
        return Answer::NoBlock;
    }
    block.fill(BEFORE_A_READ);
    let end = medium.read_into(number, block.bytes_mut());
    read_answer(end, block)
}

fn write<M: MediumControl>(medium: &mut M, number: u32, byte: u8, block: &mut Block) -> Answer {
    if number >= medium.blocks() {
        return Answer::NoBlock;
    }
    block.fill(byte);
    write_answer(medium.write(number, block))
}

fn write_from<M: MediumControl>(
    medium: &mut M,
    number: u32,
    byte: u8,
    block: &mut Block,
) -> Answer {
    if number >= medium.blocks() {
        return Answer::NoBlock;
    }
    block.fill(byte);
    write_answer(medium.write_from(number, block.bytes()))
}

fn fail<M: MediumControl>(medium: &mut M, number: u32) -> Answer {
    match medium.fail(number) {
        FailEnd::Done => Answer::Done,
        FailEnd::NoBlock { blocks: _ } => Answer::NoBlock,
        FailEnd::Failed => Answer::Failed,
    }
}

fn wear<M: MediumControl>(medium: &mut M, number: u32, n: u32) -> Answer {
    match medium.wear(number, n.max(1)) {
        Arm::Set => Answer::Done,
        Arm::NoBlock { blocks: _ } => Answer::NoBlock,
        Arm::Full => Answer::Full,
    }
}

fn on<M: MediumControl>(medium: &mut M) -> Answer {
    medium.power_on();
    Answer::Done
}

fn off<M: MediumControl>(medium: &mut M) -> Answer {
    medium.power_off();
    Answer::Done
}

fn arm_cut<M: MediumControl>(medium: &mut M, n: u32, fate: Fate) -> Answer {
    medium.arm_cut(n.max(1), fate);
    Answer::Done
}

fn sync<M: MediumControl>(medium: &mut M) -> Answer {
    match medium.sync() {
        SyncEnd::Done => Answer::Done,
        SyncEnd::Failed => Answer::Failed,
    }
}

/// Makes a step with a medium. `block` has the bytes that are read and written.
pub fn take<M: MediumControl>(medium: &mut M, step: Step, block: &mut Block) -> Answer {
    match step {
        Step::On => on(medium),
        Step::Off => off(medium),
        Step::Read { block: number } => read(medium, number, block),
        Step::ReadInto { block: number } => read_into(medium, number, block),
        Step::Write {
            block: number,
            byte,
        } => write(medium, number, byte, block),
        Step::WriteFrom {
            block: number,
            byte,
        } => write_from(medium, number, byte, block),
        Step::Fail { block: number } => fail(medium, number),
        Step::Wear { block: number, n } => wear(medium, number, n),
        Step::Cut { n, fate } => arm_cut(medium, n, fate),
        Step::Sync => sync(medium),
        Step::Again => Answer::Done,
    }
}
