//! Two images as the lines of a script for a mirror work with them.
ghost use Rattle.std.specs.Prelude.{◌≤◌, vec_capacity};
ghost use Rattle.ram_text.specs.declared.payload.TheConstants.{PAYLOAD_ROOM};
ghost use Rattle.ram_pair.specs.Pairs.{PairAnswers, faults_held, HeldAs};
ghost use Rattle.ram_pair.specs.Lines.{IsLineAnswered, CanBeAnswered};
ghost use Rattle.ram_pair.specs.PairStates.{PairState};
ghost use Rattle.ram_pair.specs.PairTexts.{told_text, is_answer};
ghost use Rattle.ram_answers.specs.Outcomes.{LineStops};

use crate::calling::answer_on;
use crate::held::{Held, press_both};
use crate::pair::Pair;
use crate::told::Told;
use core::mem::replace_with;
use ram_answers::Answers;
use ram_machine::Stopped;
use ram_outside::Conversation;
use ram_report::Print;
use ram_side::Side;
use ram_text::{Dialogue, MirrorLine, parse_mirror};

impl<S: Side> Answers for Pair<S> {
    type Told = Told;

    ghost answered = { λ old raw outcome new. PairAnswers S.Sectors S.lies_in S.Image.Image old.held raw outcome
        new.shown.items new.held };

    ghost text = { λ pair number told. told_text number told pair.shown.items };

    ghost is_answer = { is_answer };

    ghost faults = { λ pair. faults_held S.Sectors S.Image.Image pair.held };

    fn answer(&mut self, raw: &[u8]) -> Result<Told, Stopped> {
        self.payload.clear();
        match parse_mirror(raw, &mut self.payload) {
            Ok(line) => answer_line(&mut self.held, line, &self.payload, &mut self.shown),
            Err(_) => Err(Stopped::NotInLanguage),
        }
    }

    fn has_answer(reply: &Told) -> bool {
        matches!(reply, Told::Event(_))
    }

    fn print<T: Conversation>(
        &self,
        number: u64,
        reply: &Told,
        dialogue: &mut Dialogue<T>,
    ) -> Print {
        match reply {
            Told::Nothing => Print::Done,
            Told::Event(event) => dialogue.print_mirror(number, event, &self.shown),
        }
    }
}

/// Answers a line, with its data in `payload`. The bytes that a read gives are then in `shown`.
fn answer_line<S: Side>(
    held: &mut Held<S>,
    line: MirrorLine,
    payload: &[u8],
    shown: &mut Vec<u8>,
) -> Result<Told, Stopped>
    requires can { CanBeAnswered line payload.now }
    requires room { PAYLOAD_ROOM ≤ vec_capacity shown.old }
    ensures step { (s : PairState) → HeldAs S.Sectors S.lies_in S.Image.Image held.old s
        → IsLineAnswered S.Sectors S.lies_in S.Image.Image s line payload.now shown.new.items result held.new }
    ensures count { LineStops (faults_held S.Sectors S.Image.Image held.old)
        (faults_held S.Sectors S.Image.Image held.new) result }
    ensures room { vec_capacity shown.old ≤ vec_capacity shown.new }
{
    match (&mut *held, line) {
        (_, MirrorLine::Empty) => Ok(Told::Nothing),
        (held, MirrorLine::Press { zones, scale, psa }) => {
            replace_with(held, (zones, scale, psa), press_both::<S>)
        }
        (Held::Images(_, _, _), _) => Err(Stopped::NotADisc),
        (Held::Mirror(mirror), line) => answer_on(mirror, line, payload, shown),
    }
}
