//! The laws of sessions, each the contract of a function with an empty body.
ghost use Rattle.std.specs.Prelude.{◌≡◌, ℕ, ◌<◌, ◌≤◌, ◌*◌, ◌^◌, Bool, Ok, Some, List, [], ◌++◌, length, map};
ghost use Rattle.model_cdb.specs.Decoding.{decoded};
ghost use Rattle.model_cdb.specs.declared.commands.Command.TheVariants as commands;
ghost use Rattle.model_nbd.specs.Commands.{Sectors, read_cdb, write_cdb, sync_cdb};
ghost use Rattle.model_nbd.specs.Handshake.{Export, Serving};
ghost use Rattle.model_sense.specs.declared.answer.Answer.TheVariants as answers;
ghost use Rattle.ram_text.specs.declared.script.Line.{Line};
ghost use Rattle.ram_text.specs.declared.script.Line.TheVariants as lines;
ghost use Rattle.ram_outside.specs.Conversation.{Asked};
ghost use Rattle.ram_machine.specs.declared.reply.Reply.TheVariants as replies;
ghost use Rattle.ram_machine.specs.LineSteps.{Step};
ghost use Rattle.ram_machine.specs.States.{State};
ghost use Rattle.ram_machine.specs.Runs.{Run};
ghost use Rattle.ram_machine.specs.Acknowledged.{Acknowledged};
ghost use Rattle.ram_machine.specs.declared.status.Status.{Status};
ghost use Rattle.ram_script.specs.Endings.{Aftermath};
ghost use Rattle.ram_script.specs.Progress.{Beginning};
ghost use Rattle.ram_session.specs.Doing.{Doing, step_of};
ghost use Rattle.ram_session.specs.Talk.{Phase, Message, message_bytes, MayCome, Turned, Talk, dids_in, sent_in};
ghost use Rattle.ram_session.specs.Opening.{export_after};
ghost use Rattle.ram_session.specs.Kept.{LeaveByMessages};
ghost use Rattle.ram_session.specs.Promise.{KeepsSession};
ghost use Rattle.ram_session.specs.Session.{SessionSoFar, IsToldBy, SessionStands};

/// What the messages of a client do is a run of the machine that answers a script; and so is a whole session, with the lines before the
/// greeting.
///
/// # Clauses
///
/// - `talk`: the commands of the messages lead from the first state to the last.
/// - `session`: so do the lines before the greeting and these commands, from what the image holds.
pub fn a_talk_is_a_run()
    ensures talk { (export : Export) (first last : State) (turns : List Turned) (phase : Phase)
        → Talk export first turns last phase → Doing first (dids_in turns) last }
    ensures session { (first : Beginning) (faults : List Line) (far : SessionSoFar first faults)
        → Run far.opened.start (map step_of (dids_in far.turns) ++ far.opened.steps) far.now }
{}

/// A session keeps its promise, with whatever status it ends: each sector is a register over the commands of the messages that were
/// answered, and nothing else was written than a beginning of these answers.
pub fn a_session_keeps_its_promise()
    ensures { (first : Beginning) (faults : List Line) (after : Aftermath) (status : Status)
        → SessionStands first faults after status
        → KeepsSession faults first.script first.report first.image after.written }
{}

/// The command blocks of requests ask the drive for what the requests ask.
///
/// # Clauses
///
/// - `read`, `write`, `synchronize`: the command that the block decodes to; `write` with as many data as its sectors have.
pub fn command_blocks_are_decoded()
    ensures read { (part : Sectors) → part.lba < 2 ^ 32 → part.n ≤ 1024
        → decoded (read_cdb part) [] ≡ Ok (commands.Read part.lba part.n) }
    ensures write { (part : Sectors) (fua : Bool) (bytes : List ℕ) → part.lba < 2 ^ 32 → part.n ≤ 1024
        → length bytes ≡ 2048 * part.n
        → decoded (write_cdb fua part) bytes ≡ Ok (commands.Write part.lba part.n fua) }
    ensures synchronize { decoded sync_cdb [] ≡ Ok commands.Synchronize }
{}

/// A read of a part of a request that is answered Good gives as many bytes as its sectors have.
///
/// # Clauses
///
/// - the data have 2,048 bytes for each sector.
pub fn a_good_read_gives_its_sectors()
    ensures { (s t : State) (part : Sectors) (data_in : List ℕ) → part.lba < 2 ^ 32 → part.n ≤ 1024
        → Step s (lines.Command (read_cdb part)) [] (Ok (replies.Command (read_cdb part) answers.Good)) data_in t
        → length data_in ≡ 2048 * part.n }
{}

/// What was acknowledged of a sector stays so over all messages of a client that do not write it, whatever fails and wherever the power is
/// cut.
///
/// # Clauses
///
/// - the sector is acknowledged with the same bytes after the messages as before them.
pub fn what_was_acknowledged_stays()
    ensures { (size at : ℕ) (first last : State) (turns : List Turned) (phase : Phase) (bytes : List ℕ)
        → size < 2048 * 2 ^ 32 → Talk (Serving size) first turns last phase → LeaveByMessages size at turns
        → Acknowledged first at bytes → Acknowledged last at bytes }
{}

/// What a client sends is read in one way.
///
/// # Clauses
///
/// - two talks over the same bytes, of equally many messages, have the same messages, phase and rest.
pub fn a_session_has_one_reading()
    ensures { (export : Export) (s t u v : State) (turns others : List Turned) (phase other : Phase)
        (rest left : List ℕ) → Talk export s turns t phase → Talk export u others v other → length turns ≡ length others
        → sent_in turns ++ rest ≡ sent_in others ++ left
        → (map (λ (turned : Turned). turned.message) turns ≡ map (λ (turned : Turned). turned.message) others)
        × (phase ≡ other) × (rest ≡ left) }
{}

/// Whenever more is asked for, each message of the client that has come whole is answered.
///
/// # Clauses
///
/// - a talk that is read from what the client sends, and whose next message has come whole, has fewer messages than were answered.
pub fn no_answer_is_kept_back()
    ensures { (first : Beginning) (faults : List Line) (ask : Asked) (told : IsToldBy first faults ask) (s t : State)
        (turns : List Turned) (phase : Phase) (message : Message) (more left : List ℕ)
        → Talk (export_after told.far.opened.steps) s turns t phase → MayCome phase message
        → first.script ≡ sent_in turns ++ ((message_bytes message ++ more) ++ left) → ask.left ≡ Some left
        → length turns < length told.far.turns }
{}
