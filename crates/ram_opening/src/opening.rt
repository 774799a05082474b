//! What is done before a client is greeted, and what it is served then.
ghost use Rattle.std.specs.Prelude.{◌≡◌, ◌≤◌, IfOk, MatchBool, List, [], ◌∷◌, length, map, replicate, vec_capacity};
ghost use Rattle.model_nbd.specs.Handshake.{Export as Told};
ghost use Rattle.ram_nbd.specs.Replies.{export_of};
ghost use Rattle.ram_nbd.specs.declared.handshake.TheConstants.{REASON_LIMIT};
ghost use Rattle.ram_text.specs.Faults.{IsFaultWord, AreFaultWords};
ghost use Rattle.ram_text.specs.declared.payload.TheConstants.{PAYLOAD_ROOM};
ghost use Rattle.ram_text.specs.declared.script.Line.{Line as Asked};
ghost use Rattle.ram_text.specs.declared.script.Line.TheVariants as lines;
ghost use Rattle.ram_machine.specs.LineSteps.{CountsUses};
ghost use Rattle.ram_machine.specs.States.{State, Served, Disc, kind_of, IsFirst};
ghost use Rattle.ram_machine.specs.Inserted.{Stands, faults_of};
ghost use Rattle.ram_script.specs.Progress.{Beginning};
ghost use Rattle.ram_session.specs.Opening.{Given, without_data, cache_on_cdb, cache_on_page, RefusesFault, served_after};
ghost use Rattle.ram_opening.specs.Faults.{ReadsAsFault, ReadAsFaults};
ghost use Rattle.ram_opening.specs.Exports.{export_size, export_reason, told_export, FitsSectors};
ghost use Rattle.ram_opening.specs.Opens.{is_disc, IsOpeningLine, OpeningCount, OpeningLineRule, OpenedTo, IsNothingYet, IsServedSo, OpensOn, SessionOpenRule};

use ram_bytes::Cdb;
use ram_machine::status::Status;
use ram_machine::{Drive, Inserted, Reply};
use ram_report::Event;
use ram_script::status_of;
use ram_text::{Line, parse_fault};

/// What a client is served.
#[derive(Clone, Copy, Debug, PartialEq, Eq)]
pub enum Export {
    /// A disc of this many bytes.
    Disc(u64),
    /// Nothing: the image holds no disc.
    NoDisc,
    /// Nothing: the disc is not formatted.
    NotFormatted,
    /// Nothing: the power was cut when it came on.
    Off,
}

impl Export {
    /// How many bytes the disc has.
    ///
    /// # Answers
    ///
    /// - `Some`, `None`: the bytes of the disc that is served; `None` exactly where none is. (`export_size`)
    pub fn size(self) -> Option<u64>
        ensures { result ≡ export_size self }
    {
        match self {
            Export::Disc(size) => Some(size),
            Export::NoDisc | Export::NotFormatted | Export::Off => None,
        }
    }

    /// Why no disc is served, as the client is told it; empty where one is.
    ///
    /// # Clauses
    ///
    /// - `text` (`export_reason`): the text.
    /// - `short`: the answer to an option has room for it.
    pub fn reason(self) -> &'static [u8]
        ensures text { result.now ≡ export_reason self }
        ensures short { length result.now ≤ REASON_LIMIT }
    {
        match self {
            Export::Disc(_) => b"",
            Export::NoDisc => b"the image holds no disc",
            Export::NotFormatted => b"the disc is not formatted",
            Export::Off => b"the power is off",
        }
    }
}

/// Does what is done before a client is greeted: over an image that holds no disc nothing; over a disc the power comes on, the attention
/// is taken, the write cache is turned on, and the faults that these words read as are made, in their order. What `data_in` holds does not
/// matter.
///
/// # Clauses
///
/// - `rule` (`SessionOpenRule`): of the faults that the words read as, from each state that a session may begin in: all lines of the opening were
///   done, and what is served then; or how the session ends.
/// - `small` (`FitsSectors`): a disc that is served has fewer than 2^32 sectors.
/// - `count` (`OpeningCount`): the image's count rose exactly where the image failed.
/// - `room`: the room stays.
///
/// # Answers
///
/// - `Ok`: the session is opened. (`SessionOpenRule`)
/// - `Disc`, `NotFormatted`, `Off`: by what the power was answered. (`served_after`)
/// - `NoDisc`: the image holds no disc. (`export_after`)
/// - `Err`: the session ends before a client is greeted. (`SessionOpenRule`)
/// - `Script`: a fault was refused: there is no such block, or no room for one more. (`EndsAtFault`)
/// - `ImageFault`: the image failed in a line. (`EndsInOpening`)
/// - `Done`, `Differs`, `Usage`, `SourceFault`, `SinkFault`, `NoMemory`, `NotADisc`: never. (`SessionOpenRule`)
pub fn open_session<D: Drive>(
    inserted: &mut Inserted<D>,
    words: &[&str],
    data_in: &mut Vec<u8>,
) -> Result<Export, Status>
    requires reads { ReadAsFaults (map (λ word. word.now) words.now) }
    requires room { PAYLOAD_ROOM ≤ vec_capacity data_in.old }
    ensures rule { (first : Beginning) (faults : List Asked)
        → AreFaultWords (map (λ word. word.now) words.now) faults
        → (start : State) → IsFirst first.image start → kind_of start ≡ first.kind
        → Stands D.Caching D.lies_in D.Image.Image inserted.old start
        → SessionOpenRule first faults (Stands D.Caching D.lies_in D.Image.Image inserted.new) result }
    ensures small { IfOk result FitsSectors }
    ensures count { OpeningCount (faults_of D.Caching D.Image.Image inserted.old)
        (faults_of D.Caching D.Image.Image inserted.new) result }
    ensures room { vec_capacity data_in.old ≤ vec_capacity data_in.new }
{
    if !holds_disc(inserted) {
        return Ok(Export::NoDisc);
    }
    let export = match turn_on(inserted, data_in) {
        Ok(export) => export,
        Err(status) => return Err(status),
    };
    match prepare(inserted, data_in) {
        Ok(()) => {}
        Err(status) => return Err(status),
    }
    match make_faults(inserted, words, data_in) {
        Ok(()) => Ok(export),
        Err(status) => Err(status),
    }
}

/// Whether a disc lies in the drive.
fn holds_disc<D: Drive>(inserted: &Inserted<D>) -> bool
    ensures { (s : State) → Stands D.Caching D.lies_in D.Image.Image inserted.now s → result ≡ is_disc s }
{
    match inserted {
        Inserted::Image(_, _) => false,
        Inserted::Disc(_, _, _) => true,
    }
}

/// Turns the power on, and tells what is served.
fn turn_on<D: Drive>(inserted: &mut Inserted<D>, data_in: &mut Vec<u8>) -> Result<Export, Status>
    requires room { PAYLOAD_ROOM ≤ vec_capacity data_in.old }
    ensures rule { (first : Beginning) (faults : List Asked) (rest : List Given)
        → OpenedTo first faults IsNothingYet (Stands D.Caching D.lies_in D.Image.Image inserted.old)
        (without_data lines.Power ∷ rest)
        → OpensOn first faults told_export (Stands D.Caching D.lies_in D.Image.Image inserted.new) rest result }
    ensures small { IfOk result FitsSectors }
    ensures count { OpeningCount (faults_of D.Caching D.Image.Image inserted.old)
        (faults_of D.Caching D.Image.Image inserted.new) result }
    ensures room { vec_capacity data_in.old ≤ vec_capacity data_in.new }
{
    match do_line(inserted, Line::Power, &[], data_in) {
        Ok(reply) => Ok(served_after(&reply)),
        Err(status) => Err(status),
    }
}

/// Takes the attention, and turns the write cache on.
fn prepare<D: Drive>(inserted: &mut Inserted<D>, data_in: &mut Vec<u8>) -> Result<(), Status>
    requires room { PAYLOAD_ROOM ≤ vec_capacity data_in.old }
    ensures rule { (first : Beginning) (faults : List Asked) (export : Told) (rest : List Given)
        → OpenedTo first faults (IsServedSo export) (Stands D.Caching D.lies_in D.Image.Image inserted.old)
        (without_data (lines.Command (replicate 6 0))
        ∷ record { line = lines.Command cache_on_cdb; payload = cache_on_page } ∷ rest)
        → OpensOn first faults (λ done. export) (Stands D.Caching D.lies_in D.Image.Image inserted.new) rest
        result }
    ensures count { OpeningCount (faults_of D.Caching D.Image.Image inserted.old)
        (faults_of D.Caching D.Image.Image inserted.new) result }
    ensures room { vec_capacity data_in.old ≤ vec_capacity data_in.new }
{
    match do_command(inserted, test_unit_ready(), &[], data_in) {
        Ok(()) => {}
        Err(status) => return Err(status),
    }
    do_command(inserted, mode_select(), &cache_on_page(), data_in)
}

/// TEST UNIT READY.
fn test_unit_ready() -> Cdb
    ensures { result ≡ replicate 6 0 }
{
    match Cdb::from_bytes(&[0; 6]) {
        Some(cdb) => cdb,
        None => unreachable!(),
    }
}

/// MODE SELECT(10) of the caching page.
fn mode_select() -> Cdb
    ensures { result ≡ cache_on_cdb }
{
    match Cdb::from_bytes(&[0x55, 0x10, 0, 0, 0, 0, 0, 0, 20, 0]) {
        Some(cdb) => cdb,
        None => unreachable!(),
    }
}

/// The caching page with the write cache on, after its header.
fn cache_on_page() -> [u8; 20]
    ensures { result ≡ cache_on_page }
{
    [0, 0, 0, 0, 0, 0, 0, 0, 8, 10, 4, 0, 0, 0, 0, 0, 0, 0, 0, 0]
}

/// Does a command before the greeting. How it is answered does not matter: the lines go on.
fn do_command<D: Drive>(
    inserted: &mut Inserted<D>,
    cdb: Cdb,
    payload: &[u8],
    data_in: &mut Vec<u8>,
) -> Result<(), Status>
    requires room { PAYLOAD_ROOM ≤ vec_capacity data_in.old }
    ensures rule { (first : Beginning) (faults : List Asked) (export : Told) (rest : List Given)
        → OpenedTo first faults (IsServedSo export) (Stands D.Caching D.lies_in D.Image.Image inserted.old)
        (record { line = lines.Command cdb; payload = payload.now } ∷ rest)
        → OpensOn first faults (λ done. export) (Stands D.Caching D.lies_in D.Image.Image inserted.new) rest
        result }
    ensures count { OpeningCount (faults_of D.Caching D.Image.Image inserted.old)
        (faults_of D.Caching D.Image.Image inserted.new) result }
    ensures room { vec_capacity data_in.old ≤ vec_capacity data_in.new }
{
    match do_line(inserted, Line::Command { cdb }, payload, data_in) {
        Ok(_) => Ok(()),
        Err(status) => Err(status),
    }
}

/// Makes the faults that these words read as, up to the first that is refused.
fn make_faults<D: Drive>(
    inserted: &mut Inserted<D>,
    words: &[&str],
    data_in: &mut Vec<u8>,
) -> Result<(), Status>
    requires reads { ReadAsFaults (map (λ word. word.now) words.now) }
    requires room { PAYLOAD_ROOM ≤ vec_capacity data_in.old }
    ensures rule { (first : Beginning) (faults : List Asked)
        → AreFaultWords (map (λ word. word.now) words.now) faults
        → (export : Told)
        → OpenedTo first faults (IsServedSo export) (Stands D.Caching D.lies_in D.Image.Image inserted.old)
        (map without_data faults)
        → OpensOn first faults (λ done. export) (Stands D.Caching D.lies_in D.Image.Image inserted.new) []
        result }
    ensures count { OpeningCount (faults_of D.Caching D.Image.Image inserted.old)
        (faults_of D.Caching D.Image.Image inserted.new) result }
    ensures room { vec_capacity data_in.old ≤ vec_capacity data_in.new }
{
    for word in words {
        match make_fault(inserted, word, data_in) {
            Ok(()) => {}
            Err(status) => return Err(status),
        }
    }
    Ok(())
}

/// Makes the fault that this word reads as.
fn make_fault<D: Drive>(
    inserted: &mut Inserted<D>,
    word: &str,
    data_in: &mut Vec<u8>,
) -> Result<(), Status>
    requires reads { ReadsAsFault word.now }
    requires room { PAYLOAD_ROOM ≤ vec_capacity data_in.old }
    ensures rule { (first : Beginning) (faults : List Asked) (export : Told) (fault : Asked) (rest : List Given)
        → IsFaultWord word.now fault
        → OpenedTo first faults (IsServedSo export) (Stands D.Caching D.lies_in D.Image.Image inserted.old)
        (without_data fault ∷ rest)
        → OpensOn first faults (λ done. export) (Stands D.Caching D.lies_in D.Image.Image inserted.new) rest
        result }
    ensures count { OpeningCount (faults_of D.Caching D.Image.Image inserted.old)
        (faults_of D.Caching D.Image.Image inserted.new) result }
    ensures room { vec_capacity data_in.old ≤ vec_capacity data_in.new }
{
    match do_line(inserted, line_of(word), &[], data_in) {
        Ok(reply) => {
            if refuses_fault(&reply) {
                Err(Status::Script)
            } else {
                Ok(())
            }
        }
        Err(status) => Err(status),
    }
}

/// The line of a word that reads as a fault.
fn line_of(word: &str) -> Line
    requires reads { ReadsAsFault word.now }
    ensures only { (line : Asked) → IsFaultWord word.now line → result ≡ line }
    ensures opens { IsOpeningLine result }
    ensures uses { CountsUses result }
{
    match parse_fault(word.as_bytes()) {
        Some(line) => line,
        None => unreachable!(),
    }
}

/// Does a line before the greeting, with its data in `payload`.
fn do_line<D: Drive>(
    inserted: &mut Inserted<D>,
    line: Line,
    payload: &[u8],
    data_in: &mut Vec<u8>,
) -> Result<Reply, Status>
    requires opens { IsOpeningLine line }
    requires uses { CountsUses line }
    requires room { PAYLOAD_ROOM ≤ vec_capacity data_in.old }
    ensures rule { (s : Served) → Stands D.Caching D.lies_in D.Image.Image inserted.old (Disc s)
        → OpeningLineRule (Stands D.Caching D.lies_in D.Image.Image inserted.new) s
        (record { line = line; payload = payload.now }) result }
    ensures count { OpeningCount (faults_of D.Caching D.Image.Image inserted.old)
        (faults_of D.Caching D.Image.Image inserted.new) result }
    ensures room { vec_capacity data_in.old ≤ vec_capacity data_in.new }
{
    match inserted.answer(line, payload, data_in) {
        Ok(reply) => Ok(reply),
        Err(stopped) => Err(status_of(Err(stopped))),
    }
}

/// What is served after the power was answered so.
fn served_after(reply: &Reply) -> Export
    ensures told { told_export result ≡ served_after reply.now }
    ensures small { FitsSectors result }
{
    match reply {
        Reply::Event(Event::Ready { capacity }) => Export::Disc(2_048 * *capacity as u64),
        Reply::Event(Event::NotFormatted) => Export::NotFormatted,
        _ => Export::Off,
    }
}

/// Whether the drive has no such block, or no room for one more.
fn refuses_fault(reply: &Reply) -> bool
    ensures { MatchBool result (RefusesFault reply.now) (¬ RefusesFault reply.now) }
{
    match reply {
        Reply::Event(Event::NoSuchBlock | Event::Full) => true,
        _ => false,
    }
}
