//! The handshake: the options that a client sends, and how each is answered.

ghost use Rattle.std.specs.Prelude.{◌≡◌, ℕ, ◌≤◌, ◌+◌, ◌++◌, Bool, List, [], length, vec_capacity, IfSome, IfNone};
ghost use Rattle.byteorder.specs.Endian.{big_bytes};
ghost use Rattle.model_nbd.specs.Messages.{greeting, client_flags, option_head_bytes, option_reply};
ghost use Rattle.model_nbd.specs.Handshake.{export_name_answer, export_info, list_answer, is_info_request, named_info_answer};
ghost use Rattle.model_nbd.specs.Handshake.{long_answer, short_answer};
ghost use Rattle.ram_nbd.specs.Replies.{export_of};

use model_nbd::{
    ABORT, ACKNOWLEDGED, EXPORT_FLAGS, EXPORT_NAME, FACT, GO, INFO, INVALID, LIST, MOST_BYTES,
    NextPhase, SERVER, TOO_BIG, UNKNOWN, UNSUPPORTED,
};
use ram_bytes::{get_u16, get_u32};

/// The room that the answer to an option takes at most, in bytes.
pub const ANSWER_BYTES: usize = 134;

/// The most bytes of the text that says why there is no disc.
pub const REASON_LIMIT: usize = 114;

/// The bytes of the greeting.
pub const GREETING_BYTES: usize = 18;

/// The bytes of a client's flags.
pub const CLIENT_FLAGS_BYTES: usize = 4;

/// The bytes that begin an option.
pub const OPTION_HEAD_BYTES: usize = 16;

/// The beginning of an option: its number, and how many bytes of data follow.
#[derive(Clone, Copy, Debug, PartialEq, Eq)]
pub struct OptionHead {
    /// The option.
    pub number: u32,
    /// How many bytes of data follow.
    pub length: u32,
}

/// What a client is greeted with.
pub fn greeting() -> [u8; GREETING_BYTES]
    ensures { result ≡ greeting }
{
    *b"NBDMAGICIHAVEOPT\x00\x03"
}

/// Whether the client wants the padding of EXPORT_NAME, by its flags.
///
/// # Clauses
///
/// - `some`, `none`: exact both ways.
///
/// # Answers
///
/// - `Some`, `None`: the flags are those of such a client; `None` exactly when they are those of none. (`client_flags`)
/// - `true`, `false`: `true` exactly when it wants the padding. (`client_flags`)
pub fn parse_client_flags(bytes: &[u8]) -> Option<bool>
    requires { length bytes.now ≡ 4 }
    ensures some { IfSome result (λ zeroes. bytes.now ≡ client_flags zeroes) }
    ensures none { IfNone result ((zeroes : Bool) → bytes.now ≡ client_flags zeroes → ⊥) }
{
    match bytes {
        [0, 0, 0, 1] => Some(true),
        [0, 0, 0, 3] => Some(false),
        _ => None,
    }
}

/// The beginning of an option.
///
/// # Clauses
///
/// - `some`, `none`: exact both ways.
///
/// # Answers
///
/// - `Some`, `None`: the number and the length that begin so; `None` exactly when none do. (`option_head_bytes`)
pub fn parse_option_head(bytes: &[u8]) -> Option<OptionHead>
    requires { length bytes.now ≡ 16 }
    ensures some { IfSome result (λ head. bytes.now ≡ option_head_bytes head.number head.length) }
    ensures none { IfNone result ((number length : ℕ) → bytes.now ≡ option_head_bytes number length → ⊥) }
{
    if get_u32(bytes, 0) != 0x4948_4156 || get_u32(bytes, 4) != 0x454f_5054 {
        return None;
    }
    Some(OptionHead {
        number: get_u32(bytes, 8),
        length: get_u32(bytes, 12),
    })
}

/// Appends bytes to the reply.
fn put(reply: &mut Vec<u8>, bytes: &[u8])
    requires room { length reply.old.items + length bytes.now ≤ vec_capacity reply.old }
    ensures bytes { reply.new.items ≡ reply.old.items ++ bytes.now }
    ensures len { length reply.new.items ≡ length reply.old.items + length bytes.now }
    ensures room { vec_capacity reply.old ≤ vec_capacity reply.new }
{
    match reply.extend_from_slice(bytes) {
        Ok(()) => {}
        Err(_) => unreachable!(),
    }
}

/// The head of a reply to an option: the signature, the option's number, the type of the reply, and the length of its data.
fn option_head(number: u32, kind: u32, length: u32) -> [u8; 20]
    ensures { result ≡ big_bytes 8 0x3e889045565a9 ++ big_bytes 4 number ++ big_bytes 4 kind ++ big_bytes 4 length }
{
    let [a, b, c, d] = number.to_be_bytes();
    let [e, f, g, h] = kind.to_be_bytes();
    let [i, j, k, l] = length.to_be_bytes();
    [
        0, 3, 0xe8, 0x89, 4, 0x55, 0x65, 0xa9, a, b, c, d, e, f, g, h, i, j, k, l,
    ]
}

/// Appends a reply to an option to others: the option's number, the type of the reply, and its data.
fn put_reply(reply: &mut Vec<u8>, number: u32, kind: u32, payload: &[u8])
    requires short { length payload.now ≤ 114 }
    requires room { length reply.old.items + 20 + length payload.now ≤ vec_capacity reply.old }
    ensures bytes { reply.new.items ≡ reply.old.items ++ option_reply number kind payload.now }
    ensures len { length reply.new.items ≡ length reply.old.items + 20 + length payload.now }
    ensures room { vec_capacity reply.old ≤ vec_capacity reply.new }
{
    let head = option_head(number, kind, payload.len() as u32);
    put(reply, &head);
    put(reply, payload);
}

/// INFO_EXPORT: the size of the disc in bytes, and the transmission flags.
fn export_fact(size: u64) -> [u8; 12]
    ensures { result ≡ big_bytes 2 0 ++ big_bytes 8 size ++ big_bytes 2 EXPORT_FLAGS }
{
    let [a, b, c, d, e, f, g, h] = size.to_be_bytes();
    let [i, j] = EXPORT_FLAGS.to_be_bytes();
    [0, 0, a, b, c, d, e, f, g, h, i, j]
}

/// INFO_BLOCK_SIZE: a sector at least, a block at best, and the most bytes that a request moves.
fn block_sizes() -> [u8; 14]
    ensures { result ≡ big_bytes 2 3 ++ big_bytes 4 2048 ++ big_bytes 4 32768 ++ big_bytes 4 MOST_BYTES }
{
    let [a, b, c, d] = MOST_BYTES.to_be_bytes();
    [0, 3, 0, 0, 8, 0, 0, 0, 0x80, 0, a, b, c, d]
}

/// Appends what a client is told of the disc to other bytes.
fn put_info(reply: &mut Vec<u8>, number: u32, size: u64)
    requires room { length reply.old.items + 86 ≤ vec_capacity reply.old }
    ensures bytes { reply.new.items ≡ reply.old.items ++ export_info number size }
    ensures room { vec_capacity reply.old ≤ vec_capacity reply.new }
{
    let export = export_fact(size);
    let sizes = block_sizes();
    put_reply(reply, number, FACT, &export);
    put_reply(reply, number, FACT, &sizes);
    put_reply(reply, number, ACKNOWLEDGED, &[]);
}

/// Whether the data are a name with its length and a list of 2-byte numbers with theirs, and nothing else.
fn is_info_request(payload: &[u8]) -> bool
    ensures { result ≡ is_info_request payload.now }
{
    if payload.len() < 6 {
        return false;
    }
    let name = get_u32(payload, 0) as usize;
    if payload.len() - 6 < name {
        return false;
    }
    let count = get_u16(payload, 4 + name) as usize;
    payload.len() == 6 + name + 2 * count
}

/// What EXPORT_NAME tells before the padding: the size of the disc in bytes, and the transmission flags.
fn named_head(size: u64) -> [u8; 10]
    ensures { result ≡ big_bytes 8 size ++ big_bytes 2 EXPORT_FLAGS }
{
    let [a, b, c, d, e, f, g, h] = size.to_be_bytes();
    let [i, j] = EXPORT_FLAGS.to_be_bytes();
    [a, b, c, d, e, f, g, h, i, j]
}

/// Answers EXPORT_NAME: tells of the disc, with the padding of zeros if it is wanted.
fn answer_export_name(
    size: Option<u64>,
    zeroes: bool,
    name_bytes: usize,
    reply: &mut Vec<u8>,
) -> NextPhase
    requires empty { reply.old.items ≡ [] }
    requires room { 134 ≤ vec_capacity reply.old }
    ensures answer { (why name : List ℕ) → length name ≡ name_bytes
        → record { bytes = reply.new.items; next = result } ≡ export_name_answer (export_of size why) zeroes name }
    ensures room { vec_capacity reply.old ≤ vec_capacity reply.new }
{
    let Some(size) = size else {
        return NextPhase::Violation;
    };
    if name_bytes != 0 {
        return NextPhase::Violation;
    }
    let head = named_head(size);
    put(reply, &head);
    if zeroes {
        put(reply, &[0; 124]);
    }
    NextPhase::Transmission
}

/// Answers LIST: one export, of the empty name.
fn answer_list(payload_bytes: usize, reply: &mut Vec<u8>) -> NextPhase
    requires empty { reply.old.items ≡ [] }
    requires room { 134 ≤ vec_capacity reply.old }
    ensures answer { (payload : List ℕ) → length payload ≡ payload_bytes
        → record { bytes = reply.new.items; next = result } ≡ list_answer payload }
    ensures room { vec_capacity reply.old ≤ vec_capacity reply.new }
{
    if payload_bytes != 0 {
        put_reply(reply, LIST, INVALID, &[]);
        return NextPhase::Options;
    }
    put_reply(reply, LIST, SERVER, &[0, 0, 0, 0]);
    put_reply(reply, LIST, ACKNOWLEDGED, &[]);
    NextPhase::Options
}

/// Answers INFO and GO.
fn answer_info(
    size: Option<u64>,
    reason: &[u8],
    number: u32,
    payload: &[u8],
    reply: &mut Vec<u8>,
) -> NextPhase
    requires short { length reason.now ≤ REASON_LIMIT }
    requires empty { reply.old.items ≡ [] }
    requires room { 134 ≤ vec_capacity reply.old }
    ensures answer { record { bytes = reply.new.items; next = result }
        ≡ named_info_answer (export_of size reason.now) number payload.now }
    ensures room { vec_capacity reply.old ≤ vec_capacity reply.new }
{
    if !is_info_request(payload) {
        put_reply(reply, number, INVALID, &[]);
        return NextPhase::Options;
    }
    if get_u32(payload, 0) != 0 {
        put_reply(reply, number, UNKNOWN, &[]);
        return NextPhase::Options;
    }
    let Some(size) = size else {
        put_reply(reply, number, UNKNOWN, reason);
        return NextPhase::Options;
    };
    put_info(reply, number, size);
    if number == GO {
        return NextPhase::Transmission;
    }
    NextPhase::Options
}

/// Answers an option of the handshake whose data are longer than [`OPTION_LIMIT`](model_nbd::OPTION_LIMIT). They are skipped.
///
/// # Clauses
///
/// - `answer`: the bytes of the answer, and what follows, as the definition has them.
/// - `room`: the reply keeps its room.
///
/// # Answers
///
/// - `Options`: another option is awaited. (`long_answer`)
/// - `Violation`: after EXPORT_NAME, which has no reply that says so. (`long_answer`)
/// - `Transmission`, `Left`: never. (`long_answer`)
pub fn answer_long_option(number: u32, reply: &mut Vec<u8>) -> NextPhase
    requires empty { reply.old.items ≡ [] }
    requires room { 134 ≤ vec_capacity reply.old }
    ensures answer { record { bytes = reply.new.items; next = result } ≡ long_answer number }
    ensures room { vec_capacity reply.old ≤ vec_capacity reply.new }
{
    if number == EXPORT_NAME {
        return NextPhase::Violation;
    }
    put_reply(reply, number, TOO_BIG, &[]);
    NextPhase::Options
}

/// Answers an option of the handshake, by a disc of `size` bytes, or by none, for this reason. `zeroes` says that the client wants
/// the padding of EXPORT_NAME.
///
/// # Clauses
///
/// - `answer`: the bytes of the answer, and what follows, as the definition has them.
/// - `room`: the reply keeps its room.
///
/// # Answers
///
/// - `Options`: another option is awaited. (`short_answer`)
/// - `Transmission`: after GO and EXPORT_NAME, where a disc is served under the empty name. (`named_info_answer`,
///   `export_name_answer`)
/// - `Left`: after ABORT. (`short_answer`)
/// - `Violation`: after EXPORT_NAME, where there is no disc or it has another name; nothing is replied. (`export_name_answer`)
pub fn answer_option(
    size: Option<u64>,
    reason: &[u8],
    zeroes: bool,
    number: u32,
    payload: &[u8],
    reply: &mut Vec<u8>,
) -> NextPhase
    requires short { length reason.now ≤ REASON_LIMIT }
    requires empty { reply.old.items ≡ [] }
    requires room { 134 ≤ vec_capacity reply.old }
    ensures answer { record { bytes = reply.new.items; next = result }
        ≡ short_answer (export_of size reason.now) zeroes number payload.now }
    ensures room { vec_capacity reply.old ≤ vec_capacity reply.new }
{
    if number == EXPORT_NAME {
        return answer_export_name(size, zeroes, payload.len(), reply);
    }
    if number == ABORT {
        put_reply(reply, ABORT, ACKNOWLEDGED, &[]);
        return NextPhase::Left;
    }
    if number == LIST {
        return answer_list(payload.len(), reply);
    }
    if number == INFO || number == GO {
        return answer_info(size, reason, number, payload, reply);
    }
    put_reply(reply, number, UNSUPPORTED, &[]);
    NextPhase::Options
}
