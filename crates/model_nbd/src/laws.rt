//! The laws of the protocol, each the contract of a function with an empty body.
ghost use Rattle.std.specs.Prelude.{◌≡◌, ℕ, ◌+◌, ◌*◌, ◌<◌, ◌≤◌, ◌^◌, ◌==◌, if◌then◌else◌, Bool, true, false, get_or, List, [], ◌∷◌, ◌++◌, length, take, replicate};
ghost use Rattle.byteorder.specs.Endian.{big_bytes};
ghost use Rattle.model_nbd.specs.declared.Header.{Header};
ghost use Rattle.model_nbd.specs.declared.NbdOperation.TheVariants as operations;
ghost use Rattle.model_nbd.specs.declared.NextPhase.TheVariants as phases;
ghost use Rattle.model_nbd.specs.Messages.{OptionRequest, IsOptionRequest, option_bytes, IsHeader, header_bytes, Request, IsRequest, request_bytes, Splits, greeting, reply_bytes};
ghost use Rattle.model_nbd.specs.Operations.{request_asks};
ghost use Rattle.model_nbd.specs.Handshake.{Serving, Nothing, option_answer};
ghost use Rattle.model_nbd.specs.Commands.{parts, Covers, commands_of, payload_in};

/// Whatever follows, the bytes of an option, a request or a reply are those of no other; of a reply for a client that knows how
/// many bytes it asked for.
///
/// # Clauses
///
/// - `options`, `requests`, `replies`: two messages whose bytes begin the same stream are the same, and so is what follows them.
pub fn messages_have_one_reading()
    ensures options { (a b : OptionRequest) (x y : List ℕ) → IsOptionRequest a → IsOptionRequest b
        → option_bytes a ++ x ≡ option_bytes b ++ y → (a ≡ b) × (x ≡ y) }
    ensures requests { (a b : Request) (x y : List ℕ) → IsRequest a → IsRequest b
        → request_bytes a ++ x ≡ request_bytes b ++ y → (a ≡ b) × (x ≡ y) }
    ensures replies { (error other cookie name due : ℕ) (read shown x y : List ℕ) → error < 2 ^ 32 → other < 2 ^ 32
        → cookie < 2 ^ 64 → name < 2 ^ 64
        → length read ≡ (if error == 0 then due else 0) → length shown ≡ (if other == 0 then due else 0)
        → reply_bytes error cookie read ++ x ≡ reply_bytes other name shown ++ y
        → (error ≡ other) × (cookie ≡ name) × (read ≡ shown) × (x ≡ y) }
{}

/// A stream divides into requests and a rest in one way.
///
/// # Clauses
///
/// - the stream is one list of requests and one rest, and no other.
pub fn a_stream_has_one_reading()
    ensures { (stream : List ℕ) (some others : List Request) (rest left : List ℕ)
        → Splits stream some rest → Splits stream others left → (some ≡ others) × (rest ≡ left) }
{}

/// Any 28 bytes that begin with the signature of a request are a header.
///
/// # Clauses
///
/// - there is a header that has these bytes.
pub fn fields_are_read()
    ensures { (bytes : List ℕ) → length bytes ≡ 28 → ((k : ℕ) → get_or bytes k 0 < 256)
        → take 4 bytes ≡ 0x25 ∷ 0x60 ∷ 0x95 ∷ 0x13 ∷ []
        → (header : Header) × IsHeader header × (bytes ≡ header_bytes header) }
{}

/// Worked bytes.
///
/// # Clauses
///
/// - `greeting`: the 18 bytes that a client is greeted with.
/// - `read`, `operations`: a read of one sector at 64 KiB, and what it asks of a disc.
/// - `reply`: the reply that it could not be done.
/// - `go`, `structured`: the answers to GO, and to STRUCTURED_REPLY, which is not supported.
pub fn worked_bytes()
    ensures greeting { greeting ≡ 0x4e ∷ 0x42 ∷ 0x44 ∷ 0x4d ∷ 0x41 ∷ 0x47 ∷ 0x49 ∷ 0x43
        ∷ 0x49 ∷ 0x48 ∷ 0x41 ∷ 0x56 ∷ 0x45 ∷ 0x4f ∷ 0x50 ∷ 0x54 ∷ 0x00 ∷ 0x03 ∷ [] }
    ensures read { request_bytes (record {
      header = record { flags = 0; kind = 0; cookie = 0x0102030405060708; offset = 65536; len = 2048 };
      payload = [];
    })
        ≡ 0x25 ∷ 0x60 ∷ 0x95 ∷ 0x13 ∷ 0 ∷ 0 ∷ 0 ∷ 0 ∷ 1 ∷ 2 ∷ 3 ∷ 4 ∷ 5 ∷ 6 ∷ 7 ∷ 8
        ∷ 0 ∷ 0 ∷ 0 ∷ 0 ∷ 0 ∷ 1 ∷ 0 ∷ 0 ∷ 0 ∷ 0 ∷ 8 ∷ 0 ∷ [] }
    ensures operations { request_asks 32178176 (record { flags = 0; kind = 0; cookie = 0; offset = 65536; len = 2048 })
        ≡ operations.Read 32 1 }
    ensures reply { reply_bytes 5 0x0102030405060708 []
        ≡ 0x67 ∷ 0x44 ∷ 0x66 ∷ 0x98 ∷ 0 ∷ 0 ∷ 0 ∷ 5 ∷ 1 ∷ 2 ∷ 3 ∷ 4 ∷ 5 ∷ 6 ∷ 7 ∷ 8 ∷ [] }
    ensures go { option_answer (Serving 32178176) false (record { number = 7; payload = replicate 6 0 }) ≡ record {
      bytes =
          (0 ∷ 3 ∷ 0xe8 ∷ 0x89 ∷ 4 ∷ 0x55 ∷ 0x65 ∷ 0xa9 ∷ 0 ∷ 0 ∷ 0 ∷ 7 ∷ 0 ∷ 0 ∷ 0 ∷ 3 ∷ 0 ∷ 0 ∷ 0 ∷ 12
          ∷ 0 ∷ 0 ∷ 0 ∷ 0 ∷ 0 ∷ 0 ∷ 1 ∷ 0xeb ∷ 0 ∷ 0 ∷ 0 ∷ 0x5d ∷ [])
          ++ (0 ∷ 3 ∷ 0xe8 ∷ 0x89 ∷ 4 ∷ 0x55 ∷ 0x65 ∷ 0xa9 ∷ 0 ∷ 0 ∷ 0 ∷ 7 ∷ 0 ∷ 0 ∷ 0 ∷ 3 ∷ 0 ∷ 0 ∷ 0 ∷ 14
          ∷ 0 ∷ 3 ∷ 0 ∷ 0 ∷ 8 ∷ 0 ∷ 0 ∷ 0 ∷ 0x80 ∷ 0 ∷ 2 ∷ 0 ∷ 0 ∷ 0 ∷ [])
          ++ (0 ∷ 3 ∷ 0xe8 ∷ 0x89 ∷ 4 ∷ 0x55 ∷ 0x65 ∷ 0xa9 ∷ 0 ∷ 0 ∷ 0 ∷ 7 ∷ 0 ∷ 0 ∷ 0 ∷ 1 ∷ 0 ∷ 0 ∷ 0 ∷ 0 ∷ []);
      next = phases.Transmission;
    } }
    ensures structured { (zeros : Bool)
        → option_answer (Serving 32178176) zeros (record { number = 8; payload = [] }) ≡ record {
          bytes = 0 ∷ 3 ∷ 0xe8 ∷ 0x89 ∷ 4 ∷ 0x55 ∷ 0x65 ∷ 0xa9 ∷ 0 ∷ 0 ∷ 0 ∷ 8 ∷ 0x80 ∷ 0 ∷ 0 ∷ 1 ∷ 0 ∷ 0 ∷ 0 ∷ 0 ∷ [];
          next = phases.Options;
        } }
{}

/// A read, a write or a write of zeros that is not refused lies on the disc.
///
/// # Clauses
///
/// - `read`, `write`, `zero`: its bytes are those of the sectors that it is done in, and end on the disc.
pub fn what_is_asked_lies_on_the_disc()
    ensures read { (size lba n : ℕ) (header : Header) → request_asks size header ≡ operations.Read lba n
        → (header.offset ≡ 2048 * lba) × (header.len ≡ 2048 * n) × (header.offset + header.len ≤ size) }
    ensures write { (size lba n : ℕ) (fua : Bool) (header : Header)
        → request_asks size header ≡ operations.Write lba n fua
        → (header.kind ≡ 1) × (header.offset ≡ 2048 * lba) × (header.len ≡ 2048 * n)
        × (header.offset + header.len ≤ size) }
    ensures zero { (size lba n : ℕ) (fua : Bool) (header : Header)
        → request_asks size header ≡ operations.WriteZeroes lba n fua
        → (header.offset ≡ 2048 * lba) × (header.len ≡ 2048 * n) × (header.offset + header.len ≤ size) }
{}

/// The commands of a request do the whole of it.
///
/// # Clauses
///
/// - `parts`: the parts cover its sectors in rising order.
/// - `write`: the data of the commands of a write, one after another, are those of the request.
pub fn commands_cover_a_request()
    ensures parts { (lba n : ℕ) → Covers lba (parts lba n) (lba + n) }
    ensures write { (lba n : ℕ) (fua : Bool) (bytes : List ℕ) → length bytes ≡ 2048 * n
        → payload_in (commands_of (operations.Write lba n fua) bytes) ≡ bytes }
{}
