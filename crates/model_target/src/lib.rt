//! What a target remembers for its host, which commands it does, and what it replies. Definitions, and their laws.
#![tactic(auto)]

ghost use Rattle.std.specs.Prelude.{◌≡◌, ◌≤◌, ℕ, Bool, List, ◌∷◌, [], true, false, None, Some, length};
ghost use Rattle.model_sense.specs.Sense.{sense, sense_at};
ghost use Rattle.model_sense.specs.declared.sense.Sense.{Sense as AnySense};
ghost use Rattle.model_commands.specs.declared.Operation.TheVariants.{TestUnitReady, Inquiry};
ghost use Rattle.model_target.specs.declared.host.Host.{Host};
ghost use Rattle.model_target.specs.Host.{powered_on, sense_told, attention_after};
ghost use Rattle.model_sense.specs.declared.answer.Answer.{Answer as Answered};
ghost use Rattle.model_sense.specs.declared.answer.Answer.TheVariants as answers;
ghost use Rattle.model_drive.specs.Shown.{Shown, IsOn};
ghost use Rattle.model_drive.specs.Writes.{LacksSpare};
ghost use Rattle.model_drive.specs.Course.{IsUsable};
ghost use Rattle.model_sectors.specs.Requests.{block_with};
ghost use Rattle.model_cache.specs.Values.{Contents};
ghost use Rattle.model_cache.specs.Shown.{CacheShown, CacheStandsFor};
ghost use Rattle.model_target.specs.Steps.{IsStep, AnswerFaults};
ghost use Rattle.model_commands.specs.declared.Operation.{Operation};
ghost use Rattle.model_commands.specs.Commands.{command, operation_of};
ghost use Rattle.model_target.specs.Senses.{IsKnownSense};
ghost use Rattle.model_target.specs.Replies.{inquiry_by, capacity_reply, configuration_reply, events_reply, disc_reply, format_capacities_reply, spares_reply};

pub mod host;

pub use host::Host;

/// After a power on the attention is what REQUEST SENSE tells; an unknown code leaves it, and the first command that is
/// told of it clears it. (Where the attention is told no command is done.)
pub fn a_power_on_is_told()
    ensures told { sense_told powered_on ≡ sense 0x6 0x29 0x00 }
    ensures unknown { attention_after powered_on None ≡ true }
    ensures cleared { attention_after powered_on (Some TestUnitReady) ≡ false }
    ensures kept { attention_after powered_on (Some Inquiry) ≡ true }
{}

/// With the power off nothing is done, and the four things stay.
pub fn nothing_is_done_with_the_power_off()
    ensures { (old new : CacheShown) (host later : Host) (cdb payload : List ℕ) (answer : Answered) (data_in : List ℕ)
        → ¬ IsOn old.drive → IsStep old new (CacheStandsFor old) (CacheStandsFor new) host later cdb payload
        answer data_in
        → (answer ≡ answers.Off) × (later ≡ host) × (new ≡ old) × (data_in ≡ []) }
{}

/// What a drive stands for after a command is one thing: a caller that needs it finds it in the step.
pub fn commands_leave_a_state()
    ensures { (old new : CacheShown) (host later : Host) (cdb payload : List ℕ)
        (answer : Answered) (data_in : List ℕ) (s : Contents) → CacheStandsFor old s
        → IsStep old new (CacheStandsFor old) (CacheStandsFor new) host later cdb payload answer data_in
        → (t : Contents) × CacheStandsFor new t
        × IsStep old new (λ x. x ≡ s) (λ x. x ≡ t) host later cdb payload answer data_in }
{}

/// A command that answers Fault counts it, and no other command counts a fault.
pub fn a_command_that_fails_counts_it()
    ensures { (old new : CacheShown) (host later : Host) (cdb payload : List ℕ)
        (answer : Answered) (data_in : List ℕ)
        → IsStep old new (CacheStandsFor old) (CacheStandsFor new) host later cdb payload answer data_in
        → AnswerFaults old.drive new.drive answer }
{}

/// A command that is done has as many bytes as the table says at least.
pub fn a_command_that_is_done_is_whole()
    ensures { (old new : CacheShown) (host later : Host) (cdb payload data_in : List ℕ)
        (operation : Operation) → operation_of cdb ≡ Some operation
        → IsStep old new (CacheStandsFor old) (CacheStandsFor new) host later cdb payload answers.Good data_in
        → (command operation).bytes ≤ length cdb }
{}

/// A command that is checked has one of fourteen senses, which rise by their numbers.
pub fn a_command_that_is_checked_has_a_known_sense()
    ensures { (old new : CacheShown) (host later : Host) (cdb payload data_in : List ℕ)
        (why : AnySense) → IsStep old new (CacheStandsFor old) (CacheStandsFor new) host later cdb payload
        (answers.Check why) data_in
        → IsKnownSense why }
{}

/// A command that is told that no spare is left (3/32/00) made a write that found none for a block, of a disc that showed
/// something then: one of its own, or one of a pending block. And none can be used for that block at its end.
pub fn a_command_lacks_a_spare_where_a_write_does()
    ensures { (old new : CacheShown) (host later : Host) (cdb payload data_in : List ℕ)
        (named : ℕ) → IsStep old new (CacheStandsFor old) (CacheStandsFor new) host later cdb payload
        (answers.Check (sense_at 0x3 0x32 0x00 named)) data_in
        → ((before then : Shown) × (lba n : ℕ) × LacksSpare before then lba n named)
        × ((spare : ℕ) → ¬ IsUsable new.drive (block_with named) spare) }
{}

/// The replies of INQUIRY and of its list of vital product data, of READ CAPACITY with 304 sectors, of READ FORMAT CAPACITIES with 304
/// sectors (formatted and in place, not formatted, and out), and of READ DVD STRUCTURE with three free primary spares and no
/// supplementary ones.
pub fn worked_replies()
    ensures inquiry { inquiry_by false
        ≡ 0x05 ∷ 0x80 ∷ 0x00 ∷ 0x02 ∷ 0x1f ∷ 0x00 ∷ 0x00 ∷ 0x00 ∷ 0x44 ∷ 0x56 ∷ 0x44 ∷ 0x52 ∷ 0x41 ∷ 0x4d
        ∷ 0x20 ∷ 0x20 ∷ 0x53 ∷ 0x45 ∷ 0x43 ∷ 0x54 ∷ 0x4f ∷ 0x52 ∷ 0x20 ∷ 0x44 ∷ 0x52 ∷ 0x49 ∷ 0x56 ∷ 0x45
        ∷ 0x20 ∷ 0x20 ∷ 0x20 ∷ 0x20 ∷ 0x31 ∷ 0x2e ∷ 0x30 ∷ 0x30 ∷ [] }
    ensures vital { inquiry_by true ≡ 0x05 ∷ 0x00 ∷ 0x00 ∷ 0x01 ∷ 0x00 ∷ [] }
    ensures capacity { capacity_reply 304 ≡ 0x00 ∷ 0x00 ∷ 0x01 ∷ 0x2f ∷ 0x00 ∷ 0x00 ∷ 0x08 ∷ 0x00 ∷ [] }
    ensures formatted { format_capacities_reply false true 272 304
        ≡ 0x00 ∷ 0x00 ∷ 0x00 ∷ 0x10 ∷ 0x00 ∷ 0x00 ∷ 0x01 ∷ 0x10 ∷ 0x02 ∷ 0x00 ∷ 0x08 ∷ 0x00 ∷ 0x00 ∷ 0x00
        ∷ 0x01 ∷ 0x30 ∷ 0x00 ∷ 0x00 ∷ 0x08 ∷ 0x00 ∷ [] }
    ensures not_formatted { format_capacities_reply false false 0 304
        ≡ 0x00 ∷ 0x00 ∷ 0x00 ∷ 0x10 ∷ 0x00 ∷ 0x00 ∷ 0x01 ∷ 0x30 ∷ 0x01 ∷ 0x00 ∷ 0x08 ∷ 0x00 ∷ 0x00 ∷ 0x00
        ∷ 0x01 ∷ 0x30 ∷ 0x00 ∷ 0x00 ∷ 0x08 ∷ 0x00 ∷ [] }
    ensures out { (formatted : Bool) (capacity : ℕ) → format_capacities_reply true formatted capacity 304
        ≡ 0x00 ∷ 0x00 ∷ 0x00 ∷ 0x08 ∷ 0x00 ∷ 0x00 ∷ 0x01 ∷ 0x30 ∷ 0x03 ∷ 0x00 ∷ 0x08 ∷ 0x00 ∷ [] }
    ensures spares { spares_reply 3 0 0 ≡ 0x00 ∷ 0x0e ∷ 0x00 ∷ 0x00 ∷ 0x00 ∷ 0x00 ∷ 0x00 ∷ 0x03
        ∷ 0x00 ∷ 0x00 ∷ 0x00 ∷ 0x00 ∷ 0x00 ∷ 0x00 ∷ 0x00 ∷ 0x00 ∷ [] }
{}

/// The replies of GET CONFIGURATION with a formatted disc of 304 sectors: of all features from the first one on, and, without a
/// formatted disc or without any, of those that are current; of the feature of random writing alone, which is there in each case; of
/// one that there is not; and of the features from 0024h on.
pub fn worked_features()
    ensures whole { configuration_reply 0 0 false true 304
        ≡ 0x00 ∷ 0x00 ∷ 0x00 ∷ 0x50 ∷ 0x00 ∷ 0x00 ∷ 0x00 ∷ 0x12 ∷ 0x00 ∷ 0x00 ∷ 0x03 ∷ 0x04 ∷ 0x00 ∷ 0x12
        ∷ 0x01 ∷ 0x00 ∷ 0x00 ∷ 0x01 ∷ 0x03 ∷ 0x04 ∷ 0x00 ∷ 0x00 ∷ 0x00 ∷ 0x01 ∷ 0x00 ∷ 0x02 ∷ 0x03 ∷ 0x04
        ∷ 0x00 ∷ 0x00 ∷ 0x00 ∷ 0x00 ∷ 0x00 ∷ 0x03 ∷ 0x03 ∷ 0x04 ∷ 0x29 ∷ 0x00 ∷ 0x00 ∷ 0x00 ∷ 0x00 ∷ 0x10
        ∷ 0x01 ∷ 0x08 ∷ 0x00 ∷ 0x00 ∷ 0x08 ∷ 0x00 ∷ 0x00 ∷ 0x10 ∷ 0x01 ∷ 0x00 ∷ 0x00 ∷ 0x1f ∷ 0x01 ∷ 0x00
        ∷ 0x00 ∷ 0x20 ∷ 0x05 ∷ 0x0c ∷ 0x00 ∷ 0x00 ∷ 0x01 ∷ 0x2f ∷ 0x00 ∷ 0x00 ∷ 0x08 ∷ 0x00 ∷ 0x00 ∷ 0x10
        ∷ 0x01 ∷ 0x00 ∷ 0x00 ∷ 0x23 ∷ 0x01 ∷ 0x00 ∷ 0x00 ∷ 0x24 ∷ 0x05 ∷ 0x04 ∷ 0x80 ∷ 0x00 ∷ 0x00 ∷ 0x00 ∷ [] }
    ensures blank { configuration_reply 1 0 false false 0
        ≡ 0x00 ∷ 0x00 ∷ 0x00 ∷ 0x30 ∷ 0x00 ∷ 0x00 ∷ 0x00 ∷ 0x12 ∷ 0x00 ∷ 0x00 ∷ 0x03 ∷ 0x04 ∷ 0x00 ∷ 0x12
        ∷ 0x01 ∷ 0x00 ∷ 0x00 ∷ 0x01 ∷ 0x03 ∷ 0x04 ∷ 0x00 ∷ 0x00 ∷ 0x00 ∷ 0x01 ∷ 0x00 ∷ 0x02 ∷ 0x03 ∷ 0x04
        ∷ 0x00 ∷ 0x00 ∷ 0x00 ∷ 0x00 ∷ 0x00 ∷ 0x03 ∷ 0x03 ∷ 0x04 ∷ 0x29 ∷ 0x00 ∷ 0x00 ∷ 0x00 ∷ 0x00 ∷ 0x23
        ∷ 0x01 ∷ 0x00 ∷ 0x00 ∷ 0x24 ∷ 0x05 ∷ 0x04 ∷ 0x80 ∷ 0x00 ∷ 0x00 ∷ 0x00 ∷ [] }
    ensures taken_out { (formatted : Bool) (capacity : ℕ) → configuration_reply 1 0 true formatted capacity
        ≡ 0x00 ∷ 0x00 ∷ 0x00 ∷ 0x24 ∷ 0x00 ∷ 0x00 ∷ 0x00 ∷ 0x00 ∷ 0x00 ∷ 0x00 ∷ 0x03 ∷ 0x04 ∷ 0x00 ∷ 0x12
        ∷ 0x00 ∷ 0x00 ∷ 0x00 ∷ 0x01 ∷ 0x03 ∷ 0x04 ∷ 0x00 ∷ 0x00 ∷ 0x00 ∷ 0x01 ∷ 0x00 ∷ 0x02 ∷ 0x03 ∷ 0x04
        ∷ 0x00 ∷ 0x00 ∷ 0x00 ∷ 0x00 ∷ 0x00 ∷ 0x03 ∷ 0x03 ∷ 0x04 ∷ 0x29 ∷ 0x00 ∷ 0x00 ∷ 0x00 ∷ [] }
    ensures writable { configuration_reply 2 0x20 false true 304
        ≡ 0x00 ∷ 0x00 ∷ 0x00 ∷ 0x14 ∷ 0x00 ∷ 0x00 ∷ 0x00 ∷ 0x12 ∷ 0x00 ∷ 0x20 ∷ 0x05 ∷ 0x0c ∷ 0x00 ∷ 0x00
        ∷ 0x01 ∷ 0x2f ∷ 0x00 ∷ 0x00 ∷ 0x08 ∷ 0x00 ∷ 0x00 ∷ 0x10 ∷ 0x01 ∷ 0x00 ∷ [] }
    ensures writable_out { (formatted : Bool) (capacity : ℕ) → configuration_reply 2 0x20 true formatted capacity
        ≡ 0x00 ∷ 0x00 ∷ 0x00 ∷ 0x14 ∷ 0x00 ∷ 0x00 ∷ 0x00 ∷ 0x00 ∷ 0x00 ∷ 0x20 ∷ 0x04 ∷ 0x0c ∷ 0x00 ∷ 0x00
        ∷ 0x00 ∷ 0x00 ∷ 0x00 ∷ 0x00 ∷ 0x08 ∷ 0x00 ∷ 0x00 ∷ 0x10 ∷ 0x01 ∷ 0x00 ∷ [] }
    ensures writable_blank { configuration_reply 2 0x20 false false 0
        ≡ 0x00 ∷ 0x00 ∷ 0x00 ∷ 0x14 ∷ 0x00 ∷ 0x00 ∷ 0x00 ∷ 0x12 ∷ 0x00 ∷ 0x20 ∷ 0x04 ∷ 0x0c ∷ 0x00 ∷ 0x00
        ∷ 0x00 ∷ 0x00 ∷ 0x00 ∷ 0x00 ∷ 0x08 ∷ 0x00 ∷ 0x00 ∷ 0x10 ∷ 0x01 ∷ 0x00 ∷ [] }
    ensures missing { (formatted : Bool) (capacity : ℕ) → configuration_reply 2 0x28 false formatted capacity
        ≡ 0x00 ∷ 0x00 ∷ 0x00 ∷ 0x04 ∷ 0x00 ∷ 0x00 ∷ 0x00 ∷ 0x12 ∷ [] }
    ensures last { (formatted : Bool) (capacity : ℕ) → configuration_reply 0 0x24 true formatted capacity
        ≡ 0x00 ∷ 0x00 ∷ 0x00 ∷ 0x0c ∷ 0x00 ∷ 0x00 ∷ 0x00 ∷ 0x00 ∷ 0x00 ∷ 0x24 ∷ 0x04 ∷ 0x04 ∷ 0x80 ∷ 0x00
        ∷ 0x00 ∷ 0x00 ∷ [] }
{}

/// The replies of GET EVENT STATUS NOTIFICATION with the disc in, with it out, and for other events than those of the medium; and of
/// READ DISC INFORMATION with a formatted disc, and with one that is not formatted.
pub fn worked_states()
    ensures in_place { events_reply true false ≡ 0x00 ∷ 0x06 ∷ 0x04 ∷ 0x10 ∷ 0x00 ∷ 0x02 ∷ 0x00 ∷ 0x00 ∷ [] }
    ensures taken_out { events_reply true true ≡ 0x00 ∷ 0x06 ∷ 0x04 ∷ 0x10 ∷ 0x00 ∷ 0x01 ∷ 0x00 ∷ 0x00 ∷ [] }
    ensures others { (out : Bool) → events_reply false out ≡ 0x00 ∷ 0x02 ∷ 0x80 ∷ 0x10 ∷ [] }
    ensures formatted { disc_reply true
        ≡ 0x00 ∷ 0x20 ∷ 0x1f ∷ 0x01 ∷ 0x01 ∷ 0x01 ∷ 0x01 ∷ 0x20 ∷ 0x00 ∷ 0x00 ∷ 0x00 ∷ 0x00 ∷ 0x00 ∷ 0x00
        ∷ 0x00 ∷ 0x00 ∷ 0x00 ∷ 0x00 ∷ 0x00 ∷ 0x00 ∷ 0x00 ∷ 0x00 ∷ 0x00 ∷ 0x00 ∷ 0x00 ∷ 0x00 ∷ 0x00 ∷ 0x00
        ∷ 0x00 ∷ 0x00 ∷ 0x00 ∷ 0x00 ∷ 0x00 ∷ 0x00 ∷ [] }
    ensures not_formatted { disc_reply false
        ≡ 0x00 ∷ 0x20 ∷ 0x10 ∷ 0x01 ∷ 0x01 ∷ 0x01 ∷ 0x01 ∷ 0x20 ∷ 0x00 ∷ 0x00 ∷ 0x00 ∷ 0x00 ∷ 0x00 ∷ 0x00
        ∷ 0x00 ∷ 0x00 ∷ 0x00 ∷ 0x00 ∷ 0x00 ∷ 0x00 ∷ 0x00 ∷ 0x00 ∷ 0x00 ∷ 0x00 ∷ 0x00 ∷ 0x00 ∷ 0x00 ∷ 0x00
        ∷ 0x00 ∷ 0x00 ∷ 0x00 ∷ 0x00 ∷ 0x00 ∷ 0x00 ∷ [] }
{}
