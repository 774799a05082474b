//! The laws of what a client reads back.
ghost use Rattle.std.specs.Prelude.{◌≡◌, ℕ, ◌*◌, ◌^◌, ◌<◌, Option, Some, List, ◌∷◌, ◌++◌, map};
ghost use Rattle.model_nbd.specs.Handshake.{Serving};
ghost use Rattle.ram_text.specs.declared.script.Line.{Line};
ghost use Rattle.ram_machine.specs.States.{IsLeft, kind_of};
ghost use Rattle.ram_script.specs.Progress.{Beginning};
ghost use Rattle.ram_machine.specs.Register.{Register, Bytes, synchronised, HasSettled, Turns};
ghost use Rattle.ram_session.specs.Doing.{step_of};
ghost use Rattle.ram_session.specs.Talk.{Phase, Turned, TurnFollows};
ghost use Rattle.ram_session.specs.Opening.{export_after};
ghost use Rattle.ram_session.specs.Kept.{LeaveByMessages};
ghost use Rattle.ram_session.specs.Promise.{KeepsSession};
ghost use Rattle.ram_session.specs.Session.{SessionSoFar};
ghost use Rattle.ram_session_laws.specs.ReadBack.{WroteSector, ReadSector, WasFlushed, SettledSector, FaultsLeave};

/// A sector that a client wrote is read back. A message wrote it, and was told without an error; messages follow that do not write it,
/// however they were told; then a message reads it, and is told without an error. Then its data have in that sector the bytes that were
/// sent.
pub fn a_written_sector_is_read_back()
    ensures { (faults : List Line) (sent report image : List ℕ) (written : Option (List ℕ))
        (keeps : KeepsSession faults sent report image written) (size at : ℕ) (wrote read : Turned)
        (before between after : List Turned) (bytes found : List ℕ)
        → export_after keeps.opening ≡ Serving size → size < 2048 * 2 ^ 32
        → keeps.turns ≡ after ++ (read ∷ (between ++ (wrote ∷ before)))
        → WroteSector size at wrote bytes → LeaveByMessages size at between → ReadSector size at read found
        → found ≡ bytes }
{}

/// After a FLUSH that was told without an error what a sector has lasts.
///
/// # Clauses
///
/// - `registers`: its register has what it has now alone, whatever the power does.
/// - `settles`: so the bytes that it has now are settled.
pub fn a_flush_makes_values_last()
    ensures registers { (size at : ℕ) (was next : Phase) (turned : Turned) (r after : Register)
        → TurnFollows (Serving size) was turned next → WasFlushed size turned
        → Turns at r (map step_of turned.dids) after
        → after ≡ synchronised r.now r }
    ensures settles { (size at : ℕ) (was next : Phase) (turned : Turned) (r after : Register) (bytes : List ℕ)
        → TurnFollows (Serving size) was turned next → WasFlushed size turned
        → Turns at r (map step_of turned.dids) after
        → after.now ≡ Some (Bytes bytes) → HasSettled after bytes }
{}

/// What a client wrote and made to last is read back in the next session. In the first one a message wrote the sector with FUA; or one
/// wrote it or read it, and a later one made all last: a FLUSH that was told without an error, or the client's leave. No message after
/// the first of these writes the sector. The image is handed back, and a second session begins with it, whose disc has the same kind of
/// layout. If there a message that is told without an error reads the sector, and none before it wrote it, its data have the bytes that
/// the sector had.
pub fn a_settled_sector_is_read_in_the_next_session()
    ensures { (first second : Beginning) (faults others : List Line) (one : SessionSoFar first faults)
        (two : SessionSoFar second others) (size large at : ℕ) (read : Turned) (before after : List Turned)
        (bytes found : List ℕ) → export_after one.opened.steps ≡ Serving size → size < 2048 * 2 ^ 32
        → SettledSector size at one.turns bytes
        → IsLeft one.now second.image → kind_of two.opened.start ≡ kind_of one.now → FaultsLeave at others
        → export_after two.opened.steps ≡ Serving large → large < 2048 * 2 ^ 32
        → two.turns ≡ after ++ (read ∷ before) → LeaveByMessages large at before
        → ReadSector large at read found
        → found ≡ bytes }
{}
