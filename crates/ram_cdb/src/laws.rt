//! When each reason to refuse a command is the answer.
ghost use Rattle.std.specs.Prelude.{◌≡◌, ℕ, ◌↔◌, None, Ok, Err, List};
ghost use Rattle.model_commands.specs.declared.Operation.{Operation as Op};
ghost use Rattle.model_commands.specs.Commands.{operation_of};
ghost use Rattle.model_sense.specs.Sense.{sense};
ghost use Rattle.model_cdb.specs.Decoding.{decoded, decoded_as, meaning};
ghost use Rattle.ram_cdb.specs.Refusals.{HasBadField, AsksForSaved, HasBadLength, HasBadList, IsAccepted};

/// Each reason to refuse a command is the answer exactly where it applies and none before it does; and a command is asked
/// for exactly where none applies.
///
/// # Clauses
///
/// - each reason to refuse, with exactly when it is the answer, as a law about `decoded`.
pub fn refusals_have_their_causes()
    ensures unknown { (cdb payload : List ℕ)
        → (decoded cdb payload ≡ Err (sense 0x5 0x20 0x00)) ↔ (operation_of cdb ≡ None) }
    ensures field { (operation : Op) (cdb payload : List ℕ)
        → (decoded_as operation cdb payload ≡ Err (sense 0x5 0x24 0x00)) ↔ HasBadField operation cdb }
    ensures saved { (operation : Op) (cdb payload : List ℕ)
        → (decoded_as operation cdb payload ≡ Err (sense 0x5 0x39 0x00)) ↔ AsksForSaved operation cdb }
    ensures length_of_data { (operation : Op) (cdb payload : List ℕ)
        → (decoded_as operation cdb payload ≡ Err (sense 0x5 0x1a 0x00)) ↔ HasBadLength operation cdb payload }
    ensures parameters { (operation : Op) (cdb payload : List ℕ)
        → (decoded_as operation cdb payload ≡ Err (sense 0x5 0x26 0x00)) ↔ HasBadList operation cdb payload }
    ensures accepted { (operation : Op) (cdb payload : List ℕ)
        → (decoded_as operation cdb payload ≡ Ok (meaning operation cdb payload)) ↔ IsAccepted operation cdb payload }
{}
