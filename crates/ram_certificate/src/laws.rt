//! The law of certificates over runs: a function with an empty body, of which the contract is the law.
ghost use Rattle.std.specs.Prelude.{◌≡◌, ℕ, Some, List};
ghost use Rattle.model_places.specs.Places.{Lists};
ghost use Rattle.model_audit.specs.declared.lines.CertificateLine.{CertificateLine};
ghost use Rattle.model_audit.specs.Reading.{lists_in};
ghost use Rattle.ram_audit.specs.Discs.{AreCertificateOf};
ghost use Rattle.ram_text.specs.declared.script.Line.TheVariants as lines;
ghost use Rattle.ram_machine.specs.Replies.{Outcome};
ghost use Rattle.ram_machine.specs.States.{State, IsFirst, kind_of};
ghost use Rattle.ram_machine.specs.LineSteps.{Step};
ghost use Rattle.ram_certificate.specs.NextRun.{MountsOrFails};

/// An image whose certificate tells lists mounts: a run over it, by the word of the kind of layout that these lists name, answers a
/// `power` that is its first line with `ready` and their capacity, and has them in use; or the image fails. Nothing is armed in such
/// a run yet, so nothing else can come between.
pub fn a_checked_image_mounts()
    ensures { (held payload data_in : List ℕ) (told : List CertificateLine) (lists : Lists) (s t : State)
        (outcome : Outcome) → AreCertificateOf held told → lists_in told ≡ Some lists
        → IsFirst held s → kind_of s ≡ lists.dds.layout
        → Step s lines.Power payload outcome data_in t → MountsOrFails lists t outcome }
{}
