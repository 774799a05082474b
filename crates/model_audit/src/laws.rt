//! The laws of certificates: functions with an empty body, of which the contract is the law.

ghost use Rattle.std.specs.Prelude.{◌≡◌, ℕ, ◌+◌, ◌≤◌, Some, List};
ghost use Rattle.model_geometry.specs.Geometry.{Shape};
ghost use Rattle.model_geometry.specs.declared.kinds.LayoutKind.TheVariants.{OneGroup};
ghost use Rattle.model_medium.specs.Cells.{Cell};
ghost use Rattle.model_sectors.specs.Requests.{block_with, blocks_covered};
ghost use Rattle.model_sectors.specs.declared.ReadOut.{ReadOut};
ghost use Rattle.model_sectors.specs.declared.ReadOut.TheVariants as reads;
ghost use Rattle.model_sectors.specs.declared.PowerOut.{PowerOut};
ghost use Rattle.model_sectors.specs.declared.PowerOut.TheVariants as powers;
ghost use Rattle.model_copies.specs.Parts.{Mark};
ghost use Rattle.model_places.specs.Places.{Lists, capacity_of};
ghost use Rattle.model_places.specs.Valid.{AreValid};
ghost use Rattle.model_volume.specs.Given.{AreChosen, AreSettled};
ghost use Rattle.model_drive.specs.Shown.{Shown, IsKnown, cells_in};
ghost use Rattle.model_drive.specs.Sound.{IsSound};
ghost use Rattle.model_drive.specs.Power.{PowerCause};
ghost use Rattle.model_drive.specs.Reads.{ReadCause};
ghost use Rattle.model_audit.specs.declared.lines.CertificateLine.{CertificateLine};
ghost use Rattle.model_audit.specs.Text.{text_of, HaveNumbers};
ghost use Rattle.model_audit.specs.Certificate.{in_kind, IsCertificate};
ghost use Rattle.model_audit.specs.Reading.{lists_in, shape_named, IsUndisturbed, NoneLost, AreExactOrDead, AreAllExact, MountsByReading};

/// Whatever cells a disc has, it has a certificate, where it has a mark, which each choice finds.
pub fn a_disc_has_a_certificate()
    ensures { (shape : Shape) (cells : List Cell) (mark : ℕ) → Mark (in_kind OneGroup shape) cells mark
        → (told : List CertificateLine) × IsCertificate shape cells told }
{}

/// A disc has one certificate at most.
pub fn a_disc_has_one_certificate()
    ensures { (shape : Shape) (cells : List Cell) (one two : List CertificateLine)
        → IsCertificate shape cells one → IsCertificate shape cells two → one ≡ two }
{}

/// The lists that a certificate tells are those that are chosen, and valid, under the kind of layout that they name.
pub fn a_certificate_is_read_back()
    ensures { (shape : Shape) (cells : List Cell) (told : List CertificateLine) (lists : Lists)
        → IsCertificate shape cells told → lists_in told ≡ Some lists
        → AreChosen (shape_named shape lists) cells lists × AreValid (shape_named shape lists) lists }
{}

/// A disc whose certificate tells lists is mounted with these, undisturbed, by a drive for discs of the kind that they name.
pub fn a_certified_disc_mounts()
    ensures { (old new : Shown) (told : List CertificateLine) (lists : Lists) (out : PowerOut) → IsKnown old
        → new.shape ≡ old.shape
        → IsCertificate old.shape (cells_in old) told → lists_in told ≡ Some lists
        → lists.dds.layout ≡ old.shape.layout
        → PowerCause old new out → IsUndisturbed old new
        → (new.lists ≡ Some lists) × (out ≡ powers.Ready (capacity_of old.shape lists)) }
{}

/// Right after that mount a read of blocks of which none is told as lost ends well, undisturbed.
pub fn a_block_that_is_not_lost_reads()
    ensures { (old mid new : Shown) (told : List CertificateLine) (lists : Lists) (known lba n : ℕ) (out : ReadOut)
        → IsKnown old → IsKnown mid → mid.shape ≡ old.shape → new.shape ≡ old.shape
        → IsCertificate old.shape (cells_in old) told → lists_in told ≡ Some lists
        → lists.dds.layout ≡ old.shape.layout
        → PowerCause old mid (powers.Ready known) → IsUndisturbed old mid
        → lba + n ≤ known → NoneLost told (block_with lba) (blocks_covered lba n)
        → ReadCause mid new lba n out → IsUndisturbed mid new
        → out ≡ reads.Good }
{}

/// Where each copy that a certificate tells is exact or dead, the lists are settled.
pub fn exact_and_dead_copies_are_settled()
    ensures { (shape : Shape) (cells : List Cell) (told : List CertificateLine) (lists : Lists)
        → IsCertificate shape cells told → lists_in told ≡ Some lists → AreExactOrDead told
        → AreSettled (shape_named shape lists) cells lists }
{}

/// A text is that of one list of lines at most, where the numbers have 64 bits.
pub fn a_text_has_one_reading()
    ensures { (one two : List CertificateLine) → HaveNumbers one → HaveNumbers two
        → text_of one ≡ text_of two → one ≡ two }
{}

/// Where all copies are told as exact, the mount writes nothing, undisturbed.
pub fn an_exact_certificate_mounts_without_a_write()
    ensures { (old new : Shown) (told : List CertificateLine) (lists : Lists) (known : ℕ) → IsKnown old
        → new.shape ≡ old.shape → IsSound new
        → IsCertificate old.shape (cells_in old) told → lists_in told ≡ Some lists
        → lists.dds.layout ≡ old.shape.layout → AreAllExact told
        → PowerCause old new (powers.Ready known) → IsUndisturbed old new → MountsByReading old new lists.sdl }
{}
