//! Worked texts: functions with an empty body, of which the contract is the text.

ghost use Rattle.std.specs.Prelude.{◌≡◌, [], ◌∷◌, codes};
ghost use Rattle.model_geometry.specs.declared.kinds.LayoutKind.TheVariants.{OneGroup, EachZone};
ghost use Rattle.model_lists.specs.declared.dds.PdlKind.TheVariants.{G2};
ghost use Rattle.model_lists.specs.declared.versions.Version.TheVariants.{One, Two};
ghost use Rattle.model_audit.specs.declared.lines.CopyState.TheVariants.{Exact, Other, Unread, Dead};
ghost use Rattle.model_audit.specs.declared.lines.CertificateLine.TheVariants as lines;
ghost use Rattle.model_audit.specs.Text.{text_of, certificate_line};

/// The whole text of a disc that was only pressed, and lines of each form.
pub fn worked_texts()
    ensures bare { text_of (lines.Audit ∷ (lines.Geometry 1 1 4 OneGroup ∷ (lines.Bare 0 ∷ (lines.End 3 ∷ []))))
        ≡ codes "audit\ngeometry 1 1 4\nbare 0\nend 3\n" }
    ensures groups { certificate_line (lines.Geometry 3 1 4 EachZone) ≡ codes "geometry 3 1 4 groups\n" }
    ensures structure { certificate_line (lines.Dds Two 2 1) ≡ codes "dds two 2 1\n" }
    ensures first { certificate_line (lines.Dds One 9 4) ≡ codes "dds one 9 4\n" }
    ensures slipped { certificate_line (lines.Pdl 13 G2) ≡ codes "pdl 13 g2\n" }
    ensures list { certificate_line (lines.Sdl 3 1 2) ≡ codes "sdl 3 1 2\n" }
    ensures pair { certificate_line (lines.Pair 13 12) ≡ codes "pair 13 12\n" }
    ensures retired { certificate_line (lines.Retired 12) ≡ codes "retired 12\n" }
    ensures exact { certificate_line (lines.Copy 33 Exact) ≡ codes "copy 33 exact\n" }
    ensures other { certificate_line (lines.Copy 1 Other) ≡ codes "copy 1 other\n" }
    ensures unread { certificate_line (lines.Copy 4 Unread) ≡ codes "copy 4 unread\n" }
    ensures dead { certificate_line (lines.Copy 4 Dead) ≡ codes "copy 4 dead\n" }
    ensures lost { certificate_line (lines.Lost 16) ≡ codes "lost 16\n" }
    ensures end { certificate_line (lines.End 16) ≡ codes "end 16\n" }
{}
