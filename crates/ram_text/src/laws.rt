//! Laws of the script language, for those who rely on its definitions.
ghost use Rattle.std.specs.Prelude.{◌≡◌, ◌≢◌, ◌<◌, ℕ, Option, Some, List, [], ◌∷◌, ◌++◌, length, All};
ghost use Rattle.ram_text.specs.ScriptWords.{words_of, space};
ghost use Rattle.ram_text.specs.Lines.{GivesLine, LineIsTooLong, ScriptIsTooLong};
ghost use Rattle.ram_text.specs.Script.{Reads};
ghost use Rattle.ram_text.specs.declared.lines.TheConstants.{LINE_LIMIT, SCRIPT_LIMIT};
ghost use Rattle.ram_text.specs.declared.payload.TheConstants.{PAYLOAD_ROOM};
ghost use Rattle.ram_text.specs.MirrorScript.{MirrorReads};
ghost use Rattle.ram_text.specs.declared.script.Line.{Line as Read};
ghost use Rattle.ram_text.specs.declared.mirror.MirrorLine.{MirrorLine as ReadOfMirror};

/// How many bytes a line has at most, a script, and the data of a command.
pub fn limits_are_these()
    ensures line { LINE_LIMIT ≡ 70000 }
    ensures script { SCRIPT_LIMIT ≡ 67108864 }
    ensures payload { PAYLOAD_ROOM ≡ 2097152 }
{}

/// A limit is told exactly where it is passed first: of the two limits one alone is, and where one is, no line comes.
pub fn a_limit_is_reported_where_it_is_passed_first()
    ensures one { (left : Option (List ℕ)) (taken : ℕ) → LineIsTooLong left taken → ¬ ScriptIsTooLong left taken }
    ensures line { (held : List ℕ) (left : Option (List ℕ)) (taken taken' : ℕ) (line : List ℕ) (faults faults' : ℕ)
        → GivesLine (Some held) left taken taken' line faults faults' → ¬ LineIsTooLong (Some held) taken }
    ensures script { (held : List ℕ) (left : Option (List ℕ)) (taken taken' : ℕ) (line : List ℕ) (faults faults' : ℕ)
        → GivesLine (Some held) left taken taken' line faults faults' → ¬ ScriptIsTooLong (Some held) taken }
{}

/// A line has at most one meaning, and the data that go with it are determined too.
pub fn a_line_has_one_reading()
    ensures { (line : List ℕ) (a b : Read) (p q : List ℕ)
        → Reads line a p → Reads line b q → (a ≡ b) × (p ≡ q) }
{}

/// A line for a mirror has at most one meaning, and the data that go with it are determined too.
pub fn a_line_for_a_mirror_has_one_reading()
    ensures { (line : List ℕ) (a b : ReadOfMirror) (p q : List ℕ)
        → MirrorReads line a p → MirrorReads line b q → (a ≡ b) × (p ≡ q) }
{}

/// The words of a line are what stands between its spaces, however many these are, before, between and after them.
pub fn words_stand_between_spaces()
    ensures none { words_of [] ≡ [] }
    ensures skipped { (rest : List ℕ) → words_of (space ∷ rest) ≡ words_of rest }
    ensures first { (word rest : List ℕ) → 0 < length word → All (λ byte. byte ≢ space) word
        → words_of (word ++ space ∷ rest) ≡ word ∷ words_of rest }
    ensures last { (word : List ℕ) → 0 < length word → All (λ byte. byte ≢ space) word → words_of word ≡ word ∷ [] }
{}
