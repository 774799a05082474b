//! Mode pages: which the drive has, what MODE SENSE replies, and what MODE SELECT(10) takes. Definitions, and their laws.
#![tactic(auto)]

ghost use Rattle.std.specs.Prelude.{◌≡◌, ◌≤◌, ℕ, Bool, List, ◌++◌, ◌∷◌, [], true, false, length, replicate};
ghost use Rattle.model_modes.specs.declared.Page.{Page as ModePage};
ghost use Rattle.model_modes.specs.declared.Page.TheVariants.{ErrorRecovery, Caching};
ghost use Rattle.model_modes.specs.Pages.{code, pages_with, all_pages, pages, page_by, pages_by, is_page_code, mode_data, current_page, changeable_page};
ghost use Rattle.model_modes.specs.ParameterLists.{caches_after};

/// The mode pages of the drive that a list may set, under the names of INCITS MMC and SPC.
#[derive(Clone, Copy, Debug, PartialEq, Eq)]
pub enum Page {
    /// What is done where a block cannot be read or written.
    ErrorRecovery,
    /// Whether writes are cached.
    Caching,
}

/// Each page has a code of its own, by which it alone is asked for; one more code asks for all, and no other code for any.
pub fn each_page_has_its_own_code()
    ensures one { (page : ModePage) → pages_with (code page) ≡ page ∷ [] }
    ensures all { pages_with all_pages ≡ pages }
    ensures codes { (is_page_code 0x01 ≡ true) × (is_page_code 0x08 ≡ true) × (is_page_code 0x2a ≡ true)
        × (is_page_code 0x3f ≡ true) }
{}

/// A page that a list may set has 12 bytes, whatever is asked of it, and the page of capabilities 32. So all pages have 56.
pub fn pages_have_their_lengths()
    ensures set { (control : ℕ) (caches : Bool) (page : ModePage) → length (page_by control caches page) ≡ 12 }
    ensures told { (control : ℕ) (caches locked : Bool) → length (pages_by control caches locked 0x2a) ≡ 32 }
    ensures all { (control : ℕ) (caches locked : Bool) → length (pages_by control caches locked 0x3f) ≡ 56 }
{}

/// What MODE SENSE(10) is replied where the values in force are asked for, of one page and of all, where the default ones are,
/// and where the changeable ones are.
pub fn worked_replies()
    ensures recovery { (caches locked : Bool) → mode_data false 0 caches locked 0x01
        ≡ 0x00 ∷ 0x12 ∷ replicate 6 0 ++ 0x01 ∷ 0x0a ∷ 0x80 ∷ replicate 9 0 }
    ensures caching { (locked : Bool) → mode_data false 0 true locked 0x08
        ≡ 0x00 ∷ 0x12 ∷ replicate 6 0 ++ 0x08 ∷ 0x0a ∷ 0x04 ∷ replicate 9 0 }
    ensures default { (caches locked : Bool) → mode_data false 2 caches locked 0x08
        ≡ 0x00 ∷ 0x12 ∷ replicate 6 0 ++ 0x08 ∷ 0x0a ∷ replicate 10 0 }
    ensures all { mode_data false 0 false true 0x3f
        ≡ 0x00 ∷ 0x3e ∷ replicate 6 0 ++ 0x01 ∷ 0x0a ∷ 0x80 ∷ replicate 9 0 ++ 0x08 ∷ 0x0a ∷ replicate 10 0
        ++ 0x2a ∷ 0x1e ∷ 0x28 ∷ 0x20 ∷ 0 ∷ 0 ∷ 0x2b ∷ replicate 5 0 ++ 0x01 ∷ replicate 19 0 }
    ensures changeable { (caches locked : Bool) → mode_data false 1 caches locked 0x3f
        ≡ 0x00 ∷ 0x3e ∷ replicate 6 0 ++ 0x01 ∷ 0x0a ∷ replicate 10 0 ++ 0x08 ∷ 0x0a ∷ 0x04 ∷ replicate 9 0
        ++ 0x2a ∷ 0x1e ∷ replicate 30 0 }
{}

/// What MODE SENSE(6) is replied, behind its shorter header: the page of capabilities while removal is prevented and while it is
/// allowed, its default values, and all pages.
pub fn worked_short_replies()
    ensures locked { (caches : Bool) → mode_data true 0 caches true 0x2a
        ≡ 0x23 ∷ replicate 3 0 ++ 0x2a ∷ 0x1e ∷ 0x28 ∷ 0x20 ∷ 0 ∷ 0 ∷ 0x2b ∷ replicate 5 0 ++ 0x01 ∷ replicate 19 0 }
    ensures allowed { (caches : Bool) → mode_data true 0 caches false 0x2a
        ≡ 0x23 ∷ replicate 3 0 ++ 0x2a ∷ 0x1e ∷ 0x28 ∷ 0x20 ∷ 0 ∷ 0 ∷ 0x29 ∷ replicate 5 0 ++ 0x01 ∷ replicate 19 0 }
    ensures default { (caches locked : Bool) → mode_data true 2 caches locked 0x2a
        ≡ 0x23 ∷ replicate 3 0 ++ 0x2a ∷ 0x1e ∷ 0x28 ∷ 0x20 ∷ 0 ∷ 0 ∷ 0x29 ∷ replicate 5 0 ++ 0x01 ∷ replicate 19 0 }
    ensures all { (caches locked : Bool) → mode_data true 1 caches locked 0x3f
        ≡ 0x3b ∷ replicate 3 0 ++ 0x01 ∷ 0x0a ∷ replicate 10 0 ++ 0x08 ∷ 0x0a ∷ 0x04 ∷ replicate 9 0
        ++ 0x2a ∷ 0x1e ∷ replicate 30 0 }
{}

/// Whether the write cache is on after some lists: after none and after one without a caching page as before; after one that
/// sets WCE, in a page whose first bit is set or not, on; after one that sets it and then clears it, off.
pub fn worked_lists()
    ensures empty { (was : Bool) → caches_after [] was ≡ was }
    ensures recovery { (was : Bool) → caches_after (replicate 8 0 ++ current_page true ErrorRecovery) was ≡ was }
    ensures on { (was : Bool) → caches_after (replicate 8 0 ++ current_page true Caching) was ≡ true }
    ensures reserved { (was : Bool) → caches_after (replicate 8 0 ++ 0x88 ∷ 0x0a ∷ 0x04 ∷ replicate 9 0) was ≡ true }
    ensures last { (was : Bool)
        → caches_after (replicate 8 0 ++ current_page true Caching ++ current_page false Caching) was ≡ false }
{}
