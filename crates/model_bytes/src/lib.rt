//! What a write into a list of bytes, and a change of its length, make of it. Definitions, and their laws.
#![tactic(auto)]

ghost use Rattle.std.specs.Prelude.{◌≡◌, ◌+◌, ◌<◌, ◌≤◌, ◌⊎◌, ℕ, List, length, take, drop, slice_index};
ghost use Rattle.model_bytes.specs.Bytes.{put_at, resized};

/// A write inside a list leaves the number of its bytes and all bytes of other ranges; its own range then has what
/// was written.
pub fn writes_stay_in_their_range()
    ensures len { (at : ℕ) (from held : List ℕ) → at + length from ≤ length held
        → length (put_at at from held) ≡ length held }
    ensures own { (at : ℕ) (from held : List ℕ) → at ≤ length held
        → take (length from) (drop at (put_at at from held)) ≡ from }
    ensures others { (low n at : ℕ) (from held : List ℕ) → at ≤ length held
        → (low + n ≤ at) ⊎ (at + length from ≤ low)
        → take n (drop low (put_at at from held)) ≡ take n (drop low held) }
    ensures each_own { (k at : ℕ) (from held : List ℕ) → k < length from → at ≤ length held
        → slice_index (put_at at from held) (at + k) ≡ slice_index from k }
    ensures each_other { (k at : ℕ) (from held : List ℕ) → at ≤ length held → (k < at) ⊎ (at + length from ≤ k)
        → slice_index (put_at at from held) k ≡ slice_index held k }
{}

/// A second write of the same range takes the place of the first, and what a range holds may be written there with
/// no change.
pub fn writes_replace()
    ensures twice { (at : ℕ) (first then held : List ℕ) → length first ≡ length then → at ≤ length held
        → put_at at then (put_at at first held) ≡ put_at at then held }
    ensures same { (at n : ℕ) (held : List ℕ) → at + n ≤ length held
        → put_at at (take n (drop at held)) held ≡ held }
{}

/// A changed length keeps the bytes below both lengths, has zeros past the old one, and is what was asked for.
pub fn resizing_keeps_the_prefix()
    ensures len { (n : ℕ) (held : List ℕ) → length (resized n held) ≡ n }
    ensures same { (held : List ℕ) → resized (length held) held ≡ held }
    ensures kept { (k n : ℕ) (held : List ℕ) → k < n → k < length held
        → slice_index (resized n held) k ≡ slice_index held k }
    ensures zeros { (k n : ℕ) (held : List ℕ) → k < n → length held ≤ k → slice_index (resized n held) k ≡ 0 }
{}
