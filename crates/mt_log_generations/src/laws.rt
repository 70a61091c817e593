//! Laws of numbered files, each the contract of a function that does nothing.

ghost use Rattle.std.specs.Prelude.{◌≡◌, ◌⊎◌, ◌++◌, [], ◌∷◌, ℕ, List, Option, Some, None};
ghost use Rattle.mt_gates.specs.Gates.{IsClosed, IsLeftOf};
ghost use Rattle.mt_log_generations.specs.declared.header.Header.{Header};
ghost use Rattle.mt_log_generations.specs.Headers.{header_with, header_bytes, begun_text, IsHeader, IsLog, IsNoLog, Has, IsBad};

/// A file is the log of one generation at most. Then it is neither no log nor bad, and a reading tells its header. A log
/// that was begun is one. A closed gate is no log.
pub fn a_file_has_one_header()
    ensures one { (h k : Header) (image : List ℕ) → IsLog h image → IsLog k image → h ≡ k }
    ensures a_log { (h : Header) (image : List ℕ) → IsLog h image → IsNoLog image → ⊥ }
    ensures not_bad { (h : Header) (image : List ℕ) (number : ℕ) → IsLog h image → IsBad image number → ⊥ }
    ensures told { (h : Header) (image : List ℕ) (x : Option Header) → IsLog h image → Has x image → x ≡ Some h }
    ensures begun { (h : Header) → IsHeader h → IsLog h (1 ∷ begun_text h) }
    ensures closed { (image : List ℕ) → IsClosed image → IsNoLog image }
{}

/// What may be left of a log that is begun or given up, with this after its header, is no log, or it whole. It is never
/// bad, and a reading tells that header or none.
pub fn what_is_left_is_the_log_or_none()
    ensures whole { (h : Header) (rest image : List ℕ) → IsHeader h → IsLeftOf (header_bytes h ++ rest) image
        → IsNoLog image ⊎ ((behind : List ℕ) × (image ≡ 1 ∷ (header_bytes h ++ (rest ++ behind)))) }
    ensures not_bad { (h : Header) (rest image : List ℕ) (number : ℕ) → IsHeader h → IsLeftOf (header_bytes h ++ rest) image → IsBad image number → ⊥ }
    ensures told { (h : Header) (rest image : List ℕ) (x : Option Header) → IsHeader h → IsLeftOf (header_bytes h ++ rest) image
        → Has x image → (x ≡ None) ⊎ (x ≡ Some h) }
{}

/// The 26 bytes of a log of worker 0 of 1, of generation 1, that begins at step 6 and has no batches.
pub fn the_bytes_of_a_log_without_batches()
    ensures { 1 ∷ begun_text (header_with 0 1 1 6)
        ≡ 1 ∷ 77 ∷ 84 ∷ 76 ∷ 79 ∷ 71 ∷ 3 ∷ 0 ∷ 1 ∷ 0 ∷ 0 ∷ 0 ∷ 0 ∷ 0 ∷ 0 ∷ 0 ∷ 1 ∷ 0 ∷ 0 ∷ 0 ∷ 0 ∷ 0 ∷ 0 ∷ 0 ∷ 6 ∷ 0 ∷ [] }
{}
