//! Laws of sealing.
ghost use Rattle.std.specs.Prelude.{◌≡◌, ◌*◌, ◌^◌, ◌<◌, ◌↔◌, ℕ, Bool, List, Result, length, All};
ghost use Rattle.hsm_types.specs.declared.types.Scheme.{Scheme};
ghost use Rattle.hsm_types.specs.Schemes.{scheme_parts};
ghost use Rattle.hsm_tdes.specs.Tdes.{IsKey};
ghost use Rattle.hsm_lmk.specs.Sealing.{Sealed};
ghost use Rattle.hsm_lmk.specs.Opened.{open_answer, sealed, opened};
ghost use Rattle.hsm_lmk.specs.Opening.{Opens};
ghost use Rattle.hsm_lmk.specs.declared.OpenFault.{OpenFault};

/// A text is at most one key sealed.
pub fn at_most_one_key()
    ensures { (w : List (List ℕ)) (s : Scheme) (text : List ℕ) (a b : List (List ℕ)) → Sealed w s a text → Sealed w s b text → a ≡ b }
{}

/// Each text of bytes that has the scheme's length is some key sealed.
pub fn some_key()
    ensures { (w : List (List ℕ)) (s : Scheme) (text : List ℕ) → All (λ byte. byte < 2 ^ 8) text → length text ≡ 8 * scheme_parts s
        → Sealed w s (opened w s text) text }
{}

/// A text that is a key sealed opens to that key.
pub fn opens_to_sealed()
    ensures { (w : List (List ℕ)) (s : Scheme) (key : List (List ℕ)) (text : List ℕ) → Sealed w s key text → opened w s text ≡ key }
{}

/// A key with the scheme's number of parts is sealed by just one text of bytes.
pub fn one_text()
    ensures some { (w : List (List ℕ)) (s : Scheme) (key : List (List ℕ)) → IsKey key → length key ≡ scheme_parts s → Sealed w s key (sealed w s key) }
    ensures most { (w : List (List ℕ)) (s : Scheme) (key : List (List ℕ)) (text : List ℕ) → All (λ byte. byte < 2 ^ 8) text → Sealed w s key text
        → text ≡ sealed w s key }
{}

/// What `open` and `open_under` answer, as a relation: the key that the text is sealed, or why it is refused.
pub fn opens_exactly()
    ensures { (refused permitted : Bool) (w : List (List ℕ)) (s : Scheme) (text : List ℕ) (r : Result (List (List ℕ)) OpenFault)
        → All (λ byte. byte < 2 ^ 8) text → length text ≡ 8 * scheme_parts s
        → (r ≡ open_answer refused permitted w s text) ↔ Opens refused permitted w s text r }
{}
