//! Laws of heads, fronts and cuts, over only the definitions.

ghost use Rattle.std.specs.Prelude.{◌≡◌, ℕ, List, [], ◌∷◌, ◌++◌, ◌↔◌};
ghost use Rattle.httparse.specs.Grammar.{RequestHead};
ghost use Rattle.osb_frames.specs.declared.limits.Limits.{Limits};
ghost use Rattle.osb_frames.specs.declared.step.StopKind.{StopKind};
ghost use Rattle.osb_frames.specs.Heads.{Head};
ghost use Rattle.osb_frames.specs.Cuts.{Message, Front, whole, fault, IsFront, End, closed, ended, stopped, Cuts};

/// Bytes are one head at most, and no head is a proper prefix of another.
pub fn one_head()
    ensures { (limits : Limits) (bytes more : List ℕ) (h k : RequestHead) →
        Head limits bytes h → Head limits (bytes ++ more) k → (more ≡ []) × (h ≡ k) }
{}

/// Bytes are cut into requests in exactly one way, for each number of requests that may come: no
/// bytes are without a cut, and two cuts are the same.
pub fn one_cut()
    ensures some { (limits : Limits) (k : ℕ) (bytes : List ℕ) →
        ¬ ((requests : List Message) (end : End) → ¬ (Cuts limits k bytes requests end)) }
    ensures one { (limits : Limits) (k : ℕ) (bytes : List ℕ) (requests others : List Message) (a b : End) →
        Cuts limits k bytes requests a → Cuts limits k bytes others b → (requests ≡ others) × (a ≡ b) }
{}

/// Where one request may come, the cut is what is at the front; and one thing is there.
pub fn one_front()
    ensures request { (limits : Limits) (bytes : List ℕ) (q : Message) (end : End) →
        Cuts limits 1 bytes (q ∷ []) end ↔ ((n : ℕ) × IsFront limits bytes (whole q n) × (end ≡ closed)) }
    ensures stops { (limits : Limits) (bytes : List ℕ) (f : StopKind) →
        Cuts limits 1 bytes [] (stopped f) ↔ IsFront limits bytes (fault f) }
    ensures ends { (limits : Limits) (bytes : List ℕ) →
        Cuts limits 1 bytes [] ended ↔ (bytes ≡ []) }
    ensures one { (limits : Limits) (bytes : List ℕ) (a b : Front) →
        IsFront limits bytes a → IsFront limits bytes b → a ≡ b }
{}
