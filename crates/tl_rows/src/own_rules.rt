//! What an event's own rule says where something is owed, which refuses the event first.

ghost use Rattle.std.specs.Prelude.{◌≡◌, [], ◌∷◌, codes, false, true};
ghost use Rattle.tl_rows.specs.Refused.{freeing, is_allowed};
ghost use Rattle.tl_rows.specs.Words.{call, file_of, freed, itself, made, put, saved};

/// A free and a saved follow the call of the same actor.
#[tactic(auto, unfolding(crate::specs::Computing::computing))]
pub fn own_rules()
    ensures free { is_allowed (freeing itself) (freed 0 (file_of 1 0)) ≡ true }
    ensures free_of_another { is_allowed (freeing itself) (freed 1 (file_of 1 0)) ≡ false }
    ensures saved { is_allowed (call 0 (made 0) (put itself (codes "a") (codes "x")) ∷ []) (saved itself 0 (file_of 0 0) (codes "x")) ≡ true }
    ensures saved_of_another { is_allowed (call 0 (made 0) (put itself (codes "a") (codes "x")) ∷ []) (saved itself 1 (file_of 0 0) (codes "x")) ≡ false }
{}
