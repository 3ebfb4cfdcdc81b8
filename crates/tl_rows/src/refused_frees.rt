//! Frees and drops that are refused.

ghost use Rattle.std.specs.Prelude.{◌≡◌, [], ◌∷◌, None, Some, codes};
ghost use Rattle.tl_model.specs.Rules.{fault_of, lawful_judge, legal_judge};
ghost use Rattle.tl_model.specs.declared.reply.Reply.TheVariants.{Fine};
ghost use Rattle.tl_rows.specs.Refused.{both_done, freeing, one_done, reading};
ghost use Rattle.tl_rows.specs.Words.{call, delete, evict, file_of, free, freed, hashed, header, itself, pin};

/// Each clause breaks one condition of a free.
#[tactic(auto, unfolding(crate::specs::Computing::computing))]
pub fn refused_free()
    ensures permitted { fault_of lawful_judge (header 2 100 9) (freed 0 (file_of 1 0) ∷ freeing itself) ≡ None }
    ensures no_call { fault_of lawful_judge (header 2 100 9) (freed 0 (file_of 1 0) ∷ both_done itself) ≡ Some (8, 8) }
    ensures other_call { fault_of lawful_judge (header 2 100 9) (freed 0 (file_of 1 0) ∷ call 0 Fine (delete (codes "c")) ∷ both_done itself) ≡ Some (9, 8) }
    ensures not_resident { fault_of lawful_judge (header 2 100 9) (freed 0 (file_of 2 0) ∷ call 0 Fine (free (codes "c")) ∷ one_done itself) ≡ Some (7, 8) }
    ensures other_file { fault_of lawful_judge (header 2 100 9) (freed 0 (file_of 1 0) ∷ call 0 Fine (free (codes "c")) ∷ one_done itself) ≡ Some (7, 8) }
{}

/// Each clause breaks one condition of a drop, of which bytes are not asked.
#[tactic(auto, unfolding(crate::specs::Computing::computing))]
pub fn refused_drop()
    ensures permitted { fault_of lawful_judge (header 2 100 9) (evict 0 0 (file_of 1 0) ∷ both_done itself) ≡ None }
    ensures other_actor { fault_of lawful_judge (header 2 100 9) (evict 1 0 (file_of 1 0) ∷ both_done itself) ≡ Some (8, 9) }
    ensures nobody_before { fault_of lawful_judge (header 2 100 9) (evict 0 0 (file_of 1 0) ∷ []) ≡ Some (0, 9) }
    ensures other_worker { fault_of lawful_judge (header 2 100 9) (evict 0 1 (file_of 1 0) ∷ both_done itself) ≡ Some (8, 9) }
    ensures no_output { fault_of lawful_judge (header 2 100 9) (evict 0 0 (file_of 1 1) ∷ both_done itself) ≡ Some (8, 9) }
    ensures pinned { fault_of lawful_judge (header 2 100 9) (evict 0 0 (file_of 1 0) ∷ call 0 Fine (pin (codes "b")) ∷ both_done itself) ≡ Some (9, 9) }
    ensures wanted { fault_of lawful_judge (header 2 100 9) (evict 0 0 (file_of 1 0) ∷ reading itself) ≡ Some (9, 9) }
{}

/// Each clause breaks one condition of a drop where sizes are known.
#[tactic(auto, unfolding(crate::specs::Computing::computing))]
pub fn refused_drop_by_size()
    ensures permitted { fault_of (legal_judge (header 2 3 9)) (header 2 3 9) (evict 0 0 (file_of 1 0) ∷ both_done hashed) ≡ None }
    ensures room { fault_of (legal_judge (header 2 4 9)) (header 2 4 9) (evict 0 0 (file_of 1 0) ∷ both_done hashed) ≡ Some (8, 9) }
    ensures no_victim { fault_of (legal_judge (header 2 3 9)) (header 2 3 9) (evict 0 0 (file_of 2 0) ∷ both_done hashed) ≡ Some (8, 9) }
    ensures other_actor { fault_of (legal_judge (header 2 3 9)) (header 2 3 9) (evict 1 0 (file_of 1 0) ∷ both_done hashed) ≡ Some (8, 9) }
    ensures other_worker { fault_of (legal_judge (header 2 3 9)) (header 2 3 9) (evict 0 1 (file_of 1 0) ∷ both_done hashed) ≡ Some (8, 9) }
{}
