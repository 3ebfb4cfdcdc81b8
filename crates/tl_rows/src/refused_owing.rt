//! What is owed comes first.

ghost use Rattle.std.specs.Prelude.{◌≡◌, [], ◌∷◌, None, Some, codes};
ghost use Rattle.tl_model.specs.Rules.{fault_of, lawful_judge, legal_judge};
ghost use Rattle.tl_model.specs.declared.reply.Reply.TheVariants.{Exists, Fine};
ghost use Rattle.tl_rows.specs.Refused.{both_done, freeing, loaded, loaded_over, start};
ghost use Rattle.tl_rows.specs.Words.{call, collect, delete, evict, file_of, free, freed, hashed, header, itself, lose, made, put, saved, served, shut};

/// Each clause has another event than the one that is owed, or none.
#[tactic(auto, unfolding(crate::specs::Computing::computing))]
pub fn refused_owing()
    ensures put_at_end { fault_of lawful_judge (header 2 100 9) (call 0 (made 0) (put itself (codes "a") (codes "x")) ∷ []) ≡ Some (1, 15) }
    ensures put_then_other { fault_of lawful_judge (header 2 100 9) (call 0 Fine (delete (codes "b")) ∷ call 0 (made 0) (put itself (codes "a") (codes "x")) ∷ []) ≡ Some (1, 15) }
    ensures put_then_other_actor { fault_of lawful_judge (header 2 100 9) (saved itself 1 (file_of 0 0) (codes "x") ∷ call 0 (made 0) (put itself (codes "a") (codes "x")) ∷ []) ≡ Some (1, 15) }
    ensures put_then_other_file { fault_of lawful_judge (header 2 100 9) (saved itself 0 (file_of 1 0) (codes "x") ∷ call 0 (made 0) (put itself (codes "a") (codes "x")) ∷ []) ≡ Some (1, 15) }
    ensures refused_put { fault_of lawful_judge (header 2 100 9) (call 0 Exists (put itself (codes "a") (codes "x")) ∷ start itself) ≡ None }
    ensures free_at_end { fault_of lawful_judge (header 2 100 9) (freeing itself) ≡ Some (9, 15) }
    ensures free_then_other { fault_of lawful_judge (header 2 100 9) (lose 0 0 ∷ freeing itself) ≡ Some (9, 15) }
    ensures free_then_other_actor { fault_of lawful_judge (header 2 100 9) (freed 1 (file_of 1 0) ∷ freeing itself) ≡ Some (9, 15) }
    ensures free_then_other_file { fault_of lawful_judge (header 2 100 9) (freed 0 (file_of 2 0) ∷ freeing itself) ≡ Some (9, 15) }
    ensures free_not_resident { fault_of lawful_judge (header 2 100 9) (call 0 Fine (free (codes "b")) ∷ start itself) ≡ None }
    ensures load_at_end { fault_of lawful_judge (header 2 100 9) (loaded itself) ≡ Some (6, 15) }
    ensures load_then_shut { fault_of lawful_judge (header 2 100 9) (shut 0 (file_of 0 0) ∷ loaded itself) ≡ Some (6, 15) }
    ensures load_then_other_actor { fault_of lawful_judge (header 2 100 9) (served itself 1 (file_of 0 0) (codes "x") ∷ loaded itself) ≡ Some (6, 15) }
    ensures load_then_other_file { fault_of lawful_judge (header 2 100 9) (served itself 0 (file_of 1 0) (codes "x1") ∷ loaded itself) ≡ Some (6, 15) }
    ensures first_fault { fault_of lawful_judge (header 2 100 9) (lose 0 2 ∷ collect 0 1 ∷ start itself) ≡ Some (4, 14) }
{}

/// A drop is owed where sizes are known and a worker is over its capacity.
#[tactic(auto, unfolding(crate::specs::Computing::computing))]
pub fn refused_owing_by_size()
    ensures at_end { fault_of (legal_judge (header 2 3 9)) (header 2 3 9) (both_done hashed) ≡ Some (8, 15) }
    ensures then_other { fault_of (legal_judge (header 2 3 9)) (header 2 3 9) (lose 0 0 ∷ both_done hashed) ≡ Some (8, 15) }
    ensures after_free { fault_of (legal_judge (header 2 3 9)) (header 2 3 9) (freed 0 (file_of 1 0) ∷ freeing hashed) ≡ Some (8, 15) }
    ensures served_before_drop { fault_of (legal_judge (header 2 4 9)) (header 2 4 9) (loaded_over hashed) ≡ Some (11, 15) }
    ensures drop_after_served { fault_of (legal_judge (header 2 4 9)) (header 2 4 9) (evict 0 0 (file_of 1 0) ∷ loaded_over hashed) ≡ None }
    ensures none_owed { fault_of (legal_judge (header 2 4 9)) (header 2 4 9) (both_done hashed) ≡ None }
{}
