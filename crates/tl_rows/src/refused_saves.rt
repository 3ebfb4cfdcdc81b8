//! Saves that are refused.

ghost use Rattle.std.specs.Prelude.{◌≡◌, [], ◌∷◌, None, Some, codes};
ghost use Rattle.tl_model.specs.Rules.{fault_of, lawful_judge, legal_judge};
ghost use Rattle.tl_model.specs.declared.reply.Reply.TheVariants.{Fine};
ghost use Rattle.tl_rows.specs.Refused.{both_done, one_done, reading, saving, second_again_first, start};
ghost use Rattle.tl_rows.specs.Words.{call, claim, delete, file_of, hashed, header, itself, made, put, save, saved, saved_of_length, unsave};

/// Each clause breaks one condition of a save.
#[tactic(auto, unfolding(crate::specs::Computing::computing))]
pub fn refused_save()
    ensures permitted { fault_of lawful_judge (header 2 100 9) (save 0 (file_of 1 0) ∷ both_done itself) ≡ None }
    ensures beside_another { fault_of lawful_judge (header 2 100 9) (save 1 (file_of 2 0) ∷ saving itself) ≡ None }
    ensures not_first { fault_of lawful_judge (header 2 100 9) (save 0 (file_of 2 0) ∷ both_done itself) ≡ Some (8, 11) }
    ensures last_done_sooner { fault_of lawful_judge (header 2 100 9) (save 0 (file_of 2 0) ∷ second_again_first itself) ≡ None }
    ensures last_done_later { fault_of lawful_judge (header 2 100 9) (save 0 (file_of 1 0) ∷ second_again_first itself) ≡ Some (17, 11) }
    ensures unnamed { fault_of lawful_judge (header 2 100 9) (save 0 (file_of 1 0) ∷ call 0 Fine (delete (codes "b")) ∷ both_done itself) ≡ Some (9, 11) }
    ensures saved { fault_of lawful_judge (header 2 100 9) (save 0 (file_of 1 0) ∷ saved itself 0 (file_of 1 0) (codes "x1") ∷ saving itself) ≡ Some (10, 11) }
    ensures none_to_save { fault_of lawful_judge (header 2 100 9) (save 0 (file_of 1 0) ∷ start itself) ≡ Some (4, 11) }
    ensures open_read { fault_of lawful_judge (header 2 100 9) (save 0 (file_of 1 0) ∷ reading itself) ≡ Some (9, 11) }
    ensures open_claim { fault_of lawful_judge (header 2 100 9) (save 0 (file_of 1 0) ∷ claim 0 0 2 ∷ one_done itself) ≡ Some (7, 11) }
    ensures open_save { fault_of lawful_judge (header 2 100 9) (save 0 (file_of 2 0) ∷ saving itself) ≡ Some (9, 11) }
{}

/// Each clause breaks one condition of a file that is saved.
#[tactic(auto, unfolding(crate::specs::Computing::computing))]
pub fn refused_saved()
    ensures permitted { fault_of lawful_judge (header 2 100 9) (saved itself 0 (file_of 1 0) (codes "x1") ∷ saving itself) ≡ None }
    ensures bytes_unasked { fault_of lawful_judge (header 2 100 9) (saved itself 0 (file_of 1 0) (codes "y") ∷ saving itself) ≡ None }
    ensures no_save { fault_of lawful_judge (header 2 100 9) (saved itself 0 (file_of 1 0) (codes "x1") ∷ both_done itself) ≡ Some (8, 12) }
    ensures other_actor { fault_of lawful_judge (header 2 100 9) (saved itself 1 (file_of 1 0) (codes "x1") ∷ saving itself) ≡ Some (9, 12) }
    ensures other_file { fault_of lawful_judge (header 2 100 9) (saved itself 0 (file_of 2 0) (codes "x2") ∷ saving itself) ≡ Some (9, 12) }
    ensures nothing_before { fault_of lawful_judge (header 2 100 9) (saved itself 0 (file_of 0 0) (codes "x") ∷ []) ≡ Some (0, 12) }
    ensures again { fault_of lawful_judge (header 2 100 9) (saved itself 0 (file_of 0 0) (codes "x") ∷ start itself) ≡ Some (4, 12) }
    ensures wrong_length_of_put { fault_of lawful_judge (header 2 100 9) (saved_of_length 2 itself 0 (file_of 0 0) (codes "x") ∷ call 0 (made 0) (put itself (codes "a") (codes "x")) ∷ []) ≡ Some (1, 12) }
    ensures wrong_digest_of_put { fault_of lawful_judge (header 2 100 9) (saved itself 0 (file_of 0 0) (codes "y") ∷ call 0 (made 0) (put itself (codes "a") (codes "x")) ∷ []) ≡ Some (1, 12) }
{}

/// Each clause breaks one condition of a file that is saved where its bytes are known.
#[tactic(auto, unfolding(crate::specs::Computing::computing))]
pub fn refused_saved_by_bytes()
    ensures permitted { fault_of (legal_judge (header 2 100 9)) (header 2 100 9) (saved hashed 0 (file_of 1 0) (codes "x1") ∷ saving hashed) ≡ None }
    ensures wrong_length { fault_of (legal_judge (header 2 100 9)) (header 2 100 9) (saved_of_length 3 hashed 0 (file_of 1 0) (codes "x1") ∷ saving hashed) ≡ Some (9, 12) }
    ensures wrong_digest { fault_of (legal_judge (header 2 100 9)) (header 2 100 9) (saved hashed 0 (file_of 1 0) (codes "x2") ∷ saving hashed) ≡ Some (9, 12) }
{}

/// Each clause breaks one condition of a save that is given up.
#[tactic(auto, unfolding(crate::specs::Computing::computing))]
pub fn refused_unsave()
    ensures permitted { fault_of lawful_judge (header 2 100 9) (unsave 0 (file_of 1 0) ∷ saving itself) ≡ None }
    ensures no_save { fault_of lawful_judge (header 2 100 9) (unsave 0 (file_of 1 0) ∷ both_done itself) ≡ Some (8, 13) }
    ensures other_actor { fault_of lawful_judge (header 2 100 9) (unsave 1 (file_of 1 0) ∷ saving itself) ≡ Some (9, 13) }
    ensures other_file { fault_of lawful_judge (header 2 100 9) (unsave 0 (file_of 2 0) ∷ saving itself) ≡ Some (9, 13) }
{}
