//! Calls that are refused.

ghost use Rattle.std.specs.Prelude.{◌≡◌, [], ◌∷◌, None, Some, codes};
ghost use Rattle.tl_model.specs.Rules.{fault_of, lawful_judge, legal_judge};
ghost use Rattle.tl_model.specs.declared.reply.Reply.TheVariants.{Exists, Fine};
ghost use Rattle.tl_rows.specs.Refused.{claimed, saving, start, waiting};
ghost use Rattle.tl_rows.specs.Words.{call, cat, delete, file_of, hashed, header, itself, made, opened, put, put_of_length, saved};

/// Each clause breaks one condition of a call.
#[tactic(auto, unfolding(crate::specs::Computing::computing))]
pub fn refused_calls()
    ensures permitted { fault_of lawful_judge (header 2 100 9) (call 0 Fine (delete (codes "b")) ∷ start itself) ≡ None }
    ensures beside_another { fault_of lawful_judge (header 2 100 9) (call 1 Fine (delete (codes "b")) ∷ waiting itself) ≡ None }
    ensures no_client { fault_of lawful_judge (header 2 100 9) (call 8 Fine (delete (codes "b")) ∷ start itself) ≡ Some (4, 1) }
    ensures open_read { fault_of lawful_judge (header 2 100 9) (call 0 Fine (delete (codes "b")) ∷ waiting itself) ≡ Some (5, 1) }
    ensures open_claim { fault_of lawful_judge (header 2 100 9) (call 0 Fine (delete (codes "b")) ∷ claimed itself) ≡ Some (5, 1) }
    ensures open_save { fault_of lawful_judge (header 2 100 9) (call 0 Fine (delete (codes "b")) ∷ saving itself) ≡ Some (9, 1) }
    ensures wrong_reply { fault_of lawful_judge (header 2 100 9) (call 0 Exists (delete (codes "b")) ∷ start itself) ≡ Some (4, 1) }
    ensures wrong_record { fault_of lawful_judge (header 2 100 9) (call 0 (made 4) (put itself (codes "e") (codes "y")) ∷ start itself) ≡ Some (4, 1) }
    ensures wrong_file { fault_of lawful_judge (header 2 100 9) (call 0 (opened 2 0) (cat 0 (codes "b")) ∷ start itself) ≡ Some (4, 1) }
    ensures digest_unasked { fault_of lawful_judge (header 2 100 9) (saved itself 0 (file_of 3 0) (codes "y") ∷ call 0 (made 3) (put itself (codes "e") (codes "y")) ∷ start hashed) ≡ None }
    ensures wrong_digest { fault_of (legal_judge (header 2 100 9)) (header 2 100 9) (saved hashed 0 (file_of 3 0) (codes "y") ∷ call 0 (made 3) (put itself (codes "e") (codes "y")) ∷ start hashed) ≡ Some (4, 1) }
    ensures wrong_length { fault_of (legal_judge (header 2 100 9)) (header 2 100 9) (saved hashed 0 (file_of 3 0) (codes "y") ∷ call 0 (made 3) (put_of_length 2 hashed (codes "e") (codes "y")) ∷ start hashed) ≡ Some (4, 1) }
{}
