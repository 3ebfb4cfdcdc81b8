//! Ends of reads and loads that are refused.

ghost use Rattle.std.specs.Prelude.{◌≡◌, [], ◌∷◌, None, Some, codes};
ghost use Rattle.tl_model.specs.Rules.{fault_of, lawful_judge, legal_judge};
ghost use Rattle.tl_rows.specs.Refused.{both_done, loaded, reading, start, waiting};
ghost use Rattle.tl_rows.specs.Words.{call, cat, file_of, hashed, header, itself, load, opened, served, shut};

/// Each clause breaks one condition of what is served.
#[tactic(auto, unfolding(crate::specs::Computing::computing))]
pub fn refused_served()
    ensures permitted { fault_of lawful_judge (header 2 100 9) (served itself 0 (file_of 1 0) (codes "x1") ∷ reading itself) ≡ None }
    ensures digest_unasked { fault_of lawful_judge (header 2 100 9) (served itself 0 (file_of 1 0) (codes "x2") ∷ reading itself) ≡ None }
    ensures other_actor { fault_of lawful_judge (header 2 100 9) (served itself 1 (file_of 1 0) (codes "x1") ∷ reading itself) ≡ Some (9, 2) }
    ensures other_file { fault_of lawful_judge (header 2 100 9) (served itself 0 (file_of 2 0) (codes "x2") ∷ reading itself) ≡ Some (9, 2) }
    ensures closed { fault_of lawful_judge (header 2 100 9) (served itself 0 (file_of 1 0) (codes "x1") ∷ shut 0 (file_of 1 0) ∷ reading itself) ≡ Some (10, 2) }
    ensures not_resident { fault_of lawful_judge (header 2 100 9) (served itself 0 (file_of 0 0) (codes "x") ∷ waiting itself) ≡ Some (5, 2) }
    ensures wrong_digest_of_put { fault_of lawful_judge (header 2 100 9) (served itself 0 (file_of 0 0) (codes "y") ∷ loaded itself) ≡ Some (6, 2) }
    ensures wrong_digest { fault_of (legal_judge (header 2 100 9)) (header 2 100 9) (served hashed 0 (file_of 1 0) (codes "x2") ∷ reading hashed) ≡ Some (9, 2) }
{}

/// Each clause breaks one condition of a read that is given up.
#[tactic(auto, unfolding(crate::specs::Computing::computing))]
pub fn refused_shut()
    ensures permitted { fault_of lawful_judge (header 2 100 9) (shut 0 (file_of 1 0) ∷ reading itself) ≡ None }
    ensures no_read { fault_of lawful_judge (header 2 100 9) (shut 0 (file_of 1 0) ∷ both_done itself) ≡ Some (8, 3) }
    ensures other_actor { fault_of lawful_judge (header 2 100 9) (shut 1 (file_of 1 0) ∷ reading itself) ≡ Some (9, 3) }
    ensures other_file { fault_of lawful_judge (header 2 100 9) (shut 0 (file_of 2 0) ∷ reading itself) ≡ Some (9, 3) }
{}

/// Each clause breaks one condition of a load.
#[tactic(auto, unfolding(crate::specs::Computing::computing))]
pub fn refused_load()
    ensures permitted { fault_of lawful_judge (header 2 100 9) (served itself 0 (file_of 0 0) (codes "x") ∷ load 0 1 (file_of 0 0) ∷ waiting itself) ≡ None }
    ensures no_worker { fault_of lawful_judge (header 2 100 9) (load 0 2 (file_of 0 0) ∷ waiting itself) ≡ Some (5, 10) }
    ensures no_read { fault_of lawful_judge (header 2 100 9) (load 1 0 (file_of 0 0) ∷ waiting itself) ≡ Some (5, 10) }
    ensures unsaved { fault_of lawful_judge (header 2 100 9) (load 0 0 (file_of 1 0) ∷ call 0 (opened 1 0) (cat 0 (codes "b")) ∷ start itself) ≡ Some (5, 10) }
    ensures resident { fault_of lawful_judge (header 2 100 9) (load 0 1 (file_of 0 0) ∷ call 0 (opened 0 0) (cat 0 (codes "a")) ∷ served itself 0 (file_of 0 0) (codes "x") ∷ loaded itself) ≡ Some (8, 10) }
{}
