//! Claims, their ends, and losses of workers that are refused.

ghost use Rattle.std.specs.Prelude.{◌≡◌, [], ◌∷◌, None, Some};
ghost use Rattle.tl_model.specs.Rules.{fault_of, lawful_judge};
ghost use Rattle.tl_rows.specs.Refused.{both_done, claimed, one_done, start};
ghost use Rattle.tl_rows.specs.Words.{back, claim, done, file_of, header, itself, lose, save};

/// Each clause breaks one condition of a claim.
#[tactic(auto, unfolding(crate::specs::Computing::computing))]
pub fn refused_claim()
    ensures permitted { fault_of lawful_judge (header 2 100 9) (claim 0 1 1 ∷ start itself) ≡ None }
    ensures beside_another { fault_of lawful_judge (header 2 100 9) (claim 1 0 2 ∷ claimed itself) ≡ None }
    ensures no_worker { fault_of lawful_judge (header 2 100 9) (claim 0 2 1 ∷ start itself) ≡ Some (4, 4) }
    ensures not_next { fault_of lawful_judge (header 2 100 9) (claim 0 0 2 ∷ start itself) ≡ Some (4, 4) }
    ensures a_put { fault_of lawful_judge (header 2 100 9) (claim 0 0 0 ∷ both_done itself) ≡ Some (8, 4) }
    ensures running { fault_of lawful_judge (header 2 100 9) (claim 1 0 1 ∷ claimed itself) ≡ Some (5, 4) }
    ensures open_claim { fault_of lawful_judge (header 2 100 9) (claim 0 0 2 ∷ claimed itself) ≡ Some (5, 4) }
    ensures open_save { fault_of lawful_judge (header 2 100 9) (claim 0 0 2 ∷ save 0 (file_of 1 0) ∷ one_done itself) ≡ Some (7, 4) }
{}

/// Each clause breaks one condition of a job that is done.
#[tactic(auto, unfolding(crate::specs::Computing::computing))]
pub fn refused_done()
    ensures permitted { fault_of lawful_judge (header 2 100 9) (done 0 0 1 ∷ lose 0 1 ∷ claimed itself) ≡ None }
    ensures no_claim { fault_of lawful_judge (header 2 100 9) (done 0 0 1 ∷ start itself) ≡ Some (4, 5) }
    ensures other_actor { fault_of lawful_judge (header 2 100 9) (done 1 0 1 ∷ claimed itself) ≡ Some (5, 5) }
    ensures other_worker { fault_of lawful_judge (header 2 100 9) (done 0 1 1 ∷ claimed itself) ≡ Some (5, 5) }
    ensures other_record { fault_of lawful_judge (header 2 100 9) (done 0 0 2 ∷ claimed itself) ≡ Some (5, 5) }
    ensures worker_lost { fault_of lawful_judge (header 2 100 9) (done 0 0 1 ∷ lose 1 0 ∷ claimed itself) ≡ Some (6, 5) }
{}

/// Each clause breaks one condition of a claim that is given back.
#[tactic(auto, unfolding(crate::specs::Computing::computing))]
pub fn refused_back()
    ensures permitted { fault_of lawful_judge (header 2 100 9) (back 0 1 ∷ claimed itself) ≡ None }
    ensures other_actor { fault_of lawful_judge (header 2 100 9) (back 1 1 ∷ claimed itself) ≡ Some (5, 6) }
    ensures other_record { fault_of lawful_judge (header 2 100 9) (back 0 2 ∷ claimed itself) ≡ Some (5, 6) }
    ensures worker_lost { fault_of lawful_judge (header 2 100 9) (back 0 1 ∷ lose 1 0 ∷ claimed itself) ≡ Some (6, 6) }
{}

/// A worker that is lost is one of the header.
#[tactic(auto, unfolding(crate::specs::Computing::computing))]
pub fn refused_lose()
    ensures permitted { fault_of lawful_judge (header 2 100 9) (lose 0 1 ∷ start itself) ≡ None }
    ensures no_worker { fault_of lawful_judge (header 2 100 9) (lose 0 2 ∷ start itself) ≡ Some (4, 7) }
{}
