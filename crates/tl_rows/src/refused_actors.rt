//! Events of an actor that there is not.

ghost use Rattle.std.specs.Prelude.{◌≡◌, ◌∷◌, None, Some};
ghost use Rattle.tl_model.specs.Rules.{fault_of, lawful_judge};
ghost use Rattle.tl_rows.specs.Refused.{both_done, start};
ghost use Rattle.tl_rows.specs.Words.{claim, collect, file_of, header, itself, lose, save};

/// Each is refused by the rule of the event, though any of the sixteen actors might have made it.
#[tactic(auto, unfolding(crate::specs::Computing::computing))]
pub fn refused_actors()
    ensures last { fault_of lawful_judge (header 2 100 9) (lose 15 1 ∷ start itself) ≡ None }
    ensures lose { fault_of lawful_judge (header 2 100 9) (lose 16 1 ∷ start itself) ≡ Some (4, 7) }
    ensures claim { fault_of lawful_judge (header 2 100 9) (claim 16 0 1 ∷ start itself)
        ≡ Some (4, 4) }
    ensures collect { fault_of lawful_judge (header 2 100 9) (collect 16 0 ∷ start itself)
        ≡ Some (4, 14) }
    ensures save { fault_of lawful_judge (header 2 100 9) (save 16 (file_of 1 0) ∷ both_done itself)
        ≡ Some (8, 11) }
{}
