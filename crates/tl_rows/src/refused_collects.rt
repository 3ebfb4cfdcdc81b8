//! Records that may not be let go.

ghost use Rattle.std.specs.Prelude.{◌≡◌, [], ◌∷◌, None, Some, codes, true};
ghost use Rattle.tl_model.specs.Rules.{fault_of, is_lawful, is_legal, lawful_judge};
ghost use Rattle.tl_model.specs.declared.reply.Reply.TheVariants.{Fine};
ghost use Rattle.tl_rows.specs.Refused.{both_done, given_back, reading, running_only, start};
ghost use Rattle.tl_rows.specs.Words.{back, call, collect, delete, hashed, header, itself};

/// Each clause breaks one condition of a record that is let go.
#[tactic(auto, unfolding(crate::specs::Computing::computing))]
pub fn refused_collect()
    ensures permitted { fault_of lawful_judge (header 2 100 9) (collect 0 0 ∷ start itself) ≡ None }
    ensures again { fault_of lawful_judge (header 2 100 9) (collect 0 0 ∷ collect 1 0 ∷ start itself) ≡ Some (5, 14) }
    ensures unknown { fault_of lawful_judge (header 2 100 9) (collect 0 3 ∷ start itself) ≡ Some (4, 14) }
    ensures task { fault_of lawful_judge (header 2 100 9) (collect 0 1 ∷ call 0 Fine (delete (codes "b")) ∷ start itself) ≡ Some (5, 14) }
    ensures running { fault_of lawful_judge (header 2 100 9) (collect 0 1 ∷ running_only itself) ≡ Some (13, 14) }
    ensures not_running { fault_of lawful_judge (header 2 100 9) (collect 0 1 ∷ back 1 1 ∷ running_only itself) ≡ None }
    ensures named { fault_of lawful_judge (header 2 100 9) (collect 0 1 ∷ both_done itself) ≡ Some (8, 14) }
    ensures read { fault_of lawful_judge (header 2 100 9) (collect 0 1 ∷ call 1 Fine (delete (codes "b")) ∷ reading itself) ≡ Some (10, 14) }
    ensures unnamed { fault_of lawful_judge (header 2 100 9) (collect 0 1 ∷ call 0 Fine (delete (codes "b")) ∷ both_done itself) ≡ None }
{}

/// What was begun may be given back, and begun again.
#[tactic(auto, unfolding(crate::specs::Computing::computing))]
pub fn given_back()
    ensures lawful { is_lawful (header 2 100 9) (given_back itself) ≡ true }
    ensures legal { is_legal (header 2 100 9) (given_back hashed) ≡ true }
{}
