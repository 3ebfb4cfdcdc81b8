//! A saved file in the middle of a chain stops what a loss makes run again.

ghost use Rattle.std.specs.Prelude.{◌≡◌, [], ◌∷◌, None, Some, drop, false, true};
ghost use Rattle.tl_model.specs.Actors.{open_save};
ghost use Rattle.tl_model.specs.Checkpoints.{edge, next_save};
ghost use Rattle.tl_model.specs.Plan.{is_task, next};
ghost use Rattle.tl_model.specs.Rules.{is_lawful, is_legal};
ghost use Rattle.tl_model.specs.declared.header.OrderRule.TheVariants.{Strict};
ghost use Rattle.tl_rows.specs.SavedAncestor.{saved_ancestor, saved_ancestor_past};
ghost use Rattle.tl_rows.specs.Words.{file_of, hashed, header, id, itself};

/// The end of the chain is saved first, and after the loss one job runs again.
#[tactic(auto, unfolding(crate::specs::Computing::computing))]
pub fn saved_ancestor()
    ensures lawful { is_lawful (header 1 100 9) (saved_ancestor itself) ≡ true }
    ensures legal { is_legal (header 1 100 9) (saved_ancestor hashed) ≡ true }
    ensures edge { edge (header 1 100 9) (drop 10 saved_ancestor_past) ≡ file_of 2 0 ∷ [] }
    ensures next_save { next_save (header 1 100 9) (drop 10 saved_ancestor_past) ≡ Some (file_of 2 0) }
    ensures none_while_saved { next_save (header 1 100 9) (drop 9 saved_ancestor_past) ≡ None }
    ensures being_saved { open_save (drop 9 saved_ancestor_past) (record { 0 = 0 }) ≡ Some (file_of 2 0) }
    ensures save_closed { open_save (drop 8 saved_ancestor_past) (record { 0 = 0 }) ≡ None }
    ensures read_once { edge (header 1 100 1) (drop 10 saved_ancestor_past) ≡ file_of 2 0 ∷ file_of 1 0 ∷ [] }
    ensures next_after_loss { next Strict (drop 3 saved_ancestor_past) ≡ Some (id 3) }
    ensures not_before { is_task (drop 3 saved_ancestor_past) (id 2) ≡ false }
    ensures not_at_first { is_task (drop 3 saved_ancestor_past) (id 1) ≡ false }
    ensures next_at_end { next Strict saved_ancestor_past ≡ None }
{}
