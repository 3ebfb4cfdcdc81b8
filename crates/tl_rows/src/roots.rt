//! Which files must be had again, and which can be.

ghost use Rattle.std.specs.Prelude.{◌≡◌, ◌∷◌, codes, drop, false, true};
ghost use Rattle.tl_model.specs.Needs.{is_needed, is_reachable, is_root};
ghost use Rattle.tl_model.specs.Past.{without_tickets};
ghost use Rattle.tl_model.specs.Plan.{is_task};
ghost use Rattle.tl_model.specs.declared.reply.Reply.TheVariants.{Fine};
ghost use Rattle.tl_rows.specs.Eviction.{eviction, eviction_past};
ghost use Rattle.tl_rows.specs.Refused.{both_done, reading, running_only};
ghost use Rattle.tl_rows.specs.Rerun.{rerun_past};
ghost use Rattle.tl_rows.specs.SavedEnd.{saved_end_past};
ghost use Rattle.tl_rows.specs.Words.{call, collect, delete, file_of, id, itself};

/// Each clause has one reason for a file to be a root, or none.
#[tactic(auto, unfolding(crate::specs::Computing::computing))]
pub fn roots()
    ensures named { is_root rerun_past (file_of 1 0) ≡ true }
    ensures unnamed { is_root (without_tickets (call 0 Fine (delete (codes "b")) ∷ both_done itself)) (file_of 1 0) ≡ false }
    ensures read { is_root (without_tickets (call 1 Fine (delete (codes "b")) ∷ reading itself)) (file_of 1 0) ≡ true }
    ensures output_of_running { is_root (without_tickets (running_only itself)) (file_of 1 0) ≡ true }
    ensures no_output_of_running { is_root (without_tickets (running_only itself)) (file_of 1 1) ≡ false }
    ensures input_of_running { is_root (without_tickets (call 0 Fine (delete (codes "a")) ∷ running_only itself)) (file_of 0 0) ≡ true }
    ensures beside_running { is_root (without_tickets (call 0 Fine (delete (codes "c")) ∷ running_only itself)) (file_of 2 0) ≡ false }
{}

/// A file is reachable where it is saved, or where its job is kept and has its inputs.
#[tactic(auto, unfolding(crate::specs::Computing::computing))]
pub fn reachable()
    ensures unsaved_put { is_reachable (drop 11 rerun_past) (file_of 0 0) ≡ false }
    ensures saved_put { is_reachable (drop 10 rerun_past) (file_of 0 0) ≡ true }
    ensures lost { is_reachable (drop 4 rerun_past) (file_of 1 0) ≡ true }
    ensures inputs_gone { is_reachable (drop 6 saved_end_past) (file_of 2 0) ≡ false }
    ensures no_inputs { is_reachable eviction_past (file_of 0 0) ≡ true }
    ensures one_input_gone { is_reachable (without_tickets (collect 0 1 ∷ call 0 Fine (delete (codes "z")) ∷ call 0 Fine (delete (codes "y")) ∷ eviction itself)) (file_of 2 0) ≡ false }
    ensures no_task { is_task rerun_past (id 9) ≡ false }
    ensures not_needed { is_needed rerun_past (id 9) ≡ false }
{}
