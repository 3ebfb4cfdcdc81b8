//! A file is made by a job, lost, and made again.

ghost use Rattle.std.specs.Prelude.{◌≡◌, None, Some, codes, drop, false, true};
ghost use Rattle.tl_types.specs.declared.outcome.Outcome.TheVariants.{Value};
ghost use Rattle.tl_model.specs.Plan.{is_task, next};
ghost use Rattle.tl_model.specs.Residency.{is_available, is_saved};
ghost use Rattle.tl_model.specs.Rules.{ToSave, is_lawful, is_legal, lawful_judge, owed};
ghost use Rattle.tl_model.specs.Values.{value};
ghost use Rattle.tl_model.specs.declared.header.OrderRule.TheVariants.{Strict};
ghost use Rattle.tl_rows.specs.Rerun.{rerun, rerun_past};
ghost use Rattle.tl_rows.specs.Words.{file_of, hashed, header, id, itself};

/// The job is next as long as it was never done, and again where its lost file is read.
#[tactic(auto, unfolding(crate::specs::Computing::computing))]
pub fn rerun()
    ensures lawful { is_lawful (header 1 100 3) (rerun itself) ≡ true }
    ensures legal { is_legal (header 1 100 3) (rerun hashed) ≡ true }
    ensures value { value (rerun itself) (file_of 1 0) ≡ Value (codes "hi!") }
    ensures next_at_first { next Strict (drop 9 rerun_past) ≡ Some (id 1) }
    ensures next_while_there { next Strict (drop 6 rerun_past) ≡ None }
    ensures next_after_loss { next Strict (drop 4 rerun_past) ≡ None }
    ensures next_in_read { next Strict (drop 3 rerun_past) ≡ Some (id 1) }
    ensures next_at_end { next Strict rerun_past ≡ None }
    ensures task { is_task (drop 3 rerun_past) (id 1) ≡ true }
    ensures no_task_after_loss { is_task (drop 4 rerun_past) (id 1) ≡ false }
    ensures no_put { is_task (drop 3 rerun_past) (id 0) ≡ false }
    ensures saved { is_saved (drop 10 rerun_past) (file_of 0 0) ≡ true }
    ensures unsaved { is_saved (drop 11 rerun_past) (file_of 0 0) ≡ false }
    ensures lost { is_available (drop 4 rerun_past) (file_of 1 0) ≡ false }
    ensures there { is_available (drop 5 rerun_past) (file_of 1 0) ≡ true }
    ensures owes_save { owed lawful_judge (drop 11 (rerun itself)) ≡ ToSave (record { 0 = 0 }) (file_of 0 0) }
{}
