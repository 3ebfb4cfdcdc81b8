//! A count of the errors in four logs, by twelve jobs.

ghost use Rattle.std.specs.Prelude.{◌≡◌, [], ◌∷◌, None, Some, codes, drop, true};
ghost use Rattle.tl_types.specs.declared.outcome.Outcome.TheVariants.{Value};
ghost use Rattle.tl_model.specs.Checkpoints.{edge};
ghost use Rattle.tl_model.specs.Needs.{garbage, is_needed};
ghost use Rattle.tl_model.specs.Plan.{next};
ghost use Rattle.tl_model.specs.Residency.{reads};
ghost use Rattle.tl_model.specs.Rules.{is_lawful};
ghost use Rattle.tl_model.specs.Values.{value};
ghost use Rattle.tl_model.specs.declared.header.OrderRule.TheVariants.{Strict};
ghost use Rattle.tl_rows.specs.LogCount.{log_count, log_count_past, log_report_past, report};
ghost use Rattle.tl_rows.specs.Words.{file_of, header, id, itself};

/// The whole journal is lawful, and what its last files hold.
#[tactic(auto, unfolding(crate::specs::Computing::computing))]
pub fn log_count()
    ensures lawful { is_lawful (header 2 4096 3) (log_count itself) ≡ true }
    ensures report { value (log_count itself) (file_of 15 0) ≡ Value report }
    ensures total { value (log_count itself) (file_of 14 0) ≡ Value (codes "3") }
{}

/// What may be saved once the report was read.
#[tactic(auto, unfolding(crate::specs::Computing::computing))]
pub fn log_report()
    ensures edge { edge (header 2 4096 3) log_report_past ≡ file_of 15 0 ∷ [] }
    ensures more_read { edge (header 2 4096 2) log_report_past ≡ file_of 15 0 ∷ file_of 4 0 ∷ [] }
    ensures all_read { edge (header 2 4096 1) log_report_past
        ≡ file_of 15 0 ∷ file_of 4 0 ∷ file_of 5 0 ∷ file_of 6 0 ∷ file_of 7 0 ∷ file_of 8 0 ∷ file_of 9 0 ∷ file_of 10 0 ∷ file_of 11 0 ∷ file_of 12 0 ∷ file_of 13 0 ∷ file_of 14 0 ∷ [] }
    ensures hottest { edge (header 2 4096 2) (drop 1 log_report_past) ≡ file_of 15 0 ∷ file_of 4 0 ∷ [] }
    ensures reads { reads log_report_past (file_of 4 0) ≡ 2 }
    ensures reads_of_report { reads log_report_past (file_of 15 0) ≡ 1 }
{}

/// Which record goes first, and that the others are needed for the total.
#[tactic(auto, unfolding(crate::specs::Computing::computing))]
pub fn log_garbage()
    ensures before_save { garbage log_report_past ≡ Some (id 0) }
    ensures first { garbage (drop 34 log_count_past) ≡ Some (id 0) }
    ensures second { garbage (drop 33 log_count_past) ≡ Some (id 1) }
    ensures third { garbage (drop 32 log_count_past) ≡ Some (id 2) }
    ensures fourth { garbage (drop 31 log_count_past) ≡ Some (id 3) }
    ensures last { garbage (drop 30 log_count_past) ≡ Some (id 15) }
    ensures none { garbage (drop 29 log_count_past) ≡ None }
    ensures needed { is_needed (drop 29 log_count_past) (id 4) ≡ true }
    ensures next_for_report { next Strict (drop 26 log_count_past) ≡ None }
    ensures next_for_total { next Strict (drop 23 log_count_past) ≡ Some (id 4) }
{}
