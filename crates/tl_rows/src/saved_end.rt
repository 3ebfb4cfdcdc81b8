//! Once the end of a chain is saved, no record before it is needed.

ghost use Rattle.std.specs.Prelude.{◌≡◌, [], ◌∷◌, None, Some, drop, false, true};
ghost use Rattle.tl_model.specs.Checkpoints.{edge};
ghost use Rattle.tl_model.specs.Needs.{garbage, is_needed, is_reachable};
ghost use Rattle.tl_model.specs.Plan.{is_task};
ghost use Rattle.tl_model.specs.Residency.{place, recency};
ghost use Rattle.tl_model.specs.Rules.{ToServe, is_lawful, is_legal, lawful_judge, owed};
ghost use Rattle.tl_rows.specs.SavedEnd.{saved_end, saved_end_past};
ghost use Rattle.tl_rows.specs.Words.{file_of, hashed, header, id, itself, worker};

/// The records go one by one, and the saved file is loaded for the last read.
#[tactic(auto, unfolding(crate::specs::Computing::computing))]
pub fn saved_end()
    ensures lawful { is_lawful (header 1 100 9) (saved_end itself) ≡ true }
    ensures legal { is_legal (header 1 100 9) (saved_end hashed) ≡ true }
    ensures edge { edge (header 1 100 9) (drop 10 saved_end_past) ≡ file_of 3 0 ∷ [] }
    ensures needed_before { is_needed (drop 10 saved_end_past) (id 1) ≡ true }
    ensures first { garbage (drop 8 saved_end_past) ≡ Some (id 0) }
    ensures second { garbage (drop 7 saved_end_past) ≡ Some (id 1) }
    ensures third { garbage (drop 6 saved_end_past) ≡ Some (id 2) }
    ensures fourth { garbage (drop 5 saved_end_past) ≡ Some (id 3) }
    ensures none { garbage (drop 4 saved_end_past) ≡ None }
    ensures lost { place (drop 2 saved_end_past) (file_of 3 0) ≡ None }
    ensures loaded { place saved_end_past (file_of 3 0) ≡ Some (worker 0) }
    ensures recency_of_done { recency (drop 2 saved_end_past) (file_of 3 0) ≡ 10 }
    ensures recency_of_load { recency (drop 1 saved_end_past) (file_of 3 0) ≡ 21 }
    ensures recency_of_no_resident { recency saved_end_past (file_of 0 0) ≡ 0 }
    ensures reachable { is_reachable (drop 2 saved_end_past) (file_of 3 0) ≡ true }
    ensures not_reachable { is_reachable (drop 2 saved_end_past) (file_of 2 0) ≡ false }
    ensures no_task { is_task (drop 2 saved_end_past) (id 3) ≡ false }
    ensures owes_served { owed lawful_judge (drop 1 (saved_end itself)) ≡ ToServe (record { 0 = 0 }) (file_of 3 0) }
{}
