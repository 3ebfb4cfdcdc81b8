//! Files are evicted from a worker that has too little memory for them.

ghost use Rattle.std.specs.Prelude.{◌≡◌, ◌∷◌, None, Some, codes, drop, true};
ghost use Rattle.tl_types.specs.declared.outcome.Outcome.TheVariants.{Value};
ghost use Rattle.tl_model.specs.Eviction.{first_to_drop, used, victim};
ghost use Rattle.tl_model.specs.Past.{without_tickets};
ghost use Rattle.tl_model.specs.Residency.{place, recency};
ghost use Rattle.tl_model.specs.Rules.{Nothing, ToDrop, fault_of, is_lawful, is_legal, legal_judge, owed, size_of};
ghost use Rattle.tl_model.specs.Values.{value};
ghost use Rattle.tl_rows.specs.Eviction.{both_over, both_over_past, eviction, eviction_past};
ghost use Rattle.tl_rows.specs.Words.{evict, file_of, hashed, header, itself, worker};

/// What a job still waits for stays, whatever its size; it goes once the job was claimed.
#[tactic(auto, unfolding(crate::specs::Computing::computing))]
pub fn eviction()
    ensures lawful { is_lawful (header 1 4 9) (eviction itself) ≡ true }
    ensures legal { is_legal (header 1 4 9) (eviction hashed) ≡ true }
    ensures value { value (eviction itself) (file_of 2 0) ≡ Value (codes "aaaabbbb") }
    ensures used { used (size_of (drop 6 (eviction itself))) (drop 6 eviction_past) (worker 0) ≡ 8 }
    ensures wanted { victim (drop 6 eviction_past) (worker 0) ≡ None }
    ensures none_to_drop { first_to_drop (size_of (drop 6 (eviction itself))) (header 1 4 9) (drop 6 eviction_past) ≡ None }
    ensures to_drop { first_to_drop (size_of (drop 5 (eviction itself))) (header 1 4 9) (drop 5 eviction_past) ≡ Some (worker 0) }
    ensures first { victim (drop 5 eviction_past) (worker 0) ≡ Some (file_of 0 0) }
    ensures second { victim (drop 3 eviction_past) (worker 0) ≡ Some (file_of 1 0) }
    ensures third { victim (drop 1 eviction_past) (worker 0) ≡ Some (file_of 2 0) }
    ensures same_recency { recency (drop 5 eviction_past) (file_of 0 0) ≡ recency (drop 5 eviction_past) (file_of 1 0) }
    ensures recency { recency (drop 5 eviction_past) (file_of 0 0) ≡ 8 }
    ensures owes_drop { owed (legal_judge (header 1 4 9)) (drop 5 (eviction itself)) ≡ ToDrop }
    ensures owes_no_other { owed (legal_judge (header 1 4 9)) (drop 4 (eviction itself)) ≡ Nothing }
{}

/// Of two workers that are over their capacity the least drops first, and only what it has.
#[tactic(auto, unfolding(crate::specs::Computing::computing))]
pub fn both_over()
    ensures lawful { is_lawful (header 2 3 9) (both_over itself) ≡ true }
    ensures legal { is_legal (header 2 3 9) (both_over hashed) ≡ true }
    ensures first { first_to_drop (size_of (drop 4 (both_over itself))) (header 2 3 9) (drop 4 both_over_past) ≡ Some (worker 0) }
    ensures second { first_to_drop (size_of (drop 3 (both_over itself))) (header 2 3 9) (drop 3 both_over_past) ≡ Some (worker 1) }
    ensures second_first { fault_of (legal_judge (header 2 3 9)) (header 2 3 9) (evict 0 1 (file_of 1 0) ∷ drop 4 (both_over hashed)) ≡ Some (8, 9) }
    ensures elsewhere { place (without_tickets (evict 0 1 (file_of 0 0) ∷ drop 4 (both_over itself))) (file_of 0 0) ≡ Some (worker 0) }
{}
