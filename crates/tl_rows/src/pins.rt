//! A pinned file is never evicted.

ghost use Rattle.std.specs.Prelude.{◌≡◌, None, Some, drop, true};
ghost use Rattle.tl_model.specs.Eviction.{first_to_drop, used, victim};
ghost use Rattle.tl_model.specs.History.{is_pinned};
ghost use Rattle.tl_model.specs.Residency.{recency};
ghost use Rattle.tl_model.specs.Rules.{is_lawful, is_legal, size_of};
ghost use Rattle.tl_rows.specs.Pins.{pins, pins_past};
ghost use Rattle.tl_rows.specs.Words.{file_of, hashed, header, itself, worker};

/// Of the files that may go, the one used least lately goes first.
#[tactic(auto, unfolding(crate::specs::Computing::computing))]
pub fn pins()
    ensures lawful { is_lawful (header 1 6 9) (pins itself) ≡ true }
    ensures legal { is_legal (header 1 6 9) (pins hashed) ≡ true }
    ensures pinned { is_pinned (drop 2 pins_past) (file_of 0 0) ≡ true }
    ensures pinned_recency { recency (drop 2 pins_past) (file_of 0 0) ≡ 4 }
    ensures read_recency { recency (drop 2 pins_past) (file_of 1 0) ≡ 11 }
    ensures other_recency { recency (drop 2 pins_past) (file_of 2 0) ≡ 8 }
    ensures used { used (size_of (drop 2 (pins itself))) (drop 2 pins_past) (worker 0) ≡ 10 }
    ensures to_drop { first_to_drop (size_of (drop 2 (pins itself))) (header 1 6 9) (drop 2 pins_past) ≡ Some (worker 0) }
    ensures before_the_pin { victim (drop 8 pins_past) (worker 0) ≡ Some (file_of 0 0) }
    ensures first { victim (drop 2 pins_past) (worker 0) ≡ Some (file_of 2 0) }
    ensures second { victim (drop 1 pins_past) (worker 0) ≡ Some (file_of 1 0) }
    ensures none_to_drop { first_to_drop (size_of (pins itself)) (header 1 6 9) pins_past ≡ None }
{}
