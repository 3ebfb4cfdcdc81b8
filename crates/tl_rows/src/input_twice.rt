//! A claim reads a file once, though its job names the file twice.

ghost use Rattle.std.specs.Prelude.{◌≡◌, [], ◌∷◌, Some, codes, drop, option_map, true};
ghost use Rattle.tl_types.specs.declared.outcome.Outcome.TheVariants.{Value};
ghost use Rattle.tl_model.specs.Checkpoints.{edge};
ghost use Rattle.tl_model.specs.History.{inputs_of, record_at};
ghost use Rattle.tl_model.specs.Residency.{reads, recency};
ghost use Rattle.tl_model.specs.Rules.{is_lawful, is_legal};
ghost use Rattle.tl_model.specs.Values.{value};
ghost use Rattle.tl_rows.specs.InputTwice.{input_twice, input_twice_past};
ghost use Rattle.tl_rows.specs.Words.{file_of, hashed, header, id, itself};

/// Each of two claims counts as one read of the input, so that the first makes it hot at 1, not at 2.
#[tactic(auto, unfolding(crate::specs::Computing::computing))]
pub fn input_twice()
    ensures lawful { is_lawful (header 1 100 9) (input_twice itself) ≡ true }
    ensures legal { is_legal (header 1 100 9) (input_twice hashed) ≡ true }
    ensures value { value (input_twice itself) (file_of 1 0) ≡ Value (codes "xx") }
    ensures inputs { option_map inputs_of (record_at input_twice_past (id 1))
        ≡ Some (file_of 0 0 ∷ file_of 0 0 ∷ []) }
    ensures unread { reads (drop 8 input_twice_past) (file_of 0 0) ≡ 0 }
    ensures read_once { reads (drop 7 input_twice_past) (file_of 0 0) ≡ 1 }
    ensures not_by_done { reads (drop 6 input_twice_past) (file_of 0 0) ≡ 1 }
    ensures read_again { reads (drop 2 input_twice_past) (file_of 0 0) ≡ 2 }
    ensures output_unread { reads (drop 1 input_twice_past) (file_of 1 0) ≡ 0 }
    ensures output_served { reads input_twice_past (file_of 1 0) ≡ 1 }
    ensures recency { recency (drop 6 input_twice_past) (file_of 0 0) ≡ 4 }
    ensures hot { edge (header 1 100 1) (drop 6 input_twice_past) ≡ file_of 1 0 ∷ file_of 0 0 ∷ [] }
    ensures not_hot { edge (header 1 100 2) (drop 6 input_twice_past) ≡ file_of 1 0 ∷ [] }
    ensures hot_at_end { edge (header 1 100 2) input_twice_past ≡ file_of 1 0 ∷ file_of 0 0 ∷ [] }
{}
