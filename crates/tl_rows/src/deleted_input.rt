//! A record whose file has no name any more is kept for the record that reads it.

ghost use Rattle.std.specs.Prelude.{◌≡◌, None, Some, drop, false, true};
ghost use Rattle.tl_model.specs.History.{is_named};
ghost use Rattle.tl_model.specs.Needs.{garbage, is_needed, is_reachable, is_root};
ghost use Rattle.tl_model.specs.Residency.{is_kept};
ghost use Rattle.tl_model.specs.Rules.{is_lawful, is_legal};
ghost use Rattle.tl_rows.specs.DeletedInput.{deleted_input, deleted_input_past};
ghost use Rattle.tl_rows.specs.Words.{file_of, hashed, header, id, itself};

/// Only the record of the put may go, whose file is saved.
#[tactic(auto, unfolding(crate::specs::Computing::computing))]
pub fn deleted_input()
    ensures lawful { is_lawful (header 1 100 9) (deleted_input itself) ≡ true }
    ensures legal { is_legal (header 1 100 9) (deleted_input hashed) ≡ true }
    ensures garbage { garbage (drop 10 deleted_input_past) ≡ Some (id 0) }
    ensures none_left { garbage (drop 9 deleted_input_past) ≡ None }
    ensures unnamed { is_named (drop 10 deleted_input_past) (file_of 2 0) ≡ false }
    ensures needed { is_needed (drop 10 deleted_input_past) (id 2) ≡ true }
    ensures not_needed { is_needed (drop 10 deleted_input_past) (id 0) ≡ false }
    ensures needed_by_its_task { is_needed (drop 17 deleted_input_past) (id 1) ≡ true }
    ensures kept { is_kept (drop 10 deleted_input_past) (id 0) ≡ true }
    ensures root_of_tasks { is_root (drop 7 deleted_input_past) (file_of 2 0) ≡ true }
    ensures no_root { is_root (drop 8 deleted_input_past) (file_of 2 0) ≡ false }
    ensures reachable { is_reachable (drop 8 deleted_input_past) (file_of 2 0) ≡ true }
    ensures not_kept { is_kept (drop 9 deleted_input_past) (id 0) ≡ false }
{}
