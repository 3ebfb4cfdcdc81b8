//! A chain of jobs whose files are all lost is made again from its start.

ghost use Rattle.std.specs.Prelude.{◌≡◌, None, Some, codes, drop, false, true};
ghost use Rattle.tl_types.specs.declared.outcome.Outcome.TheVariants.{Value};
ghost use Rattle.tl_model.specs.Actors.{is_running};
ghost use Rattle.tl_model.specs.Plan.{is_ready, is_task, is_wanted, next};
ghost use Rattle.tl_model.specs.Rules.{is_lawful, is_legal};
ghost use Rattle.tl_model.specs.Values.{value};
ghost use Rattle.tl_model.specs.declared.header.OrderRule.TheVariants.{Strict};
ghost use Rattle.tl_rows.specs.ChainLost.{chain_lost, chain_lost_past};
ghost use Rattle.tl_rows.specs.Words.{file_of, hashed, header, id, itself};

/// The first read after the losses makes three claims, the second none.
#[tactic(auto, unfolding(crate::specs::Computing::computing))]
pub fn chain_lost()
    ensures lawful { is_lawful (header 2 100 9) (chain_lost itself) ≡ true }
    ensures legal { is_legal (header 2 100 9) (chain_lost hashed) ≡ true }
    ensures value { value (chain_lost itself) (file_of 3 0) ≡ Value (codes "x123") }
{}

/// What is next, wanted and ready around the losses.
#[tactic(auto, unfolding(crate::specs::Computing::computing))]
pub fn chain_lost_plan()
    ensures next_at_first { next Strict (drop 18 chain_lost_past) ≡ Some (id 1) }
    ensures next_when_done { next Strict (drop 12 chain_lost_past) ≡ None }
    ensures next_when_lost { next Strict (drop 10 chain_lost_past) ≡ None }
    ensures first { next Strict (drop 9 chain_lost_past) ≡ Some (id 1) }
    ensures first_running { next Strict (drop 8 chain_lost_past) ≡ None }
    ensures second { next Strict (drop 7 chain_lost_past) ≡ Some (id 2) }
    ensures third { next Strict (drop 5 chain_lost_past) ≡ Some (id 3) }
    ensures no_other { next Strict (drop 3 chain_lost_past) ≡ None }
    ensures none_for_second_read { next Strict (drop 1 chain_lost_past) ≡ None }
    ensures task { is_task (drop 9 chain_lost_past) (id 2) ≡ true }
    ensures not_ready { is_ready (drop 9 chain_lost_past) (id 2) ≡ false }
    ensures ready { is_ready (drop 9 chain_lost_past) (id 1) ≡ true }
    ensures running { is_running (drop 8 chain_lost_past) (id 1) ≡ true }
    ensures wanted { is_wanted (drop 9 chain_lost_past) (file_of 0 0) ≡ true }
    ensures not_while_running { is_wanted (drop 8 chain_lost_past) (file_of 0 0) ≡ false }
{}
