//! A job takes on the greatest priority of what waits for it.

ghost use Rattle.std.specs.Prelude.{◌≡◌, None, Some, drop, false, true};
ghost use Rattle.tl_model.specs.Actors.{open_read};
ghost use Rattle.tl_model.specs.Plan.{is_ready, next, prio};
ghost use Rattle.tl_model.specs.Rules.{is_lawful, is_legal};
ghost use Rattle.tl_model.specs.declared.header.OrderRule.TheVariants.{Strict};
ghost use Rattle.tl_rows.specs.InheritedPriority.{waiting_job, waiting_job_past, waiting_reads, waiting_reads_past, waits_no_more, waits_no_more_past};
ghost use Rattle.tl_rows.specs.Words.{file_of, hashed, header, id, itself};

/// A job of priority 1 goes before one of 2, since one of 7 waits for it.
#[tactic(auto, unfolding(crate::specs::Computing::computing))]
pub fn waiting_job()
    ensures lawful { is_lawful (header 1 100 9) (waiting_job itself) ≡ true }
    ensures legal { is_legal (header 1 100 9) (waiting_job hashed) ≡ true }
    ensures own { prio (drop 6 waiting_job_past) (id 1) ≡ 2 }
    ensures inherited { prio (drop 6 waiting_job_past) (id 2) ≡ 7 }
    ensures waiting { prio (drop 6 waiting_job_past) (id 3) ≡ 7 }
    ensures not_ready { is_ready (drop 6 waiting_job_past) (id 3) ≡ false }
    ensures first { next Strict (drop 6 waiting_job_past) ≡ Some (id 2) }
    ensures made { prio (drop 4 waiting_job_past) (id 2) ≡ 0 }
    ensures second { next Strict (drop 4 waiting_job_past) ≡ Some (id 3) }
    ensures third { next Strict (drop 2 waiting_job_past) ≡ Some (id 1) }
    ensures done { prio waiting_job_past (id 3) ≡ 0 }
{}

/// A lost file is made again first for the read of greater priority.
#[tactic(auto, unfolding(crate::specs::Computing::computing))]
pub fn waiting_reads()
    ensures lawful { is_lawful (header 1 100 9) (waiting_reads itself) ≡ true }
    ensures legal { is_legal (header 1 100 9) (waiting_reads hashed) ≡ true }
    ensures shared { prio (drop 8 waiting_reads_past) (id 0) ≡ 7 }
    ensures low { prio (drop 8 waiting_reads_past) (id 1) ≡ 1 }
    ensures high { prio (drop 8 waiting_reads_past) (id 2) ≡ 7 }
    ensures first { next Strict (drop 8 waiting_reads_past) ≡ Some (id 0) }
    ensures both_ready { is_ready (drop 6 waiting_reads_past) (id 1) ≡ true }
    ensures second { next Strict (drop 6 waiting_reads_past) ≡ Some (id 2) }
    ensures third { next Strict (drop 3 waiting_reads_past) ≡ Some (id 1) }
    ensures read { open_read (drop 8 waiting_reads_past) (record { 0 = 1 }) ≡ Some (record { file = file_of 2 0; prio = 7 }) }
    ensures read_closed { open_read (drop 3 waiting_reads_past) (record { 0 = 1 }) ≡ None }
{}

/// A job that is running or done passes no priority on, though an input of it was lost.
#[tactic(auto, unfolding(crate::specs::Computing::computing))]
pub fn waits_no_more()
    ensures lawful { is_lawful (header 2 100 9) (waits_no_more itself) ≡ true }
    ensures legal { is_legal (header 2 100 9) (waits_no_more hashed) ≡ true }
    ensures before { prio (drop 11 waits_no_more_past) (id 1) ≡ 7 }
    ensures while_running { prio (drop 6 waits_no_more_past) (id 1) ≡ 1 }
    ensures when_done { prio (drop 4 waits_no_more_past) (id 1) ≡ 1 }
    ensures next { next Strict (drop 4 waits_no_more_past) ≡ Some (id 1) }
{}
