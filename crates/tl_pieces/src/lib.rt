//! What a client's line is in a journal that others write too: what an actor added, at which
//! moments a fact was so, what each line leaves and is answered, and what is published. The laws
//! say how these go together; each is the contract of a function with an empty body.
#![tactic(auto)]

mod additions;
mod calling;
mod causing;
mod counting;
mod instants;
mod lengthening;
mod owning;
mod publishing;
mod resting;
mod running;
mod serving;
mod worked;

pub use additions::{additions_are_own_events, additions_follow_each_other, nothing_was_added};
pub use calling::a_call_adds_itself_and_what_follows;
pub use causing::{
    damage_is_of_a_store_that_tells_nothing, lines_without_a_store_fail_for_memory_alone,
    store_faults_are_counted,
};
pub use counting::{
    collections_add_their_records, counts_fall_short_for_a_reason, saves_add_their_begin_and_end,
};
pub use instants::{
    a_moment_is_one_after_others_events, a_moment_is_one_of_the_longer_journal, now_is_a_moment,
};
pub use lengthening::{lines_add_to_the_journal, lines_stand_in_longer_journals};
pub use owning::{an_owners_call_is_answered_by_what_stood, an_owners_read_is_of_the_opened_file};
pub use publishing::{
    a_glimpse_of_all_is_the_reply, glimpses_of_the_past_stay, others_publish_nothing,
};
pub use resting::{
    an_act_with_drops_adds_the_act, drops_add_nothing, where_nothing_was_added_nothing_opens,
};
pub use running::{
    a_lost_run_had_its_worker_lost, a_run_adds_its_claim_and_end, a_run_has_its_moment,
    a_run_is_lost_by_others_alone, runs_add_their_claims_and_ends, runs_follow_each_other,
};
pub use serving::{
    a_read_given_up_adds_its_call_runs_and_end, a_served_read_adds_its_call_runs_and_end,
    a_try_adds_its_call_and_end,
};
pub use worked::{a_put_and_a_read_are_lines, an_empty_journal_has_its_lines};
