//! Worked journals: facts about the definitions, found by computing them.
#![tactic(auto)]

mod chain_lost;
mod deleted_input;
mod eviction;
mod inherited_priority;
mod input_twice;
mod log_count;
mod own_rules;
mod pins;
mod refused_actors;
mod refused_calls;
mod refused_collects;
mod refused_frees;
mod refused_jobs;
mod refused_owing;
mod refused_reads;
mod refused_saves;
mod rerun;
mod roots;
mod saved_ancestor;
mod saved_end;
mod shared_claims;
mod two_outputs;
mod unlawful;
