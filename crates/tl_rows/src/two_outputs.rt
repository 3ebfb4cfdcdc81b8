//! A job that runs again brings only those of its outputs that are nowhere.

ghost use Rattle.std.specs.Prelude.{◌≡◌, [], ◌∷◌, None, Some, codes, drop, true};
ghost use Rattle.tl_model.specs.Checkpoints.{edge};
ghost use Rattle.tl_model.specs.Needs.{is_needed};
ghost use Rattle.tl_model.specs.Past.{without_tickets};
ghost use Rattle.tl_model.specs.Plan.{next, prio};
ghost use Rattle.tl_model.specs.Residency.{place, recency};
ghost use Rattle.tl_model.specs.Rules.{ToFree, is_lawful, is_legal, lawful_judge, owed};
ghost use Rattle.tl_model.specs.declared.header.OrderRule.TheVariants.{Strict};
ghost use Rattle.tl_model.specs.declared.reply.Reply.TheVariants.{Fine};
ghost use Rattle.tl_rows.specs.TwoOutputs.{two_outputs, two_outputs_past};
ghost use Rattle.tl_rows.specs.Words.{at, call, cat, delete, file_of, hashed, header, id, itself, job, made, opened, then_text, worker};

/// Where each of the two files is, from event to event.
#[tactic(auto, unfolding(crate::specs::Computing::computing))]
pub fn two_outputs()
    ensures lawful { is_lawful (header 2 100 9) (two_outputs itself) ≡ true }
    ensures legal { is_legal (header 2 100 9) (two_outputs hashed) ≡ true }
    ensures made { place (drop 13 two_outputs_past) (file_of 0 0) ≡ Some (worker 0) }
    ensures other_made { place (drop 13 two_outputs_past) (file_of 0 1) ≡ Some (worker 0) }
    ensures freed { place (drop 11 two_outputs_past) (file_of 0 0) ≡ None }
    ensures other_not_freed { place (drop 11 two_outputs_past) (file_of 0 1) ≡ Some (worker 0) }
    ensures made_again { place (drop 8 two_outputs_past) (file_of 0 0) ≡ Some (worker 1) }
    ensures other_not_again { place (drop 8 two_outputs_past) (file_of 0 1) ≡ Some (worker 0) }
    ensures not_lost { place (drop 6 two_outputs_past) (file_of 0 0) ≡ Some (worker 1) }
    ensures other_lost { place (drop 6 two_outputs_past) (file_of 0 1) ≡ None }
    ensures at_end { place two_outputs_past (file_of 0 0) ≡ Some (worker 1) }
    ensures other_at_end { place two_outputs_past (file_of 0 1) ≡ Some (worker 1) }
    ensures edge { edge (header 2 100 9) (drop 13 two_outputs_past) ≡ file_of 0 0 ∷ file_of 0 1 ∷ [] }
    ensures recency_again { recency (drop 8 two_outputs_past) (file_of 0 0) ≡ 7 }
    ensures other_recency_stays { recency (drop 8 two_outputs_past) (file_of 0 1) ≡ 2 }
    ensures next_for_other { next Strict (drop 3 two_outputs_past) ≡ Some (id 0) }
    ensures owes_free { owed lawful_judge (drop 12 (two_outputs itself)) ≡ ToFree (record { 0 = 0 }) (file_of 0 0) }
{}

/// One of the two files is enough for a priority to be passed on, and for the record to be needed.
#[tactic(auto, unfolding(crate::specs::Computing::computing))]
pub fn one_of_two()
    ensures read { prio (without_tickets (call 1 (opened 0 1) (cat 5 (codes "y")) ∷ drop 4 (two_outputs itself))) (id 0) ≡ 5 }
    ensures waiting { prio (without_tickets (call 0 (made 1) (job 7 (then_text (codes "1")) (at (codes "y") ∷ []) (at (codes "z") ∷ [])) ∷ drop 15 (two_outputs itself))) (id 0) ≡ 7 }
    ensures needed { is_needed (without_tickets (call 0 Fine (delete (codes "y")) ∷ drop 13 (two_outputs itself))) (id 0) ≡ true }
{}
