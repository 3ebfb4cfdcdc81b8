//! Each priority gets its share of the claims.

ghost use Rattle.std.specs.Prelude.{◌≡◌, ◌∷◌, None, Some, codes, drop, false, true};
ghost use Rattle.tl_types.specs.declared.outcome.Outcome.TheVariants.{Value};
ghost use Rattle.tl_model.specs.Plan.{claims, got_less, has_turn_before, level, next, prio};
ghost use Rattle.tl_model.specs.Rules.{fault_of, is_lawful, is_legal, lawful_judge, legal_judge};
ghost use Rattle.tl_model.specs.Values.{value};
ghost use Rattle.tl_model.specs.declared.header.OrderRule.TheVariants.{Shares, Strict};
ghost use Rattle.tl_rows.specs.SharedClaims.{shared_claims, shared_claims_past};
ghost use Rattle.tl_rows.specs.Words.{claim, file_of, header, id, sharing};

/// The third claim is of the lesser priority, since the greater has had two.
#[tactic(auto, unfolding(crate::specs::Computing::computing))]
pub fn shared_claims()
    ensures lawful { is_lawful (sharing 1 100 9) shared_claims ≡ true }
    ensures legal { is_legal (sharing 1 100 9) shared_claims ≡ true }
    ensures value { value shared_claims (file_of 3 0) ≡ Value (codes "a") }
    ensures first { next Shares (drop 8 shared_claims_past) ≡ Some (id 0) }
    ensures second { next Shares (drop 6 shared_claims_past) ≡ Some (id 1) }
    ensures third { next Shares (drop 4 shared_claims_past) ≡ Some (id 3) }
    ensures fourth { next Shares (drop 2 shared_claims_past) ≡ Some (id 2) }
    ensures none { next Shares shared_claims_past ≡ None }
    ensures while_running { next Shares (drop 5 shared_claims_past) ≡ Some (id 3) }
    ensures greatest_refused { fault_of lawful_judge (sharing 1 100 9) (claim 0 0 2 ∷ drop 4 shared_claims)
        ≡ Some (8, 4) }
{}

/// Which priority has its turn, and how many claims each had so far.
#[tactic(auto, unfolding(crate::specs::Computing::computing))]
pub fn shared_levels()
    ensures first { level Shares (drop 8 shared_claims_past) ≡ Some 7 }
    ensures second { level Shares (drop 6 shared_claims_past) ≡ Some 7 }
    ensures third { level Shares (drop 4 shared_claims_past) ≡ Some 3 }
    ensures fourth { level Shares (drop 2 shared_claims_past) ≡ Some 7 }
    ensures none { level Shares shared_claims_past ≡ None }
    ensures no_claim { claims (drop 8 shared_claims_past) 7 ≡ 0 }
    ensures one_claim { claims (drop 6 shared_claims_past) 7 ≡ 1 }
    ensures two_claims { claims (drop 4 shared_claims_past) 7 ≡ 2 }
    ensures two_still { claims (drop 2 shared_claims_past) 7 ≡ 2 }
    ensures all_claims { claims shared_claims_past 7 ≡ 3 }
    ensures no_lesser_claim { claims (drop 4 shared_claims_past) 3 ≡ 0 }
    ensures lesser_claim { claims (drop 2 shared_claims_past) 3 ≡ 1 }
    ensures no_other_claim { claims shared_claims_past 0 ≡ 0 }
    ensures done { prio (drop 6 shared_claims_past) (id 0) ≡ 0 }
    ensures greater_got_less { got_less (drop 8 shared_claims_past) 7 3 ≡ true }
    ensures greater_got_no_less { got_less (drop 6 shared_claims_past) 7 3 ≡ false }
    ensures lesser_got_no_less { got_less (drop 6 shared_claims_past) 3 7 ≡ false }
    ensures greater_of_equals { has_turn_before Shares (drop 6 shared_claims_past) 7 3 ≡ true }
    ensures lesser_of_equals { has_turn_before Shares (drop 6 shared_claims_past) 3 7 ≡ false }
    ensures lesser_got_less { got_less (drop 4 shared_claims_past) 3 7 ≡ true }
{}

/// Where the greatest priority goes first, the same events are refused from the third claim on.
#[tactic(auto, unfolding(crate::specs::Computing::computing))]
pub fn shared_claims_strictly()
    ensures unlawful { is_lawful (header 1 100 9) shared_claims ≡ false }
    ensures illegal { is_legal (header 1 100 9) shared_claims ≡ false }
    ensures fault { fault_of lawful_judge (header 1 100 9) shared_claims ≡ Some (8, 4) }
    ensures legal_fault { fault_of (legal_judge (header 1 100 9)) (header 1 100 9) shared_claims
        ≡ Some (8, 4) }
    ensures lawful_before { is_lawful (header 1 100 9) (drop 4 shared_claims) ≡ true }
    ensures level { level Strict (drop 4 shared_claims_past) ≡ Some 7 }
    ensures next { next Strict (drop 4 shared_claims_past) ≡ Some (id 2) }
{}
