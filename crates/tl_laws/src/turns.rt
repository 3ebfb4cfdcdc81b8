//! Under shares each priority gets its share of the claims.

ghost use Rattle.std.specs.Prelude.{◌≡◌, ◌∷◌, true, List};
ghost use Rattle.tl_types.specs.declared.record_id.RecordId.{RecordId};
ghost use Rattle.tl_types.specs.declared.worker_id.WorkerId.{WorkerId};
ghost use Rattle.tl_model.specs.declared.event.Act.TheVariants.{Claim};
ghost use Rattle.tl_model.specs.declared.event.Event.{Event};
ghost use Rattle.tl_model.specs.declared.header.Header.{Header};
ghost use Rattle.tl_model.specs.declared.header.OrderRule.TheVariants.{Shares};
ghost use Rattle.tl_model.specs.Past.{without_tickets};
ghost use Rattle.tl_model.specs.Plan.{is_ready, prio};
ghost use Rattle.tl_model.specs.Rules.{Judge, all_permitted};
ghost use Rattle.tl_laws.specs.Shares.{GotNoMore};

/// In a journal under shares whose events are permitted, each claim is of a record whose priority got
/// no more of its share than that of any other record that was ready: with `claims` counted before the
/// claim, `(claims + 1) / (priority + 1)` is no greater. So no priority that has a record ready is
/// passed over for one that is ahead of it.
pub fn shares_are_kept<T>()
    ensures { (judge : Judge T) (header : Header) (event : Event T) (past : List (Event T)) →
        all_permitted judge header (event ∷ past) ≡ true → header.order ≡ Shares →
        (worker : WorkerId) (made other : RecordId) → event.act ≡ Claim worker made →
        is_ready (without_tickets past) other ≡ true →
        GotNoMore (without_tickets past)
        (prio (without_tickets past) made) (prio (without_tickets past) other) }
{}
