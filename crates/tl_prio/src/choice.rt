//! What is found in the walk from the last record to the first.

ghost use Rattle.std.specs.Prelude.{◌≡◌, Some, option_map, if◌then◌else◌};
ghost use Rattle.tl_prio.specs.declared.choice.Choice.{Choice as ChoiceOf};
ghost use Rattle.tl_model.specs.Past.{Past};
ghost use Rattle.tl_model.specs.Plan.{claims, has_turn_before, is_ready, is_task};
ghost use Rattle.tl_prio.specs.Data.{HasClaims, better_choice, choice_in, none_waiting, prio_from};

use crate::kept::Kept;
use crate::number::least;
use crate::turns::Turns;
use crate::waiting::{clear, settle};
use tl_model::Facts;
use tl_steps::{Seat, same_record};
use tl_types::{Prio, RecordId};

/// A record that can be run, with its priority.
#[derive(Clone, Copy, Debug)]
pub struct Choice {
    pub made: RecordId,
    pub prio: Prio,
}

/// The ready record of least number among those whose priority has its turn.
pub(crate) fn choose<F: Facts>(
    facts: &F,
    turns: &Turns,
    seats: &[Seat],
    records: &[Kept],
    waiting: &mut [Prio],
) -> Option<Choice>
    ensures { (past : Past) → F.speaks_of facts.now past → HasClaims turns.now (claims past) →
        result ≡ choice_in turns.now.rule past seats.now records.now (none_waiting waiting.old) }
{
    clear(waiting);
    choose_from(facts, turns, seats, records, waiting)
}

// The choice, where nothing waits yet.
fn choose_from<F: Facts>(
    facts: &F,
    turns: &Turns,
    seats: &[Seat],
    records: &[Kept],
    waiting: &mut [Prio],
) -> Option<Choice>
    ensures { (past : Past) → F.speaks_of facts.now past → HasClaims turns.now (claims past) →
        result ≡ choice_in turns.now.rule past seats.now records.now waiting.old }
{
    let mut best = None;
    for i in (0..records.len()).rev() {
        let kept = &records[i];
        let prio = settle(facts, seats, records, kept, waiting);
        best = choice_with(facts, turns, kept.made, prio, best);
    }
    best
}

// The better of the record, if it is ready, and the later one.
fn choice_with<F: Facts>(
    facts: &F,
    turns: &Turns,
    made: RecordId,
    prio: Prio,
    later: Option<Choice>,
) -> Option<Choice>
    ensures { (past : Past) → F.speaks_of facts.now past → HasClaims turns.now (claims past) →
        let best = better_choice (has_turn_before turns.now.rule past) made prio later in
        result ≡ (if is_ready past made then Some best else later) }
{
    if facts.is_ready(made) {
        Some(better_choice(turns, made, prio, later))
    } else {
        later
    }
}

// The later record, where its priority has its turn before the earlier one's, else the earlier one.
fn better_choice(turns: &Turns, made: RecordId, prio: Prio, later: Option<Choice>) -> Choice
    ensures { (past : Past) → HasClaims turns.now (claims past) →
        result ≡ better_choice (has_turn_before turns.now.rule past) made prio later }
{
    match later {
        Some(later) if turns.has_turn_before(later.prio, prio) => later,
        _ => Choice { made, prio },
    }
}

/// The record that was chosen.
pub(crate) fn made_of(choice: Option<Choice>) -> Option<RecordId>
    ensures { result ≡ option_map (λ (chosen : ChoiceOf). chosen.made) choice }
{
    match choice {
        Some(chosen) => Some(chosen.made),
        None => None,
    }
}

/// The record's priority.
pub(crate) fn prio_of<F: Facts>(
    facts: &F,
    seats: &[Seat],
    records: &[Kept],
    waiting: &mut [Prio],
    made: RecordId,
) -> Prio
    ensures { (past : Past) → F.speaks_of facts.now past →
        let start = none_waiting waiting.old in
        result ≡ prio_from (is_task past) seats.now records.now start made records.now }
{
    clear(waiting);
    find_prio(facts, seats, records, waiting, made)
}

// The record's priority, where nothing waits yet.
fn find_prio<F: Facts>(
    facts: &F,
    seats: &[Seat],
    records: &[Kept],
    waiting: &mut [Prio],
    made: RecordId,
) -> Prio
    ensures { (past : Past) → F.speaks_of facts.now past →
        result ≡ prio_from (is_task past) seats.now records.now waiting.old made records.now }
{
    let mut found = least();
    for i in (0..records.len()).rev() {
        let kept = &records[i];
        let prio = settle(facts, seats, records, kept, waiting);
        if same_record(made, kept.made) {
            found = prio;
        }
    }
    found
}
