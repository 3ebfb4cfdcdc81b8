//! What is loaded from the checkpoint store.

ghost use Rattle.std.specs.Prelude.{◌≡◌, ◌≤◌, true, length, map, Err, IfErr, IfOk};
ghost use Rattle.std.specs.List.{All};
ghost use Rattle.tl_io.specs.Counts.{Rises};
ghost use Rattle.tl_work.specs.declared.error.WorkError.TheVariants.{StoreFault};
ghost use Rattle.tl_work.specs.Loads.{IsDamageAmong, IsDamageOf, IsFeedDamage, IsLoadOf};
ghost use Rattle.tl_work.specs.Loads.{IsLoadable, IsLoadableFeed, WhereDamaged, fed_outcome};

use crate::error::WorkError;
use std::alloc::Global;
use tl_cluster::Feed;
use tl_io::Depot;
use tl_model::Saved;
use tl_types::Outcome;
use tl_vault::load;

/// What a saved value stands for.
pub fn load_saved<D: Depot>(
    alloc: Global,
    depot: &mut D,
    saved: &Saved<D::Ticket>,
) -> Result<Outcome, WorkError>
    requires { IsLoadable saved.now }
    ensures loaded { IfOk result (IsLoadOf D.Ticket.tells D.Ticket.content saved.now) }
    ensures damaged { IfErr result
        (WhereDamaged (IsDamageOf D.Ticket.tells D.Ticket.content saved.now)) }
    ensures fault { result ≡ Err StoreFault → Rises (D.faults depot.old) (D.faults depot.new) }
    ensures never_falls { D.faults depot.old ≤ D.faults depot.new }
{
    Ok(load(alloc, depot, saved)?)
}

// What an input holds.
fn outcome_of<D: Depot>(
    alloc: Global,
    depot: &mut D,
    feed: &Feed<D::Ticket>,
) -> Result<Outcome, WorkError>
    requires { IsLoadableFeed feed.now }
    ensures got { IfOk result (λ outcome. D.Ticket.tells ≡ true →
        outcome ≡ fed_outcome D.Ticket.content feed.now) }
    ensures damaged { IfErr result (WhereDamaged (λ damage.
        IsFeedDamage D.Ticket.tells D.Ticket.content damage feed.now)) }
    ensures fault { result ≡ Err StoreFault → Rises (D.faults depot.old) (D.faults depot.new) }
    ensures never_falls { D.faults depot.old ≤ D.faults depot.new }
{
    match feed {
        Feed::Have(block) => Ok(block.get().outcome().clone()?),
        Feed::Kept(_, saved) => load_saved(alloc, depot, saved),
    }
}

/// What the inputs of a job hold, in order.
pub(crate) fn outcomes_of<D: Depot>(
    alloc: Global,
    depot: &mut D,
    feeds: &[Feed<D::Ticket>],
) -> Result<Vec<Outcome>, WorkError>
    requires { All IsLoadableFeed feeds.now }
    ensures each { IfOk result (λ got. length got.items ≡ length feeds.now) }
    ensures told { IfOk result (λ got. D.Ticket.tells ≡ true →
        got.items ≡ map (fed_outcome D.Ticket.content) feeds.now) }
    ensures damaged { IfErr result
        (WhereDamaged (IsDamageAmong D.Ticket.tells D.Ticket.content feeds.now)) }
    ensures fault { result ≡ Err StoreFault → Rises (D.faults depot.old) (D.faults depot.new) }
    ensures never_falls { D.faults depot.old ≤ D.faults depot.new }
{
    let mut outcomes = Vec::new(alloc);
    for feed in feeds {
        outcomes.push(outcome_of(alloc, depot, feed)?)?;
    }
    Ok(outcomes)
}
