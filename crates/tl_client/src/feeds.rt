//! What a job is fed.

ghost use Rattle.std.specs.Prelude.{◌≡◌, map, IfOk};
ghost use Rattle.std.specs.List.{All};
ghost use Rattle.tl_client.specs.Feeds.{IsWhole, IsWholeFeed, fed_outcome, saved_outcome};

use std::alloc::Global;
use tl_core::Feed;
use tl_io::{MemTicket, SureDepot};
use tl_model::Saved;
use tl_types::{NoMemory, Outcome};
use tl_vault::{LoadError, load};

/// What a file holds of which this is saved.
pub(crate) fn load_saved(
    alloc: Global,
    depot: &mut SureDepot,
    saved: &Saved<MemTicket>,
) -> Result<Outcome, NoMemory>
    requires { IsWhole saved.now }
    ensures { IfOk result (λ outcome. outcome ≡ saved_outcome saved.now) }
{
    match load(alloc, depot, saved) {
        Ok(outcome) => Ok(outcome),
        Err(LoadError::NoMemory) => Err(NoMemory),
        Err(LoadError::Fault) => unreachable!(),
        Err(LoadError::Damaged(_)) => unreachable!(),
    }
}

// What an input holds.
fn outcome_of(
    alloc: Global,
    depot: &mut SureDepot,
    feed: &Feed<MemTicket>,
) -> Result<Outcome, NoMemory>
    requires { IsWholeFeed feed.now }
    ensures { IfOk result (λ outcome. outcome ≡ fed_outcome feed.now) }
{
    match feed {
        Feed::Have(block) => Ok(block.get().outcome().clone()?),
        Feed::Kept(_, saved) => load_saved(alloc, depot, saved),
    }
}

/// What the inputs hold, in order.
pub(crate) fn outcomes_of(
    alloc: Global,
    depot: &mut SureDepot,
    feeds: &[Feed<MemTicket>],
) -> Result<Vec<Outcome>, NoMemory>
    requires { All IsWholeFeed feeds.now }
    ensures { IfOk result (λ outcomes. outcomes.items ≡ map fed_outcome feeds.now) }
{
    let mut outcomes = Vec::new(alloc);
    for feed in feeds {
        outcomes.push(outcome_of(alloc, depot, feed)?)?;
    }
    Ok(outcomes)
}
