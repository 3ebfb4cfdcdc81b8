//! Saves and loads of a checkpoint store in a folder.
ghost use Rattle.std.specs.Prelude.{◌≡◌, ◌≤◌, All, IsTrue, length, vec_len, IfOk};

use crate::pace::Pace;
use std::alloc::{AllocError, Global};
use std::fs;
use std::io::{self, ErrorKind};
use std::rt::{Clock, Files};
use std::time::Instant;
use tl_depot::FolderDepot;
use tl_io::{Depot, DepotError, Ticket};
use tl_model::Saved;
use tl_types::{Digest, sha256_digest};
use tl_vault::{LoadError, load};

/// How many bytes a block has.
const BLOCK: u32 = 1_048_576;

/// Saves so many blocks of 1 MiB in a new folder `tl_bench` of a folder, loads them, loads them with their digests
/// tested, and takes the new folder away. Prints how many were saved and how many came back; on standard error how long
/// each took, in MiB.
pub(crate) fn measure(
    rt: &(impl Clock + Files + Alloc + Print + Eprint),
    alloc: Global,
    folder: &str,
    blocks: u32,
) -> io::Result<()> {
    let own = format!(in alloc; "{folder}/tl_bench")?;
    fs::create_dir(rt, own.as_str())?;
    let times = times_in(rt, alloc, own.as_str(), blocks);
    fs::remove_dir_all(rt, own.as_str())?;
    let (saving, loading, testing) = times?;
    let saved = saving.count;
    let loaded = loading.count;
    let tested = testing.count;
    println!(rt; "folder {blocks} saved {saved} loaded {loaded} tested {tested}")?;
    eprintln!(rt; "  saves, in MiB: {saving}")?;
    eprintln!(rt; "  loads, in MiB: {loading}")?;
    eprintln!(rt; "  loads with the digest tested, in MiB: {testing}")
}

// How long the saves, the loads, and the loads with the digest tested took.
fn times_in(
    rt: &(impl Clock + Files),
    alloc: Global,
    folder: &str,
    blocks: u32,
) -> io::Result<(Pace, Pace, Pace)> {
    let block = block_of(alloc)?;
    let bytes = block.as_slice();
    let digest = sha256_digest(bytes);
    let mut depot = FolderDepot::new(rt, String::from_str(alloc, folder)?, 0);
    let start = Instant::now(rt)?;
    let tickets = save_all(alloc, &mut depot, bytes, blocks).map_err(error_of)?;
    let saving = Pace {
        count: tickets.len() as u64,
        time: start.elapsed(rt)?,
    };
    let start = Instant::now(rt)?;
    let loaded = load_all(alloc, &mut depot, tickets.as_slice(), bytes).map_err(error_of)?;
    let loading = Pace {
        count: loaded,
        time: start.elapsed(rt)?,
    };
    let start = Instant::now(rt)?;
    let tested = test_all(alloc, &mut depot, tickets.as_slice(), digest).map_err(error_of)?;
    let testing = Pace {
        count: tested,
        time: start.elapsed(rt)?,
    };
    Ok((saving, loading, testing))
}

// A block's bytes.
fn block_of(alloc: Global) -> Result<Vec<u8>, AllocError> {
    (0..BLOCK).map(|k| (k % 251) as u8).collect(alloc)
}

// The error of a depot, as one of input and output.
fn error_of(error: DepotError) -> io::Error {
    match error {
        DepotError::Failed => io::Error::new(ErrorKind::Other, "the folder failed"),
        DepotError::NoMemory => AllocError.into(),
    }
}

/// Saves these bytes so often, for a ticket each.
pub(crate) fn save_all<D: Depot>(
    alloc: Global,
    depot: &mut D,
    bytes: &[u8],
    times: u32,
) -> Result<Vec<D::Ticket>, DepotError>
    ensures count { IfOk result (λ tickets. vec_len tickets ≡ times) }
    ensures content { IfOk result (λ tickets. IsTrue D.Ticket.tells →
        All (λ ticket. D.Ticket.content ticket ≡ bytes.now) tickets.items) }
{
    let mut tickets = Vec::new(alloc);
    for _ in 0..times {
        let ticket = depot.save(alloc, bytes)?;
        tickets.push(ticket).map_err(AllocError::from)?;
    }
    Ok(tickets)
}

/// Loads what was kept for each ticket, and answers how often that was just these bytes.
pub(crate) fn load_all<D: Depot>(
    alloc: Global,
    depot: &mut D,
    tickets: &[D::Ticket],
    bytes: &[u8],
) -> Result<u64, DepotError>
    ensures { IfOk result (λ same. same ≤ length tickets.now) }
{
    let mut same = 0;
    for ticket in tickets {
        if depot.load(alloc, ticket, bytes.len())?.as_slice() == bytes {
            same += 1;
        }
    }
    Ok(same)
}

/// Loads what was kept for each ticket, tests that it has a block's length and this digest, and answers how often it
/// had.
pub(crate) fn test_all<D: Depot>(
    alloc: Global,
    depot: &mut D,
    tickets: &[D::Ticket],
    digest: Digest,
) -> Result<u64, DepotError>
    ensures { IfOk result (λ fitting. fitting ≤ length tickets.now) }
{
    let mut fitting = 0;
    for ticket in tickets {
        let saved = Saved::Held {
            ticket: ticket.copy()?,
            len: u64::from(BLOCK),
            digest,
        };
        match load(alloc, depot, &saved) {
            Ok(_) => fitting += 1,
            Err(LoadError::Damaged(_)) => {}
            Err(LoadError::Fault) => return Err(DepotError::Failed),
            Err(LoadError::NoMemory) => return Err(DepotError::NoMemory),
        }
    }
    Ok(fitting)
}
