//! The puts whose bytes stand in the checkpoint store.

ghost use Rattle.std.specs.Prelude.{◌≡◌, option_map, reverse, IfOk};
ghost use Rattle.tl_core.specs.Puts.{kept_put, kept_after, seen, IsCopy};

use crate::resident::same_file;
use tl_io::Ticket;
use tl_model::{Act, Command, Event, Reply, Saved};
use tl_types::{Digest, FileId, NoMemory};

/// The ticket of the put that made the file, with the length and the digest of its bytes.
pub(crate) fn kept_put<T>(events: &[Event<T>], file: FileId) -> Option<(&T, u64, Digest)>
    ensures { option_map seen result ≡ kept_put (reverse events.now) file }
{
    let mut kept = None;
    for event in events {
        kept = kept_after(&event.act, file, kept);
    }
    kept
}

// The put that made the file after an act, where before it it was this one.
fn kept_after<'a, T>(
    act: &'a Act<T>,
    file: FileId,
    before: Option<(&'a T, u64, Digest)>,
) -> Option<(&'a T, u64, Digest)>
    ensures { option_map seen result ≡ kept_after act.now file (option_map seen before.entry) }
{
    match act {
        Act::Call(
            Command::Put {
                len,
                digest,
                ticket,
                ..
            },
            Reply::Made(made),
        ) if same_file(file, FileId { rec: *made, out: 0 }) => Some((ticket, *len, *digest)),
        _ => before,
    }
}

/// The saved value of a put, with a ticket of its own.
pub(crate) fn saved_put<T: Ticket>(put: (&T, u64, Digest)) -> Result<Saved<T>, NoMemory>
    ensures { IfOk result (λ saved. IsCopy T.content (seen put.entry) saved) }
{
    let (ticket, len, digest) = put;
    Ok(Saved::Held {
        ticket: ticket.copy()?,
        len,
        digest,
    })
}
