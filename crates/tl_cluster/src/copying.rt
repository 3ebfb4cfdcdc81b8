//! Copies of what the checkpoint store keeps.

ghost use Rattle.std.specs.Prelude.{◌≡◌, IfOk};
ghost use Rattle.std.specs.Option.{option_copied};
ghost use Rattle.tl_cluster.specs.Kept.{IsCopyOf};
ghost use Rattle.tl_cluster.specs.Looks.{ShowsKept};

use crate::look::Look;
use tl_io::Ticket;
use tl_model::Saved;
use tl_types::NoMemory;

/// A saved value of the same, with a ticket of its own.
pub(crate) fn copy_saved<T: Ticket>(saved: &Saved<T>) -> Result<Saved<T>, NoMemory>
    ensures { IfOk result (IsCopyOf T.content saved.now) }
{
    match saved {
        Saved::Held {
            ticket,
            len,
            digest,
        } => Ok(Saved::Held {
            ticket: ticket.copy()?,
            len: *len,
            digest: *digest,
        }),
        Saved::Failed(code) => Ok(Saved::Failed(*code)),
    }
}

/// What is shown of a file of which this is kept.
pub(crate) fn look_at<T: Ticket>(kept: Option<&Saved<T>>) -> Result<Look<T>, NoMemory>
    ensures { IfOk result (ShowsKept T.content (option_copied kept.entry)) }
{
    match kept {
        Some(saved) => Ok(Look::Saved(copy_saved(saved)?)),
        None => Ok(Look::NotYet),
    }
}
