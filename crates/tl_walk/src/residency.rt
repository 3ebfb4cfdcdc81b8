//! How files were saved.

ghost use Rattle.std.specs.Prelude.{◌≡◌, reverse};
ghost use Rattle.tl_model.specs.Past.{act_with, without_tickets};
ghost use Rattle.tl_model.specs.Residency.{is_saved, saved_after, saved_as};

use crate::same::same_file;
use crate::saved::SavedAs;
use tl_model::{Act, Event};
use tl_types::FileId;

/// With which size and digest the file was saved last, if it was saved.
pub fn saved_as<T>(events: &[Event<T>], file: FileId) -> Option<SavedAs>
    ensures { result ≡ saved_as (without_tickets (reverse events.now)) file }
{
    let mut saved = None;
    for event in events {
        saved = saved_after(&event.act, file, saved);
    }
    saved
}

// How the file is saved after an act, where before it it was so.
fn saved_after<T>(act: &Act<T>, file: FileId, before: Option<SavedAs>) -> Option<SavedAs>
    ensures { result ≡ saved_after (act_with (λ _. tt) act.now) file before }
{
    match act {
        Act::Saved(saved, size, digest) if same_file(file, *saved) => {
            Some(SavedAs::new(*size, *digest))
        }
        _ => before,
    }
}

/// Whether the file was saved.
pub fn is_saved<T>(events: &[Event<T>], file: FileId) -> bool
    ensures { result ≡ is_saved (without_tickets (reverse events.now)) file }
{
    saved_as(events, file).is_some()
}
