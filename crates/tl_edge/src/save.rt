//! The save that each actor has open.

ghost use Rattle.std.specs.Prelude.{◌≡◌, map};
ghost use Rattle.std.specs.List.{list_any};
ghost use Rattle.tl_model.specs.Past.{act_with, event_with};
ghost use Rattle.tl_model.specs.Actors.{actors, save_after, saves_file};
ghost use Rattle.tl_edge.specs.Data.{is_being_saved_in, new_save, save_next, save_step};

use tl_model::{Act, Event};
use tl_steps::{SEATS, same_actor, same_file};
use tl_types::{Actor, FileId};

/// An actor with the file of the save that it has open.
#[derive(Clone, Copy, Debug)]
pub struct Save {
    pub actor: Actor,
    pub file: Option<FileId>,
}

/// Everyone who makes events, with no save open.
pub(crate) fn new_saves() -> [Save; SEATS]
    ensures { result ≡ map new_save actors }
{
    [
        new_save(0),
        new_save(1),
        new_save(2),
        new_save(3),
        new_save(4),
        new_save(5),
        new_save(6),
        new_save(7),
        new_save(8),
        new_save(9),
        new_save(10),
        new_save(11),
        new_save(12),
        new_save(13),
        new_save(14),
        new_save(15),
    ]
}

// The actor of a number, with no save open.
fn new_save(number: u8) -> Save
    ensures { result ≡ new_save (record { 0 = number }) }
{
    Save {
        actor: Actor(number),
        file: None,
    }
}

/// Whether a save of the file is open.
pub(crate) fn is_being_saved(saves: &[Save], file: FileId) -> bool
    ensures { result ≡ is_being_saved_in saves.now file }
{
    saves.iter().any(|save| saves_file(file, save.file))
}

// Whether the save is one of the file.
fn saves_file(file: FileId, saved: Option<FileId>) -> bool
    ensures { result ≡ saves_file file saved }
{
    match saved {
        Some(other) => same_file(file, other),
        None => false,
    }
}

/// The saves that are open after an event.
pub(crate) fn note_saves<T>(saves: &mut [Save], event: &Event<T>)
    ensures { saves.new ≡ map (save_next (event_with (λ _. tt) event.now)) saves.old }
{
    for save in saves.iter_mut() {
        *save = save_next(event, *save);
    }
}

// An actor's save after an event.
fn save_next<T>(event: &Event<T>, before: Save) -> Save
    ensures { result ≡ save_next (event_with (λ _. tt) event.now) before }
{
    Save {
        actor: before.actor,
        file: save_step(event, before.actor, before.file),
    }
}

// The file of the actor's save after an event, where it was `before` before it.
fn save_step<T>(event: &Event<T>, actor: Actor, before: Option<FileId>) -> Option<FileId>
    ensures { result ≡ save_step (event_with (λ _. tt) event.now) actor before }
{
    if same_actor(actor, event.actor) {
        save_after(&event.act, before)
    } else {
        before
    }
}

// The file of a save after an act of its actor.
fn save_after<T>(act: &Act<T>, before: Option<FileId>) -> Option<FileId>
    ensures { result ≡ save_after (act_with (λ _. tt) act.now) before }
{
    match act {
        Act::Save(file) => Some(*file),
        Act::Saved(_, _, _) | Act::Unsave(_) => None,
        _ => before,
    }
}
