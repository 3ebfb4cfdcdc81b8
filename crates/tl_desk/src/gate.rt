use tl_types::{Actor, RecordId};

/// Whoever is told how far an actor is. One that waits holds the actor up.
pub trait Gate {
    /// The actor has claimed the record's job, and is about to run it.
    fn claimed(&self, actor: Actor, rec: RecordId);

    /// The actor has answered a line of its script.
    fn answered(&self, actor: Actor);
}

/// A gate that lets everybody through.
#[derive(Clone, Copy, Debug, PartialEq, Eq)]
pub struct OpenGate;

impl Gate for OpenGate {
    fn claimed(&self, _actor: Actor, _rec: RecordId) {}

    fn answered(&self, _actor: Actor) {}
}
