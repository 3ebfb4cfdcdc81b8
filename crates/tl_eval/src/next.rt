use crate::fault::Fault;
use crate::node::Node;
use crate::value::Value;
use std::sync::Arc;

/// How an evaluation goes on.
#[derive(Debug, Drop)]
pub enum Next {
    /// This node is entered next.
    Enter(Arc<Node>),
    /// The frame on top gets this value.
    Give(Value),
    Stop(Fault),
}
