use crate::fault::Fault;
use crate::op::{Binary, Unary};
use crate::value::Value;
use std::sync::Arc;
use tl_lang::{Items, Name};
use tl_types::Shared;

/// An expression made ready for evaluation: what stands in the program, an input or the
/// configuration is at hand as a value, and each part can be shared by the frames that wait for it.
#[derive(Debug, Drop)]
pub enum Node {
    /// A text, a number, an input or the value of a key.
    Known(Value),
    /// What has no value.
    Unknown(Fault),
    Var(Shared<Name>),
    Unary(Unary, Arc<Node>),
    Binary(Binary, Arc<Node>, Arc<Node>),
    Sub(Arc<Node>, Arc<Node>, Arc<Node>),
    If(Arc<Node>, Arc<Node>, Arc<Node>),
    Let(Shared<Name>, Arc<Node>, Arc<Node>),
    List(Arc<Items<Arc<Node>>>),
    Each(Shared<Name>, Arc<Node>, Arc<Node>),
    Keep(Shared<Name>, Arc<Node>, Arc<Node>),
    Fold(Shared<Name>, Shared<Name>, Arc<Node>, Arc<Node>, Arc<Node>),
}
