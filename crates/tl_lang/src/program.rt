use crate::expr::Expr;
use sqlite_items::Items;

/// A program of the job language: an expression for each output, in order. What is asked of its
/// text and of how many outputs it has is not asked here.
#[derive(Debug, Drop)]
pub struct Program {
    pub outputs: Items<Expr>,
}
