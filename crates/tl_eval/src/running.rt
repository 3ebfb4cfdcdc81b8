ghost use Rattle.std.specs.Prelude.{◌≤◌, IfOk};
ghost use Rattle.tl_eval.specs.Running.{IsUnderWay, Advances, EndsOutput};

use crate::node::Node;
use crate::stack::Stack;
use crate::stop::{self, Stop};
use std::alloc::Global;
use std::sync::Arc;
use tl_lang::Items;
use tl_types::{NoMemory, Outcome};

/// An evaluation under way: it rests before a node for which there is fuel.
#[derive(Debug, Drop)]
pub struct Running {
    pub alloc: Global,
    /// The fuel that each output begins with.
    pub fuel: u32,
    /// The outputs' expressions.
    pub roots: Items<Arc<Node>>,
    /// The outcomes of the outputs that are at their end.
    pub outcomes: Vec<Outcome>,
    /// How many nodes these entered.
    pub spent: u64,
    /// The node that is entered next, of the next output.
    pub node: Arc<Node>,
    pub stack: Stack,
    /// The fuel that this output has left.
    pub left: u32,
}

/// An evaluation at its end.
#[derive(Debug, Drop)]
pub struct Finished {
    pub outcomes: Vec<Outcome>,
    /// How many nodes were entered.
    pub entered: u64,
}

/// How an evaluation stands after a node was entered.
#[derive(Debug, Drop)]
pub enum Progress {
    Going(Running),
    Over(Finished),
}

impl Running {
    /// Enters exactly one node, and goes on through all that costs no fuel.
    pub fn advance(self) -> Result<Progress, NoMemory>
        requires { IsUnderWay self }
        ensures { IfOk result (Advances self) }
    {
        let mut running = self;
        let left = running.left - 1;
        match stop::advance(running.alloc, &running.node, left, &mut running.stack)? {
            Stop::Enter(node) => {
                running.node = node;
                running.left = left;
                Ok(Progress::Going(running))
            }
            Stop::End(outcome) => running.end_output(outcome, left),
        }
    }

    /// Keeps the outcome of an output, which has so much fuel left, and begins the next output.
    fn end_output(self, outcome: Outcome, left: u32) -> Result<Progress, NoMemory>
        requires way { IsUnderWay self }
        requires left { left ≤ self.fuel }
        ensures { IfOk result (EndsOutput self outcome left) }
    {
        let mut running = self;
        running.spent += u64::from(running.fuel - left);
        running.outcomes.push(outcome)?;
        match running.roots.get(running.outcomes.len()) {
            Some(root) => {
                running.node = Arc::try_clone(root)?;
                running.stack.clear();
                running.left = running.fuel;
                Ok(Progress::Going(running))
            }
            None => Ok(Progress::Over(Finished {
                outcomes: running.outcomes,
                entered: running.spent,
            })),
        }
    }
}
