ghost use Rattle.std.specs.Prelude.{◌≡◌};
ghost use Rattle.tl_lang.specs.Kinds.{KindsHold};

use crate::program::Program;
use std::marker::Model;

/// A program that meets the kind rules, with the numbers of inputs and of outputs for which it does.
#[derive(Debug, Drop)]
pub struct Checked {
    program: Program,
    inputs: u8,
    outputs: u8,
}

impl Model for Checked {
    ghost use Rattle.std.specs.Coded.{codes};
    ghost use Rattle.tl_lang.specs.contracts.expr.Expr as expr;
    ghost use Rattle.tl_lang.specs.Checked.{CheckedProgram};

    ghost Value = { CheckedProgram };

    ghost coded = { Prim.hlevel (codes, expr.the_row.coded) };

    ghost use Rattle.tl_lang.specs.Kinds.{KindsHold};

    ghost view = { λ c. record { program = c.program; inputs = c.inputs; outputs = c.outputs } };

    ghost invariant = { λ c. KindsHold c.program c.inputs c.outputs };
}

impl Checked {
    /// The program, which must meet the kind rules for these numbers of inputs and outputs.
    pub fn new(program: Program, inputs: u8, outputs: u8) -> Checked
        requires { KindsHold program inputs outputs }
        ensures program { result.program ≡ program }
        ensures inputs { result.inputs ≡ inputs }
        ensures outputs { result.outputs ≡ outputs }
    {
        Checked {
            program,
            inputs,
            outputs,
        }
    }

    /// The program, of which the kind rules hold for `inputs` and `outputs`.
    pub fn program(&self) -> &Program
        ensures value { result.now ≡ self.now.program }
        ensures kinds { KindsHold self.now.program self.now.inputs self.now.outputs }
    {
        &self.program
    }

    /// The number of inputs.
    pub fn inputs(&self) -> u8
        ensures value { result ≡ self.now.inputs }
        ensures kinds { KindsHold self.now.program self.now.inputs self.now.outputs }
    {
        self.inputs
    }

    /// The number of outputs.
    pub fn outputs(&self) -> u8
        ensures value { result ≡ self.now.outputs }
        ensures kinds { KindsHold self.now.program self.now.inputs self.now.outputs }
    {
        self.outputs
    }
}
