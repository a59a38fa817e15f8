//! An expression as a field of a node or driver: contracts see it as plain data.
ghost use Rattle.std.specs.Prelude.{◌≡◌};
ghost use Rattle.opgen_design.specs.Plain.{plain};

use crate::Expr;
use std::marker::Model;

/// An expression in a field, which contracts see as plain data.
#[derive(Drop)]
pub struct Formula {
    expr: Expr,
}

impl Model for Formula {
    ghost use Rattle.opgen_design.specs.Tree.{Tree};
    ghost use Rattle.opgen_design.specs.TreeCode.{coded_tree};
    ghost use Rattle.opgen_design.specs.Plain.{plain};

    ghost Value = { Tree };

    ghost coded = { coded_tree };

    ghost view = { λ a. plain a.expr };
}

impl Formula {
    pub fn new(expr: Expr) -> Formula
        ensures { result ≡ plain expr }
    {
        Formula { expr }
    }

    pub fn expr(&self) -> &Expr
        ensures { plain result.now ≡ self.now }
    {
        &self.expr
    }
}
