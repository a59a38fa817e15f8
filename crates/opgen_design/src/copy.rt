//! Copies an expression.
ghost use Rattle.std.specs.Prelude.{◌≡◌, IfOk};
ghost use Rattle.opgen_design.specs.Plain.{plain, plain_all};

use crate::Expr;
use std::alloc::{AllocError, Global};

impl Expr {
    /// Another expression of the same shape.
    #[cycle(copy)]
    pub fn copy(&self, alloc: Global) -> Result<Expr, AllocError>
        ensures { IfOk result (λ r. plain r ≡ plain self.now) }
    {
        match self {
            Expr::Name(node) => Ok(Expr::Name(*node)),
            Expr::Part(slice) => Ok(Expr::Part(*slice)),
            Expr::Bits(word) => Ok(Expr::Bits(*word)),
            Expr::Port(place) => Ok(Expr::Port(*place)),
            Expr::Not(operand) => Ok(Expr::Not(Box::new(alloc, operand.copy(alloc)?)?)),
            Expr::Chain(op, operands) => Ok(Expr::Chain(*op, copy_all(alloc, operands)?)),
        }
    }
}

#[cycle(copy)]
fn copy_all(alloc: Global, exprs: &[Expr]) -> Result<Vec<Expr>, AllocError>
    ensures { IfOk result (λ r. plain_all r.items ≡ plain_all exprs.now) }
{
    let mut copies = Vec::new(alloc);
    for expr in exprs {
        copies.push(expr.copy(alloc)?)?;
    }
    Ok(copies)
}
