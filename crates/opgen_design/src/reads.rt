//! Lists the signals and ports that the expressions of a driver read.
ghost use Rattle.std.specs.Prelude.{◌≡◌, ◌++◌, [], IfOk, OnOk};
ghost use Rattle.opgen_design.specs.Plain.{plain, plain_all};
ghost use Rattle.opgen_design.specs.Sound.{names_read, operand_names, ports_read, operand_ports, driver_names, driver_ports};

use crate::{Driver, Expr};
use std::alloc::{AllocError, Global};

/// The signals and the ports that are read, in order.
#[derive(Drop)]
pub struct Uses {
    pub names: Vec<usize>,
    pub ports: Vec<usize>,
}

impl Uses {
    fn new(alloc: Global) -> Uses
        ensures names { result.names.items ≡ [] }
        ensures ports { result.ports.items ≡ [] }
    {
        Uses {
            names: Vec::new(alloc),
            ports: Vec::new(alloc),
        }
    }
}

impl Expr {
    /// The signals that the expression reads, in order.
    pub fn names(&self, alloc: Global) -> Result<Vec<usize>, AllocError>
        ensures { IfOk result (λ v. v.items ≡ names_read (plain self.now)) }
    {
        let mut uses = Uses::new(alloc);
        self.add_uses(&mut uses)?;
        Ok(uses.names)
    }

    // Appends what the expression reads.
    #[cycle(reads)]
    fn add_uses(&self, uses: &mut Uses) -> Result<(), AllocError>
        ensures names { OnOk result (uses.new.names.items ≡ uses.old.names.items ++ names_read (plain self.now)) }
        ensures ports { OnOk result (uses.new.ports.items ≡ uses.old.ports.items ++ ports_read (plain self.now)) }
    {
        match self {
            Expr::Name(node) => {
                uses.names.push(*node)?;
                Ok(())
            }
            Expr::Part(slice) => {
                uses.names.push(slice.node)?;
                Ok(())
            }
            Expr::Bits(_) => Ok(()),
            Expr::Port(place) => {
                uses.ports.push(*place)?;
                Ok(())
            }
            Expr::Not(operand) => operand.add_uses(uses),
            Expr::Chain(_, operands) => add_all_uses(operands, uses),
        }
    }
}

#[cycle(reads)]
fn add_all_uses(exprs: &[Expr], uses: &mut Uses) -> Result<(), AllocError>
    ensures names { OnOk result (uses.new.names.items ≡ uses.old.names.items ++ operand_names (plain_all exprs.now)) }
    ensures ports { OnOk result (uses.new.ports.items ≡ uses.old.ports.items ++ operand_ports (plain_all exprs.now)) }
{
    for expr in exprs {
        expr.add_uses(uses)?;
    }
    Ok(())
}

impl Driver {
    /// What the driver's expressions read.
    pub(crate) fn uses(&self, alloc: Global) -> Result<Uses, AllocError>
        ensures names { IfOk result (λ u. u.names.items ≡ driver_names self.now) }
        ensures ports { IfOk result (λ u. u.ports.items ≡ driver_ports self.now) }
    {
        let mut uses = Uses::new(alloc);
        match self {
            Driver::Assign { to: _, expr }
            | Driver::Register { to: _, expr }
            | Driver::Output { port: _, expr } => expr.expr().add_uses(&mut uses)?,
            Driver::Choice { to: _, on, yes, no } => {
                on.expr().add_uses(&mut uses)?;
                yes.expr().add_uses(&mut uses)?;
                no.expr().add_uses(&mut uses)?;
            }
            Driver::Table {
                to: _,
                on,
                rows: _,
                other: _,
            } => on.expr().add_uses(&mut uses)?,
        }
        Ok(uses)
    }
}
