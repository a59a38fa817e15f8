//! Writes the whole text of a design into a sink.
ghost use Rattle.std.specs.Prelude.{◌≡◌, ◌≤◌, ◌++◌, ℕ, List, Some, is_some, OnOk, OnErr, IfOk};
ghost use Rattle.opgen_io.specs.Bytes.{TakesPrefix};
ghost use Rattle.opgen_io.specs.Counts.{Rose};
ghost use Rattle.opgen_vhdl.specs.DesignText.{text_of};

use crate::architecture::put_architecture;
use crate::entity::entity;
use crate::page::{blank_page, put_made, put_rest};
use crate::sink::VecSink;
use opgen_design::Design;
use opgen_io::Sink;
use opgen_num::Memory;
use std::alloc::Global;
use thiserror::Error;

/// Why a design was not written.
#[derive(Clone, Copy, Debug, PartialEq, Eq, Error)]
pub enum WriteFault {
    #[error("the output could not be written")]
    Failed,
    #[error("out of memory")]
    Memory,
}

/// Writes a design: its text is put a page of 4,096 bytes at a time, and what is left of it last.
pub fn write_design<K: Sink>(alloc: Global, design: &Design, out: &mut K) -> Result<(), WriteFault>
    ensures tells { is_some (K.taken out.new) ≡ is_some (K.taken out.old) }
    ensures faults_kept { K.faults out.old ≤ K.faults out.new }
    ensures ok { (held : List ℕ) → K.taken out.old ≡ Some held →
        OnOk result (K.taken out.new ≡ Some (held ++ text_of design.now)) }
    ensures failed_counted { result ≡ Err WriteFault.Failed → Rose (K.faults out.old) (K.faults out.new) }
    ensures err { OnErr result (TakesPrefix (K.taken out.old) (text_of design.now) (K.taken out.new)) }
{
    let Ok(mut page) = blank_page(alloc) else {
        return Err(WriteFault::Memory);
    };
    put_made(&mut page, out, entity(alloc, design));
    put_architecture(alloc, design, &mut page, out);
    put_rest(&mut page, out);
    match page.fault {
        None => Ok(()),
        Some(fault) => Err(fault),
    }
}

/// The text of a design.
pub fn text(alloc: Global, design: &Design) -> Result<Vec<u8>, Memory>
    ensures { IfOk result (λ bytes. bytes.items ≡ text_of design.now) }
{
    let mut sink = VecSink::new(alloc);
    match write_design(alloc, design, &mut sink) {
        Ok(()) => Ok(sink.into_bytes()),
        Err(_) => Err(Memory),
    }
}
