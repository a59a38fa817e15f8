//! Collects text in pages of 4,096 bytes and passes each full page to a sink.
ghost use Rattle.std.specs.Prelude.{◌≡◌, ◌∷◌, [], ℕ, List, None, IfOk, string_bytes};
ghost use Rattle.opgen_write.specs.Pages.{Comes};

use crate::write::WriteFault;
use opgen_io::{PutFault, Sink};
use std::alloc::{AllocError, Global};

/// How many bytes a page has.
const PAGE: usize = 4096;

/// The bytes that came after the last full page, and the first fault: what comes after that is let go.
#[derive(Drop)]
pub struct Page {
    pub bytes: Vec<u8>,
    pub fault: Option<WriteFault>,
}

/// A page with room for all its bytes.
pub fn blank_page(alloc: Global) -> Result<Page, AllocError>
    ensures bytes { IfOk result (λ page. page.bytes.items ≡ []) }
    ensures fault { IfOk result (λ page. page.fault ≡ None) }
{
    let bytes = Vec::with_capacity(alloc, PAGE)?;
    Ok(Page { bytes, fault: None })
}

// Puts the bytes of the page, which is blank afterwards.
fn turn_page<K: Sink>(page: &mut Page, out: &mut K)
    ensures comes { Comes page.old (K.taken out.old) (K.faults out.old) [] page.new (K.taken out.new) (K.faults out.new) }
    ensures blank { page.new.fault ≡ None → page.new.bytes.items ≡ [] }
{
    if page.fault.is_some() {
        return;
    }
    match out.put(page.bytes.as_slice()) {
        Ok(()) => page.bytes.clear(),
        Err(PutFault::Failed) => page.fault = Some(WriteFault::Failed),
        Err(PutFault::Memory) => page.fault = Some(WriteFault::Memory),
    }
}

// Adds a byte to the page, and turns the page if it is full.
fn put_byte<K: Sink>(page: &mut Page, out: &mut K, byte: u8)
    ensures { Comes page.old (K.taken out.old) (K.faults out.old) (byte ∷ []) page.new (K.taken out.new) (K.faults out.new) }
{
    if page.fault.is_some() {
        return;
    }
    if page.bytes.push(byte).is_err() {
        page.fault = Some(WriteFault::Memory);
        return;
    }
    if page.bytes.len() == PAGE {
        turn_page(page, out);
    }
}

/// Puts what stands in the page, if anything does.
pub fn put_rest<K: Sink>(page: &mut Page, out: &mut K)
    ensures comes { Comes page.old (K.taken out.old) (K.faults out.old) [] page.new (K.taken out.new) (K.faults out.new) }
    ensures blank { page.new.fault ≡ None → page.new.bytes.items ≡ [] }
{
    if page.bytes.is_empty() {
        return;
    }
    turn_page(page, out);
}

/// Puts bytes.
pub fn put_bytes<K: Sink>(page: &mut Page, out: &mut K, bytes: &[u8])
    ensures { Comes page.old (K.taken out.old) (K.faults out.old) bytes.now page.new (K.taken out.new) (K.faults out.new) }
{
    for byte in bytes {
        put_byte(page, out, *byte);
    }
}

/// Puts a text that was made, or keeps in mind that there was no memory for it.
pub fn put_made<K: Sink>(page: &mut Page, out: &mut K, made: Result<String, AllocError>)
    ensures { (text : List ℕ) → IfOk made (λ string. string_bytes string ≡ text) →
        Comes page.old (K.taken out.old) (K.faults out.old) text page.new (K.taken out.new) (K.faults out.new) }
{
    match made {
        Ok(text) => put_bytes(page, out, text.as_bytes()),
        Err(AllocError) => page.fault = Some(page.fault.unwrap_or(WriteFault::Memory)),
    }
}
