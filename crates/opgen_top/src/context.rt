//! What a command may use beside its own words and the folder.

use opgen_target::Target;
use std::alloc::Global;

/// What a command may use beside its own words and the folder: threads, memory, the targets, and an observer of the search for
/// adders.
#[derive(Drop)]
pub(crate) struct Context<'a, R, G> {
    pub rt: &'a R,
    pub alloc: Global,
    pub targets: Vec<Box<dyn Target>>,
    pub gate: &'a G,
}
