use crate::env::Env;
use crate::error::TypeError;
use std::alloc::Global;

/// The elaboration of a text on its way: what the next line depends on, and the least fault so far.
#[derive(Drop)]
pub(crate) struct Elaborator {
    pub(crate) alloc: Global,
    pub(crate) env: Env,
    pub(crate) least: Option<TypeError>,
}
