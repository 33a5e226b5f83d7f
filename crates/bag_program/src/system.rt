//! What a command works with, besides its operands.
use crate::progress_line::Progress;
use std::alloc::Global;

/// The system's streams, what stands under the names on its disk and in its directories, the line of progress, and where
/// memory comes from.
#[derive(Drop)]
pub struct System<'a, R, N, D> {
    pub rt: &'a R,
    pub names: N,
    pub disk: &'a D,
    pub progress: &'a Progress<'a, R>,
    pub alloc: Global,
}
