use std::alloc::Global;

/// What workers are made with: the runtime that starts them, memory, and the gate that they pass. It is the same for all
/// groups of a call.
#[derive(Drop)]
pub struct Crew<'a, R, G> {
    pub rt: &'a R,
    pub alloc: Global,
    pub gate: &'a G,
}
