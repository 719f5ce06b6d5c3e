// A place's changes, handles, and the gate that a call on a handle passes.
#![tactic(auto)]

pub mod change;
pub mod gate;
pub mod handle;
