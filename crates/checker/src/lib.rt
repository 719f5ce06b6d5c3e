// The order checker over logs: an opening table, a log, a begin record and a proposed order, and nothing of the machine.
#![tactic(auto)]

pub mod desk;
mod order;
pub mod proposal;
