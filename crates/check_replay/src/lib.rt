// One replay of a log for a proposed order: what is kept of the listed transactions, record by record.
#![tactic(auto)]

pub mod state;
