// Who is listed later, and comes to stand before the one at a position.
#![tactic(auto)]

pub mod later;
