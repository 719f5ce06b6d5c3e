// The order checker's answer: a refusal by its number, 1, 10, 11 or 12, or none.
ghost use Rattle.std.specs.Prelude.{◌≡◌};
ghost use Rattle.rules.specs.Sizes.{yard};
ghost use Rattle.rules.specs.Refusals.{said};
ghost use Rattle.rules.specs.Checker.{checked};

use crate::order;
use check_explain::values::Values;
use log_back::entry;
use log_layout::layout;
use rules::refusal::Refusal;
use rules::{Limits, sizes};

// More than 32 numbers are never accepted, so the first 33 of a list tell as much as all.
pub const MOST_KEPT: usize = sizes::ORDER_NUMBERS + 1;

// The answer for any number of places and cells.
#[tactic(auto, using(crate::proofs::Answered::answered_lent, crate::proofs::Answered::answered_badly, crate::proofs::Answered::answered_unknown, crate::proofs::Answered::answered_not, crate::proofs::Answered::answered_accepted, crate::proofs::Answered::begin_small))]
fn sized(values: Values, begin: u32, list: &[u16], z: Limits) -> Result<(), Refusal>
    ensures { said result ≡ checked z.size values.entry.opening.now values.entry.log.now begin list.now }
{
    if values.opening.len() != sizes::CELL_BYTES * z.size.cells {
        return Err(Refusal::Lent);
    }
    if !layout::is_right(values.log, z) {
        return Err(Refusal::BadLog);
    }
    if !entry::is_start(values.log, begin) {
        return Err(Refusal::Unknown);
    }
    if !order::is_accepted(values, begin as u16, list, z) {
        return Err(Refusal::NoOrder);
    }
    Ok(())
}

// Lent if the opening table has a wrong length, bad log if the log is badly laid out, unknown if the record is no begin or post, no order
// if the list is not accepted.
pub fn checked(opening: &[u8], log: &[u8], begin: u32, list: &[u16]) -> Result<(), Refusal>
    ensures { said result ≡ checked yard opening.now log.now begin list.now }
{
    sized(Values { opening, log }, begin, list, sizes::yard_limits())
}
