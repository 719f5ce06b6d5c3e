// Begin and post: the calls that take the lowest free place.
ghost use Rattle.std.specs.Prelude.{◌≡◌, [], length};
ghost use Rattle.rules.specs.Books.{books_at};
ghost use Rattle.rules.specs.State.{state_of, log_after};
ghost use Rattle.rules.specs.Steps.{begin_rule, post_rule};
ghost use Rattle.effects.specs.Stepped.{in_numbers, step_of};

use effects::{Step, record, taken};
use log_bytes::bytes;
use reasons::asked;
use rules::Controller;

// Begin takes the lowest free place and answers the handle.
pub fn begin(at: Controller, log: &mut [u8]) -> Step
    ensures step { in_numbers result ≡ step_of (begin_rule at.entry.limits.size (length log.old) (state_of (books_at at.entry) [] [])) }
    ensures log { log.new ≡ log_after at.entry.records (begin_rule at.entry.limits.size (length log.old) (state_of (books_at at.entry) [] [])).entry log.old }
{
    match asked::of_begin(at, log.len()) {
        Err(refusal) => record::refused(refusal, at),
        Ok(()) => taken::begin(at, log),
    }
}

// Post takes the lowest free place, writes the table and answers the handle.
pub fn post(at: Controller, cell: u32, value: &[u8], table: &mut [u8], log: &mut [u8]) -> Step
    ensures step { in_numbers result ≡ step_of (post_rule at.entry.limits.size (length log.old) (state_of (books_at at.entry) table.old []) cell value.now) }
    ensures table { table.new ≡ (post_rule at.entry.limits.size (length log.old) (state_of (books_at at.entry) table.old []) cell value.now).after.table }
    ensures log { log.new ≡ log_after at.entry.records (post_rule at.entry.limits.size (length log.old) (state_of (books_at at.entry) table.old []) cell value.now).entry log.old }
{
    match asked::of_post(at, cell, value.len(), table.len(), log.len()) {
        Err(refusal) => record::refused(refusal, at),
        Ok(()) => taken::post(at, cell as usize, bytes::value_of(value), table, log),
    }
}
