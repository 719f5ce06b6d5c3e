// The calls that take the lowest free place: begin and post.
ghost use Rattle.std.specs.Prelude.{◌≡◌, [], ◌<◌, length};
ghost use Rattle.rules.specs.Sizes.{most_records, log_bytes, table_bytes};
ghost use Rattle.rules.specs.Books.{books_at, lowest_free, of_places};
ghost use Rattle.rules.specs.State.{state_of, log_after};
ghost use Rattle.rules.specs.Steps.{begin_of, post_of};
ghost use Rattle.effects.specs.Stepped.{in_numbers, step_of};

use crate::{Step, record};
use cells::cell;
use place::{change, handle};
use rules::Controller;
use rules::kinds::RecordKind;
use rules::sizes::CELL_BYTES;
use survey::search;

// Begin takes the lowest free place, of which the clauses say that there is one, and answers the handle.
pub fn begin(at: Controller, log: &mut [u8]) -> Step
    requires places_bound { lowest_free at.limits.size (of_places at.places.now) < at.limits.size.places }
    requires records_lt_most_records { (at.records < most_records) × (length log.old ≡ log_bytes) }
    ensures step { in_numbers result ≡ step_of (begin_of at.entry.limits.size (state_of (books_at at.entry) [] [])) }
    ensures log { log.new ≡ log_after at.entry.records (begin_of at.entry.limits.size (state_of (books_at at.entry) [] [])).entry log.old }
{
    let i = search::lowest_free_of(at.places, at.limits).unwrap();
    let begun = change::begin(at.places[i], at.records + 1);
    record::add(
        log,
        at.records,
        RecordKind::Begin.number(),
        i,
        begun,
        0,
        [0; CELL_BYTES],
    );
    record::changed(Ok(handle::of(i, begun.turn)), at, i, begun)
}

// Post takes the lowest free place, writes the table and answers the handle.
pub fn post(at: Controller, c: usize, value: [u8; 8], table: &mut [u8], log: &mut [u8]) -> Step
    requires places_bound { (lowest_free at.limits.size (of_places at.places.now) < at.limits.size.places) × (c < at.limits.size.cells) }
    requires records_lt_most_records { (at.records < most_records) × (length log.old ≡ log_bytes) }
    requires table_len { length table.old ≡ table_bytes at.limits.size }
    ensures step { in_numbers result ≡ step_of (post_of at.entry.limits.size (state_of (books_at at.entry) table.old []) c value) }
    ensures table { table.new ≡ (post_of at.entry.limits.size (state_of (books_at at.entry) table.old []) c value).after.table }
    ensures log { log.new ≡ log_after at.entry.records (post_of at.entry.limits.size (state_of (books_at at.entry) table.old []) c value).entry log.old }
{
    let i = search::lowest_free_of(at.places, at.limits).unwrap();
    let posted = change::post(at.places[i], c, at.records + 1);
    cell::put_value_at(table, c, value);
    record::add(
        log,
        at.records,
        RecordKind::Post.number(),
        i,
        posted,
        c,
        value,
    );
    record::changed(Ok(handle::of(i, posted.turn)), at, i, posted)
}
