// Whether a list is accepted: one replay of a well laid out log.
ghost use Rattle.std.specs.Prelude.{◌≡◌, true, ◌*◌, ◌≤◌, length};
ghost use Rattle.basics.specs.Lists.{member, distinct};
ghost use Rattle.rules.specs.Sizes.{width, record_bytes, table_bytes};
ghost use Rattle.rules.specs.Daylog.{day_of};
ghost use Rattle.rules.specs.Layout.{walks, well_laid_out};
ghost use Rattle.rules.specs.Day.{events, is_transaction};
ghost use Rattle.rules.specs.Checker.{accepted, log_events};

use check_explain::explain;
use check_explain::values::Values;
use check_list::{company, lists};
use check_replay::state::{Met, Replay};
use log_read::reader;
use rules::Limits;

// One replay of a log's records: true exactly if the list, at most 32 without repeats and t among them, is accepted for transaction t.
fn is_replayed(values: Values, records: u16, t: u16, list: &[u16], z: Limits) -> bool
    requires records_in_bounds { (record_bytes * records ≤ length values.log.now) × (walks z.size (day_of values.log.now records) ≡ true) }
    requires opening_len { (length values.opening.now ≡ table_bytes z.size) × (length list.now ≤ width) }
    requires list_value { (distinct list.now ≡ true) × (member t list.now ≡ true) }
    requires t_value { is_transaction (events (day_of values.log.now records)) t ≡ true }
    ensures { result ≡ accepted z.size values.entry.opening.now (events (day_of values.entry.log.now records)) t list.now }
{
    let mut kept = Replay::fresh(t);
    for n in 0..records {
        let entry = reader::record_at(values.log, n);
        let number = n + 1;
        let who = kept.whose(entry, number);
        let position = lists::position(list, who);
        let met = Met {
            entry,
            number,
            named: who == t,
        };
        if let Some(at) = position {
            if !explain::is_explained(&kept, values, met, at, list.len(), z) {
                return false;
            }
        }
        kept.follow(met, position, z);
    }
    company::is_in_time(&kept, list, t)
}

// True exactly if the list is accepted for transaction t of a well laid out log.
#[tactic(auto, using(crate::proofs::Refused::long_refused, crate::proofs::Refused::repeats_refused), unfolding(rules::specs::Checker::log_events))]
pub fn is_accepted(values: Values, t: u16, list: &[u16], z: Limits) -> bool
    requires opening_len { (length values.opening.now ≡ table_bytes z.size) × (well_laid_out z.size values.log.now ≡ true) }
    requires t_value { is_transaction (log_events values.log.now) t ≡ true }
    ensures { result ≡ accepted z.size values.entry.opening.now (log_events values.entry.log.now) t list.now }
{
    if list.len() > z.size.places {
        return false;
    }
    if !lists::is_distinct(list) {
        return false;
    }
    if !list.contains(&t) {
        return false;
    }
    let records = reader::records_in(values.log) as u16;
    is_replayed(values, records, t, list, z)
}
