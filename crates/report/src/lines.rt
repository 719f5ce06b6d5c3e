// The lines of a report, each put together in a lent buffer, piece by piece.
ghost use Rattle.std.specs.Prelude.{◌≡◌, true, [], ◌∷◌};
ghost use Rattle.rules.specs.Daylog.{records_in};
ghost use Rattle.rules.specs.Layout.{well_laid_out};
ghost use Rattle.texts.specs.Said.{Puts};
ghost use Rattle.report.specs.Reported.{word_told, labelled, first_told, told, all_told, all_of};

use log_back::course::Standing;
use log_back::transaction::Transaction;
use log_back::{entry, transaction};
use log_read::reader;
use rules::Size;
use texts::buffer::Text;

// A number behind its label.
#[tactic(auto, unfolding(crate::specs::Reported::labelled, texts::specs::Said::placed))]
fn labelled(out: &mut Text, label: &[u8], n: u16)
    ensures { Puts out.old out.new (labelled label.now n) }
{
    out.put(label);
    out.put_decimal(n);
}

// How a transaction stands.
#[tactic(auto, unfolding(crate::specs::Reported::word_told, basics::specs::Text::text))]
fn standing(out: &mut Text, its: Standing)
    ensures { Puts out.old out.new (word_told its ∷ []) }
{
    match its {
        Standing::Live => out.put(b"live"),
        Standing::Committed => out.put(b"committed"),
        Standing::GaveUp => out.put(b"gaveup"),
        Standing::Conflict => out.put(b"conflict"),
        Standing::Post => out.put(b"post"),
    }
}

// The first line: records, commits with posts.
#[tactic(auto, using(texts::proofs::Saying::placed_append), unfolding(crate::specs::Reported::first_told, texts::specs::Said::placed, basics::specs::Text::text))]
pub fn first(out: &mut Text, records: u16, total: u16)
    ensures { Puts out.old out.new (first_told records total) }
{
    labelled(out, b"records ", records);
    labelled(out, b" commits ", total);
    out.put(b"\n");
}

// A transaction's line: begin record, place, how it stands, moment.
#[tactic(auto, using(texts::proofs::Saying::placed_append), unfolding(crate::specs::Reported::told, texts::specs::Said::placed, basics::specs::Text::text))]
fn line(out: &mut Text, its: Transaction)
    ensures { Puts out.old out.new (told its) }
{
    out.put_decimal(its.begin);
    labelled(out, b" place ", u16::from(its.place));
    out.put(b" ");
    standing(out, its.standing);
    labelled(out, b" moment ", its.moment);
    out.put(b"\n");
}

// The lines of a well laid out log's transactions, by begin record.
#[tactic(auto, using(crate::proofs::Telling::told_none), unfolding(texts::specs::Said::placed))]
pub fn transactions(out: &mut Text, log: &[u8], records: u16, z: Size)
    requires { (well_laid_out z log.now ≡ true) × (records ≡ records_in log.now) }
    ensures { Puts out.old out.new (all_told log.now records) }
{
    for before in 0..records {
        let n = before + 1;
        if entry::is_start(log, n as u32) {
            line(out, transaction::found(log, n, z));
        }
    }
}

// The report of a well laid out log: the first line, and those of its transactions.
#[tactic(auto, using(log_back::proofs::LaidOutLog::count_fits, log_back::proofs::LaidOutLog::count_there, rules::proofs::Log::LaidOut::laid_out_has, texts::proofs::Saying::placed_append), unfolding(crate::specs::Reported::all_of))]
pub fn all(out: &mut Text, log: &[u8], z: Size)
    requires { well_laid_out z log.now ≡ true }
    ensures { Puts out.old out.new (all_of log.now) }
{
    let records = reader::records_in(log) as u16;
    let total = reader::commits_among(log, records);
    first(out, records, total);
    transactions(out, log, records, z);
}
