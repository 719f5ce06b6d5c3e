// The report of a saved day, as a whole.
ghost use Rattle.std.specs.Prelude.{◌≡◌, true, ◌≤◌, length, take};
ghost use Rattle.rules.specs.Sizes.{yard};
ghost use Rattle.rules.specs.Layout.{well_laid_out};
ghost use Rattle.rules.specs.Report.{log_report, report};
ghost use Rattle.report.specs.Reported.{report_room, reported};

use crate::lines;
use log_layout::layout;
use rules::refusal::Refusal;
use rules::{Limits, Size, sizes};
use texts::buffer::Text;
use texts::refusal;

// Room for every report: the first line, and 41 bytes for each record that starts a transaction.
pub const ROOM: usize = 64 + 41 * sizes::MOST_RECORDS;

// The report of a well laid out log, into the front of a buffer, and how many bytes it has.
#[tactic(auto, using(crate::proofs::Reporting::report_fits))]
fn of_right(out: &mut [u8], log: &[u8], z: Size) -> usize
    requires { (report_room ≤ length out.old) × (well_laid_out z log.now ≡ true) }
    ensures { take result out.new ≡ log_report log.now }
{
    let mut text = Text::new(out);
    lines::all(&mut text, log, z);
    text.at
}

// The report of any log: refused, if it is badly laid out.
#[tactic(auto, using(crate::proofs::Reporting::reported_bad, crate::proofs::Reporting::reported_right))]
fn of_log(out: &mut [u8], log: &[u8], z: Limits) -> usize
    requires { (report_room ≤ length out.old) }
    ensures { take result out.new ≡ reported z.size log.now }
{
    if !layout::is_right(log, z) {
        return refusal::refused(out, Refusal::BadLog.number());
    }
    of_right(out, log, z.size)
}

// The report of what was read: refused, if it is less than an opening table.
#[tactic(auto, using(crate::proofs::Reporting::report_short))]
pub fn report(input: &[u8], out: &mut [u8]) -> usize
    requires { report_room ≤ length out.old }
    ensures { take result out.new ≡ report yard input.now }
{
    if input.len() < sizes::TABLE_BYTES {
        return refusal::refused(out, Refusal::Lent.number());
    }
    of_log(out, &input[sizes::TABLE_BYTES..], sizes::yard_limits())
}
