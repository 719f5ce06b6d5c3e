// The machine's call for a line of a script, and its making.
#![tactic(auto)]

ghost use Rattle.std.specs.Prelude.{◌≡◌, take};
ghost use Rattle.script.specs.LineCalls.{value_on};
ghost use Rattle.machine.specs.Promises.{call_outcome, LeavesAll};
ghost use Rattle.making.specs.Made.{call_for, call_said};

use machine::books::{Books, Told};
use machine::call;
use machine::call::Call;
use script::lines;
use script::lines::{Line, LineKind, Said};

// The machine's call for a line: a post names a cell; every other call that has a number names a handle first, and then a cell.
// A line that only looks has a call too, the open: a line of any kind can be made.
#[tactic(auto, unfolding(crate::specs::Made::call_for, crate::specs::Made::call_named))]
fn call_on(line: Line) -> Call
    ensures { result ≡ call_for line }
{
    match line.kind {
        LineKind::Begin => Call::Begin,
        LineKind::Write => Call::Write {
            handle: line.first,
            cell: line.second,
        },
        LineKind::Read => Call::Read {
            handle: line.first,
            cell: line.second,
        },
        LineKind::Commit => Call::Commit { handle: line.first },
        LineKind::GiveUp => Call::GiveUp { handle: line.first },
        LineKind::Post => Call::Post { cell: line.first },
        LineKind::Order => Call::Order { handle: line.first },
        LineKind::Close => Call::Close,
        LineKind::Open | LineKind::Table | LineKind::Log | LineKind::Save => Call::Open,
    }
}

// The machine's call for what a line says: the open where it says nothing, or none of the calls.
pub fn call_for(said: Said) -> Call
    ensures { result ≡ call_said said }
{
    match said {
        Said::Call(line) => call_on(line),
        Said::Nothing | Said::Unknown => Call::Open,
    }
}

// Makes the call of a line on the machine, with the value that stands on the line.
pub fn make(
    books: Books,
    line: Line,
    content: &[u8],
    table: &mut [u8],
    drafts: &mut [u8],
    log: &mut [u8],
    numbers: &mut [u16],
) -> Told
    ensures { LeavesAll books.records log.old numbers.old result table.new drafts.new log.new numbers.new (call_outcome books (call_for line) (take 128 (value_on content.now line.kind)) table.old drafts.old log.old numbers.old) }
{
    let mut value = [0u8; lines::VALUE_ROOM];
    let n = lines::value_of(content, line.kind, &mut value);
    call::stepped(
        books,
        call_on(line),
        &value[..n],
        table,
        drafts,
        log,
        numbers,
    )
}
