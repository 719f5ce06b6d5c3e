// One call by value: any of the ten, with its arguments, issued by one function.
ghost use Rattle.std.specs.Prelude.{◌≡◌};
ghost use Rattle.rules.specs.Sizes.{yard};
ghost use Rattle.rules.specs.Numbers.{first_reason};
ghost use Rattle.rules.specs.Steps.{show_reasons};
ghost use Rattle.rules.specs.State.{log_after, buffer_after};
ghost use Rattle.machine.specs.View.{view, answer_of};
ghost use Rattle.machine.specs.Promises.{call_outcome};

use crate::books::{Books, Told};
use reasons::asked;
use rules::numbers::GRANTED;

// Which call it is, with its handle, its cell, and the number that a read gave, as far as it has them. The value is lent beside it.
#[derive(Clone, Copy)]
pub enum Call {
    Open,
    Begin,
    Write { handle: u32, cell: u32 },
    Read { handle: u32, cell: u32 },
    Show { given: u8, handle: u32, cell: u32 },
    Commit { handle: u32 },
    GiveUp { handle: u32 },
    Post { cell: u32 },
    Order { handle: u32 },
    Close,
}

// Show as a call: the number that says whether anything is shown, and the books as they were.
// A number: the one given may be any, also one that document 01 does not name (`call_outcome`).
fn looked(from: Books, given: u8, handle: u32, cell: u32, table: usize, drafts: usize) -> Told
    ensures { result ≡ record { number = first_reason (show_reasons yard table drafts (view from) given handle cell); answer = 0; books = from } }
{
    Told {
        number: asked::of_show(from.controller(), given, handle, cell, table, drafts),
        answer: 0,
        books: from,
    }
}

// The call, issued on the books and all that a call may be lent.
pub fn stepped(
    from: Books,
    call: Call,
    value: &[u8],
    table: &mut [u8],
    drafts: &mut [u8],
    log: &mut [u8],
    numbers: &mut [u16],
) -> Told
    ensures answer { result ≡ answer_of (call_outcome from call value.now table.old drafts.old log.old numbers.old) }
    ensures table { table.new ≡ (call_outcome from call value.now table.old drafts.old log.old numbers.old).after.table }
    ensures drafts { drafts.new ≡ (call_outcome from call value.now table.old drafts.old log.old numbers.old).after.drafts }
    ensures log { log.new ≡ log_after from.records (call_outcome from call value.now table.old drafts.old log.old numbers.old).entry log.old }
    ensures numbers { numbers.new ≡ buffer_after (call_outcome from call value.now table.old drafts.old log.old numbers.old).order numbers.old }
{
    let answer = match call {
        Call::Open => {
            return Told {
                number: GRANTED,
                answer: 0,
                books: Books::open(),
            };
        }
        Call::Show {
            given,
            handle,
            cell,
        } => return looked(from, given, handle, cell, table.len(), drafts.len()),
        Call::Begin => from.begin(log),
        Call::Write { handle, cell } => from.write(handle, cell, value, drafts, log),
        Call::Read { handle, cell } => from.read(handle, cell, table, drafts, log),
        Call::Commit { handle } => from.commit(handle, table, drafts, log),
        Call::GiveUp { handle } => from.give_up(handle, log),
        Call::Post { cell } => from.post(cell, value, table, log),
        Call::Order { handle } => from.order(handle, numbers),
        Call::Close => from.close(log),
    };
    Told::from(answer)
}
