// The lines that answers are printed as, each put together in a lent buffer, piece by piece.
ghost use Rattle.std.specs.Prelude.{◌/◌, length, take};
ghost use Rattle.texts.specs.Said.{Puts, then_number, then_value, number_line, handle_line, value_line, listed, order_line, celled, table_line, unknown_line};

use crate::buffer;
use crate::buffer::Text;
use rules::{numbers, sizes};

// A number after a space.
#[tactic(auto, unfolding(crate::specs::Said::then_number, crate::specs::Said::placed, basics::specs::Text::text))]
fn then_number(out: &mut Text, n: u64)
    ensures { Puts out.old out.new (then_number n) }
{
    out.put(b" ");
    out.put_number(n);
}

// A value after a space.
#[tactic(auto, unfolding(crate::specs::Said::then_value, crate::specs::Said::placed, basics::specs::Text::text))]
fn then_value(out: &mut Text, bytes: &[u8])
    ensures { Puts out.old out.new (then_value bytes.now) }
{
    out.put(b" ");
    out.put_hex(bytes);
}

// A call and the number that it gave back.
// A number: a program prints document 01's, and whether it saved.
#[tactic(auto, unfolding(crate::specs::Said::number_line, crate::specs::Said::placed))]
pub fn number(out: &mut Text, name: &[u8], number: u8)
    ensures { Puts out.old out.new (number_line name.now number) }
{
    out.put(name);
    then_number(out, u64::from(number));
}

// A call that answers a handle if it is granted, else the number of its refusal.
// A number, here and below: a call by value is answered in document 01's numbers (`machine::call::stepped`).
#[tactic(auto, using(crate::proofs::Saying::placed_append), unfolding(crate::specs::Said::handle_line))]
pub fn handle(out: &mut Text, name: &[u8], given: Result<u32, u8>)
    ensures { Puts out.old out.new (handle_line name.now given) }
{
    match given {
        Ok(handle) => {
            number(out, name, numbers::GRANTED);
            then_number(out, u64::from(handle));
        }
        Err(refused) => number(out, name, refused),
    }
}

// A call that shows a value if it is granted, else the number of its refusal.
#[tactic(auto, using(crate::proofs::Saying::placed_append), unfolding(crate::specs::Said::value_line))]
pub fn value(out: &mut Text, name: &[u8], shown: Result<&[u8], u8>)
    ensures { Puts out.old out.new (value_line name.now shown.entry) }
{
    match shown {
        Ok(value) => {
            number(out, name, numbers::GRANTED);
            then_value(out, value);
        }
        Err(refused) => number(out, name, refused),
    }
}

// Numbers, each after a space.
#[tactic(auto, using(crate::proofs::Saying::placed_append, crate::proofs::Saying::listed_none, crate::proofs::Saying::listed_more), unfolding(crate::specs::Said::placed))]
fn list(out: &mut Text, numbers: &[u16])
    ensures { Puts out.old out.new (listed numbers.now (length numbers.now)) }
{
    for n in numbers {
        then_number(out, u64::from(*n));
    }
}

// A call that answers an order: its number, and as many begin records as it counts, whatever the number.
#[tactic(auto, using(crate::proofs::Saying::placed_append), unfolding(crate::specs::Said::order_line))]
pub fn order(out: &mut Text, name: &[u8], number: u8, numbers: &[u16], count: usize)
    ensures { Puts out.old out.new (order_line name.now number (take count numbers.now)) }
{
    self::number(out, name, number);
    list(out, buffer::front(numbers, count));
}

// The values of a table's cells, each after a space.
#[tactic(auto, using(crate::proofs::Saying::placed_append, crate::proofs::Saying::celled_none, crate::proofs::Saying::celled_more), unfolding(crate::specs::Said::placed, basics::specs::Bytes::part))]
fn cells(out: &mut Text, table: &[u8])
    ensures { Puts out.old out.new (celled table.now (length table.now / 8)) }
{
    for cell in table.chunks_exact(sizes::CELL_BYTES) {
        then_value(out, cell);
    }
}

// The table: each of its cells' values.
#[tactic(auto, unfolding(crate::specs::Said::table_line, crate::specs::Said::placed, basics::specs::Text::text))]
pub fn table(out: &mut Text, table: &[u8])
    ensures { Puts out.old out.new (table_line table.now) }
{
    out.put(b"table");
    cells(out, table);
}

// A line of a script that is none of the calls, by its number.
#[tactic(auto, using(crate::proofs::Saying::placed_append), unfolding(crate::specs::Said::unknown_line, crate::specs::Said::placed, basics::specs::Text::text))]
pub fn unknown(out: &mut Text, line: u64)
    ensures { Puts out.old out.new (unknown_line line) }
{
    out.put(b"line");
    then_number(out, line);
    out.put(b" ?");
}
