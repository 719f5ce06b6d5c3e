// Reads 256 opening bytes and a log from standard input, and prints the report of that day.
#![tactic(auto)]

mod day;
mod lines;

use rules::sizes;
use texts::buffer;

// A saved day has at most 256 + 64,016 bytes. One byte more is read, so that a longer one is seen to be badly laid out.
fn main(rt: HostRuntime) {
    let mut input = [0u8; sizes::TABLE_BYTES + sizes::LOG_BYTES + 1];
    let n = console::read_full(&rt, &mut input);
    let mut out = [0u8; day::ROOM];
    let end = day::report(&input[..n], &mut out);
    console::write(&rt, buffer::front(&out, end));
}
