// Reads 256 opening bytes and a log from standard input, and holds an order to them: its arguments are a begin record and the order's numbers.
#![tactic(auto)]

mod answer;
mod list;

use list::Numbers;
use rules::refusal::Refusal;
use rules::sizes;
use texts::buffer;

// The word that an argument is, put into a room; none for an argument that is missing or has more than 4,096 bytes.
fn word_at<'a>(rt: &HostRuntime, i: usize, room: &'a mut [u8; 4096]) -> Option<&'a [u8]> {
    let n = console::argument(rt, i, room)?;
    Some(&room[..n])
}

// The numbers of the order: every argument from the second on. None if one of them is no number of 16 bits.
fn order(rt: &HostRuntime) -> Option<Numbers> {
    let mut room = [0u8; 4096];
    let mut numbers = Some(Numbers::none());
    for i in 2..console::argument_count(rt) {
        numbers = list::with_word(numbers, word_at(rt, i, &mut room));
    }
    numbers
}

// The checker's answer for what is read from standard input. A saved day has at most 256 + 64,016 bytes. One byte more is read, so that a
// longer one is seen to be badly laid out.
fn ask(rt: &HostRuntime, begin: u32, numbers: &Numbers) -> Result<(), Refusal> {
    let mut input = [0u8; sizes::TABLE_BYTES + sizes::LOG_BYTES + 1];
    let n = console::read_full(rt, &mut input);
    answer::checked(&input[..n], begin, numbers)
}

// What is answered: lent, before all else, if a word is no number.
fn decide(rt: &HostRuntime) -> Result<(), Refusal> {
    let mut room = [0u8; 4096];
    let begin = word_at(rt, 1, &mut room)
        .and_then(|word| list::number_of(word, u64::from(u32::MAX)))
        .ok_or(Refusal::Lent)?;
    let numbers = order(rt).ok_or(Refusal::Lent)?;
    ask(rt, begin, &numbers)
}

fn main(rt: HostRuntime) {
    let mut out = [0u8; 16];
    let answer = decide(&rt).map_err(|refusal| refusal.number());
    let end = answer::line(&mut out, answer);
    console::write(&rt, buffer::front(&out, end));
}
