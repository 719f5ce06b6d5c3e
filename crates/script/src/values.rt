// Values as hexadecimal digits: two digits a byte, in the order of the bytes.
ghost use Rattle.std.specs.Prelude.{◌≡◌, ◌+◌, ◌/◌, ◌<◌, length, get_or};
ghost use Rattle.std.specs.List.{list_all};
ghost use Rattle.script.specs.Hex.{is_digit, is_hex, byte_of, value_bytes};
ghost use Rattle.script.specs.Fronts.{at_most, Front, with_front};

use crate::digits;

// A hexadecimal digit.
#[tactic(auto, unfolding(crate::specs::Hex::is_digit))]
fn is_digit(b: u8) -> bool
    ensures { result ≡ is_digit b }
{
    digits::hex_value(b).is_some()
}

// Hexadecimal digits.
fn are_digits(word: &[u8]) -> bool
    ensures { result ≡ list_all is_digit word.now }
{
    word.iter().all(|b| is_digit(*b))
}

// A value: an even number of hexadecimal digits.
#[tactic(auto, unfolding(crate::specs::Hex::is_hex))]
pub fn is_hex(word: &[u8]) -> bool
    ensures { result ≡ is_hex word.now }
{
    word.len() % 2 == 0 && are_digits(word)
}

// The byte that the two digits at a place stand for; what is no digit counts 0.
#[tactic(auto, unfolding(crate::specs::Hex::byte_of, crate::specs::Hex::hex_value))]
fn byte_at(word: &[u8], at: usize) -> u8
    requires { at + 1 < length word.now }
    ensures { result ≡ byte_of (get_or word.now at 0) (get_or word.now (at + 1) 0) }
{
    let high = digits::hex_value(word[at]).unwrap_or(0);
    let low = digits::hex_value(word[at + 1]).unwrap_or(0);
    16 * high + low
}

// The bytes that a word's digits stand for, into the front of a buffer, as far as it has room; and how many they are.
#[tactic(auto, using(crate::proofs::Holding::front_none, crate::proofs::Holding::front_more, crate::proofs::HexLaws::value_bytes_length, crate::proofs::HexLaws::value_byte_at), unfolding(crate::specs::Fronts::at_most))]
pub fn bytes_of(word: &[u8], out: &mut [u8]) -> usize
    ensures count { result ≡ at_most (length out.old) (length word.now / 2) }
    ensures front { Front result out.new }
    ensures bytes { out.new ≡ with_front out.old result (value_bytes word.now) }
{
    let count = out.len().min(word.len() / 2);
    for i in 0..count {
        out[i] = byte_at(word, 2 * i);
    }
    count
}
