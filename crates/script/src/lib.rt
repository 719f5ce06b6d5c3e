// What a script of calls is made of, with no machine in sight: digits, numbers and values, the words of a line, the call that a line names,
// and lines out of a stream that comes in pieces.
#![tactic(auto)]

pub mod digits;
pub mod input;
pub mod lines;
pub mod numbers;
pub mod values;
pub mod words;
