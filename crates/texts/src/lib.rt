// Text put together in a lent buffer: numbers in decimal, bytes in hexadecimal digits, and the lines that answers and refusals are printed as.
#![tactic(auto)]

pub mod answers;
pub mod buffer;
pub mod hex;
pub mod numbers;
pub mod refusal;
