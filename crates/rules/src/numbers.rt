// The number given back where nothing refuses, by its name in document 01. The others are those of the refusals (`refusal`).
pub const GRANTED: u8 = 0;
