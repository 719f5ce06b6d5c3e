// How a place stands, by the names of document 01. Numbers, as the status of a place is one (`Place`).
pub const FREE: u8 = 0;

pub const LIVE: u8 = 1;

pub const COMMITTED: u8 = 2;
