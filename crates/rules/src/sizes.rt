// Lengths and limits, by the names of document 01, and the size of its controller.
ghost use Rattle.std.specs.Prelude.{◌≡◌};
ghost use Rattle.rules.specs.Sizes.{yard};

use crate::{Limits, Size};

// 32 places for transactions, 32 cells.
pub const PLACES: usize = 32;

pub const CELLS: usize = 32;

// The books' arrays are 32 wide, whatever the size.
pub const WIDTH: usize = 32;

// A cell has 8 bytes.
pub const CELL_BYTES: usize = 8;

// Table 256 bytes, drafts 8,192 bytes, order buffer 32 numbers.
pub const TABLE_BYTES: usize = 256;

pub const DRAFTS_BYTES: usize = 8192;

pub const ORDER_NUMBERS: usize = 32;

// A record has 16 bytes, and so has the trailer.
pub const RECORD_BYTES: usize = 16;

// At most 4,000 records a day.
pub const MOST_RECORDS: usize = 4000;

// The log: 64,016 bytes, for 4,000 records and the trailer.
pub const LOG_BYTES: usize = 64016;

// Handles count 32 to a turn.
pub const HANDLES_A_TURN: u32 = 32;

// A handle is below 2,097,152.
pub const HANDLES: u32 = 2097152;

// The controller of document 01.
pub fn yard_size() -> Size
    ensures { result ≡ yard }
{
    Size {
        places: PLACES,
        cells: CELLS,
    }
}

// Its limits: both are within the widths of the arrays.
pub fn yard_limits() -> Limits
    ensures { result.size ≡ yard }
{
    Limits { size: yard_size() }
}
