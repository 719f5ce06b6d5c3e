// Values where they stand: in the log's records and in the opening table.
ghost use Rattle.std.specs.Prelude.{◌≡◌, ◌+◌, ◌*◌, ◌<◌, ◌≤◌, length, IfSome};
ghost use Rattle.basics.specs.Bytes.{same};
ghost use Rattle.rules.specs.Sizes.{cell_bytes, record_bytes};
ghost use Rattle.rules.specs.Cells.{cell_of};
ghost use Rattle.check_explain.specs.Explained.{value_at, source};

use rules::sizes;

// Where the values of a day stand: its opening table, and its log.
#[derive(Clone, Copy)]
pub struct Values<'a> {
    pub opening: &'a [u8],
    pub log: &'a [u8],
}

impl<'a> Values<'a> {
    // The value in record number n.
    #[tactic(auto, using(basics::proofs::Bytes::part_between), unfolding(crate::specs::Explained::value_at))]
    fn of_record(self, n: u16) -> &'a [u8]
        requires { (1 ≤ n) × (record_bytes * n ≤ length self.log.now) }
        ensures { result.now ≡ value_at self.entry.log.now n }
    {
        let end = sizes::RECORD_BYTES * n as usize;
        &self.log[end - sizes::CELL_BYTES..end]
    }

    // The cell's value in the opening table.
    #[tactic(auto, using(basics::proofs::Bytes::part_between), unfolding(rules::specs::Cells::cell_of))]
    fn of_cell(self, cell: usize) -> &'a [u8]
        requires { cell_bytes * cell + cell_bytes ≤ length self.opening.now }
        ensures { result.now ≡ cell_of self.entry.opening.now cell }
    {
        let at = sizes::CELL_BYTES * cell;
        &self.opening[at..at + sizes::CELL_BYTES]
    }

    // The value in the record that is named or, where none is, of the cell in the opening table.
    fn source(self, from: Option<u16>, cell: usize) -> &'a [u8]
        requires named { IfSome from (λ w. (1 ≤ w) × (record_bytes * w ≤ length self.log.now)) }
        requires cell_bytes_in_bounds { cell_bytes * cell + cell_bytes ≤ length self.opening.now }
        ensures { result.now ≡ source self.entry.opening.now self.entry.log.now from cell }
    {
        match from {
            None => self.of_cell(cell),
            Some(w) => self.of_record(w),
        }
    }

    // Record number n has the value of another or, if none is named, of the cell in the opening table.
    #[tactic(auto, using(crate::proofs::Compared::same_compared))]
    pub fn is_from(self, n: u16, from: Option<u16>, cell: usize) -> bool
        requires le_n { (1 ≤ n) × (record_bytes * n ≤ length self.log.now) }
        requires named { IfSome from (λ w. (1 ≤ w) × (record_bytes * w ≤ length self.log.now)) }
        requires cell_bytes_in_bounds { cell_bytes * cell + cell_bytes ≤ length self.opening.now }
        ensures { result ≡ same (value_at self.entry.log.now n) (source self.entry.opening.now self.entry.log.now from cell) }
    {
        self.of_record(n) == self.source(from, cell)
    }
}
