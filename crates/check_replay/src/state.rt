// What a replay keeps of a log for a proposed list, and how a record changes it.
ghost use Rattle.std.specs.Prelude.{◌≡◌, ◌&&◌, ◌<◌, Some, IfSome};
ghost use Rattle.rules.specs.Sizes.{width};
ghost use Rattle.rules.specs.Kinds.{kind_sets_moment};
ghost use Rattle.check_replay.specs.Kept.{nothing, noted, fresh, whose_kept, holder_after, record_or_none, wrote_in, listed_after, laid, table_after, followed};

use log_bytes::kinds;
use rules::{Limits, Record};

// Of one listed transaction: its commit record; and by cell, the record number of its latest write, 0 for none, and whether it made a judged
// read. A write's number takes two bytes where an Option takes four, so that a call keeps to the stack that the header for C promises.
#[derive(Clone, Copy)]
pub struct Listed {
    pub commit: Option<u16>,
    pub wrote: [u16; 32],
    pub read: [bool; 32],
}

// By place: the transaction that holds it or held it last, 0 at first. By position in the list: what is kept of the one listed there. By cell: the
// record that has the value last committed to it by a listed one, none for the opening value. And the moment of the named transaction so
// far, and whether somebody who is not listed has committed.
#[derive(Clone, Copy)]
pub struct Replay {
    pub holder: [u16; 32],
    pub listed: [Listed; 32],
    pub table: [Option<u16>; 32],
    pub moment: u16,
    pub stranger: bool,
}

// A record as a replay meets it: with its number, and whether it is of the named transaction.
#[derive(Clone, Copy)]
pub struct Met {
    pub entry: Record,
    pub number: u16,
    pub named: bool,
}

impl Met {
    // It sets the moment of the named transaction.
    pub fn sets_moment(self) -> bool
        ensures { result ≡ self.named && kind_sets_moment self.entry.kind }
    {
        self.named & kinds::sets_moment(self.entry.kind)
    }
}

// A record by its number: 0 is none.
fn record_or_none(n: u16) -> Option<u16>
    ensures { result ≡ record_or_none n }
{
    if n == 0 { None } else { Some(n) }
}

impl Listed {
    // Before its first entry.
    fn nothing() -> Listed
        ensures { result ≡ nothing }
    {
        Listed {
            commit: None,
            wrote: [0; 32],
            read: [false; 32],
        }
    }

    // Record number n, of it, is noted: a commit, a write, a judged read. A commit or a write of number 0 is none.
    #[tactic(auto, unfolding(crate::specs::Kept::noted))]
    fn note(&mut self, entry: Record, n: u16)
        requires { entry.cell < width }
        ensures { self.new ≡ noted n entry self.old }
    {
        let cell = entry.cell as usize;
        if kinds::commits(entry.kind) {
            self.commit = record_or_none(n);
        }
        if kinds::writes(entry.kind) {
            self.wrote[cell] = n;
        }
        if kinds::is_judged_read(entry.kind) {
            self.read[cell] = true;
        }
    }

    // The record of its latest write of the cell.
    pub fn wrote_in(&self, cell: usize) -> Option<u16>
        requires { cell < width }
        ensures { result ≡ wrote_in self.now cell }
    {
        record_or_none(self.wrote[cell])
    }
}

// Each cell that a transaction wrote has its value in the table from now on.
#[tactic(auto, using(basics::proofs::Below::run_none, basics::proofs::Below::run_more), unfolding(crate::specs::Kept::laid))]
fn lay(table: &mut [Option<u16>; 32], own: &Listed, z: Limits)
    ensures { table.new ≡ laid z.size own.now table.old }
{
    for c in 0..z.size.cells {
        let wrote = own.wrote_in(c);
        if wrote.is_some() {
            table[c] = wrote;
        }
    }
}

impl Replay {
    // Before the first record; the moment of a transaction is at first its begin.
    pub fn fresh(t: u16) -> Replay
        ensures { result ≡ fresh t }
    {
        Replay {
            holder: [0; 32],
            listed: [Listed::nothing(); 32],
            table: [None; 32],
            moment: t,
            stranger: false,
        }
    }

    // Whose record number n is: of the transaction that it starts, else of the one that holds its place.
    pub fn whose(&self, entry: Record, n: u16) -> u16
        requires { entry.place < width }
        ensures { result ≡ whose_kept self.now.holder entry n }
    {
        if kinds::starts(entry.kind) {
            return n;
        }
        self.holder[entry.place as usize]
    }

    // A record that starts a transaction gives it the place.
    fn hold(&mut self, entry: Record, n: u16)
        requires { entry.place < width }
        ensures { self.new ≡ record self.old { holder = holder_after n entry self.old.holder } }
    {
        if kinds::starts(entry.kind) {
            self.holder[entry.place as usize] = n;
        }
    }

    // A record of the listed transaction at a position is noted and, if it commits, what the transaction wrote is laid over the table.
    fn note(&mut self, entry: Record, n: u16, at: usize, z: Limits)
        requires { (at < width) × (entry.cell < width) }
        ensures { let listed = listed_after n entry (Some at) self.old.listed in self.new ≡ record self.old { listed = listed; table = table_after z.size entry (Some at) listed self.old.table } }
    {
        self.listed[at].note(entry, n);
        if kinds::commits(entry.kind) {
            lay(&mut self.table, &self.listed[at], z);
        }
    }

    // What a record leaves: its transaction stands at a position of the list, or is not listed.
    #[tactic(auto, unfolding(crate::specs::Kept::followed))]
    pub fn follow(&mut self, met: Met, at: Option<usize>, z: Limits)
        requires listed { IfSome at (λ i. i < width) }
        requires within { (met.entry.place < width) × (met.entry.cell < width) }
        ensures { self.new ≡ followed z.size met.number met.entry at met.named self.old }
    {
        self.hold(met.entry, met.number);
        if met.sets_moment() {
            self.moment = met.number;
        }
        match at {
            None => self.stranger = kinds::commits(met.entry.kind) | self.stranger,
            Some(at) => self.note(met.entry, met.number, at, z),
        }
    }
}
