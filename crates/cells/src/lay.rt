// A place's drafts laid over the table: what a granted commit does to it.
ghost use Rattle.std.specs.Prelude.{◌≡◌, false, ◌<◌, length, get_or};
ghost use Rattle.rules.specs.Sizes.{table_bytes, drafts_bytes};
ghost use Rattle.rules.specs.Cells.{draft_of, laid_over};

use crate::cell;
use crate::cell::Draft;
use rules::Limits;

// The written cells take the values of the drafts at place i; the others stay.
#[tactic(auto, using(basics::proofs::Below::run_none, basics::proofs::Below::run_more), unfolding(rules::specs::Cells::laid_over))]
pub fn lay(table: &mut [u8], drafts: &[u8], written: [bool; 32], i: usize, z: Limits)
    requires i_lt_places { (i < z.size.places) × ((length table.old ≡ table_bytes z.size) × (length drafts.now ≡ drafts_bytes z.size)) }
    ensures { table.new ≡ laid_over z.size (λ c. get_or written c false) (draft_of z.size drafts.now i) table.old }
{
    for c in 0..z.size.cells {
        if written[c] {
            let draft = Draft {
                place: i,
                cell: c,
                limits: z,
            };
            cell::put_value_at(table, c, cell::draft_at(drafts, draft));
        }
    }
}
