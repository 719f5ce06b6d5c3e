// The search for a cycle among the pairs of those present.
ghost use Rattle.std.specs.Prelude.{◌≡◌, not, ℕ, ◌≤◌};
ghost use Rattle.basics.specs.Elimination.{gives_all};
ghost use Rattle.rules.specs.Sizes.{width};
ghost use Rattle.pairs.specs.Square.{is_in, said_before};

// Whether the pairs contain a cycle. Somebody with nobody left before him is taken off, again and again; where somebody is left and nobody
// can be taken off, there is a cycle, and the search is left with that verdict from inside the passes:
// labelled nested loops, the form that document 01 names.
#[tactic(auto, using(basics::proofs::Below::any_none, crate::proofs::Unmarked::row_skips, crate::proofs::Peel::passed_none))]
pub fn contains_cycle(rows: [[bool; 32]; 32], present: [bool; 32], places: usize) -> bool
    requires { places ≤ width }
    ensures { (key : ℕ → ℕ) → result ≡ not (gives_all places (said_before rows) key (is_in present)) }
{
    let mut left = present;
    'peel: loop {
        let mut any = false;
        'pass: for m in 0..places {
            if left[m] {
                any = true;
                for k in 0..places {
                    if left[k] && rows[m][k] {
                        continue 'pass;
                    }
                }
                left[m] = false;
                continue 'peel;
            }
        }
        return any;
    }
}
