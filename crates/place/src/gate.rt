// The gate: what a call on a handle meets, by the status of the place.
ghost use Rattle.std.specs.Prelude.{◌≡◌, ◌≤◌, false};
ghost use Rattle.rules.specs.Handles.{gate, looked_up, out_of_range};
ghost use Rattle.rules.specs.Refusals.{said};

use crate::handle;
use rules::refusal::Refusal;
use rules::refusal::Refusal::{Ended, Stale};
use rules::{Caller, Place, Size};

// By call and status (free, live, committed): goes on, Stale or Ended.
// A table, the form that document 01 names for what is looked up by place status.
const GATE: [[Result<(), Refusal>; 3]; 5] = [
    [Err(Stale), Ok(()), Err(Ended)], // read
    [Err(Stale), Ok(()), Err(Ended)], // write
    [Err(Stale), Ok(()), Err(Ended)], // commit
    [Err(Stale), Ok(()), Err(Ended)], // give up
    [Err(Stale), Ok(()), Ok(())], // order
];

// What the table says of a call at a place of that status.
#[tactic(auto, unfolding(rules::specs::Handles::gate, rules::specs::Handles::asks_live))]
pub fn passes(call: Caller, status: u8) -> Result<(), Refusal>
    requires { status ≤ 2 }
    ensures { said result ≡ gate call status }
{
    GATE[call as usize][status as usize]
}

// What a call on a handle meets at the place p that the handle names: 3, 4, or nothing where it goes on.
#[tactic(auto, unfolding(rules::specs::Handles::looked_up))]
pub fn lookup(p: Place, z: Size, call: Caller, handle: u32) -> Result<(), Refusal>
    requires { out_of_range z handle ≡ false → p.status ≤ 2 }
    ensures { said result ≡ looked_up z call p handle }
{
    if handle::is_out_of_range(handle, z) || p.turn as u32 != handle::turn_of(handle) {
        return Err(Stale);
    }
    passes(call, p.status)
}
