// Records that no two places share.
ghost use Rattle.std.specs.Prelude.{◌≡◌, ◌<◌, ◌≤◌};
ghost use Rattle.basics.specs.Below.{all_below};
ghost use Rattle.rules.specs.Sizes.{width};
ghost use Rattle.sound_keys.specs.Apart.{apart};

use rules::sizes::WIDTH;

// Of the 32 places behind i, none that passes has the key of place i, if that passes. All 32 are looked at, with no branch, so that the pass is laid
// out in vector instructions.
#[tactic(auto, using(basics::proofs::Below::all_none, basics::proofs::Below::all_more, basics::proofs::Below::all_of), unfolding(crate::specs::Apart::apart))]
fn is_apart(passes: &[bool; 64], keys: &[u16; 64], i: usize) -> bool
    requires { i < width }
    ensures { result ≡ apart passes.now keys.now i }
{
    if !passes[i] {
        return true;
    }
    let key = keys[i];
    let behind = i + 1;
    let mut apart = true;
    for k in 0..WIDTH {
        apart &= !(passes[behind + k] & (key == keys[behind + k]));
    }
    apart
}

// Of the places that pass, no two have the same key, if nobody passes behind the last. Keys are of any places, so no `Limits` are asked for.
#[tactic(auto, using(basics::proofs::Below::all_none, basics::proofs::Below::all_passes))]
pub fn are_apart(passes: [bool; 64], keys: [u16; 64], places: usize) -> bool
    requires { places ≤ width }
    ensures { result ≡ all_below (apart passes keys) places }
{
    for i in 0..places {
        if !is_apart(&passes, &keys, i) {
            return false;
        }
    }
    true
}
