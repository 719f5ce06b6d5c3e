// Handles: place + 32 × turn.
ghost use Rattle.std.specs.Prelude.{◌≡◌, ◌<◌};
ghost use Rattle.rules.specs.Sizes.{handles_a_turn};
ghost use Rattle.rules.specs.Books.{next_turn};
ghost use Rattle.rules.specs.Handles.{handle_of, place_of, turn_of, out_of_range};

use rules::Size;
use rules::sizes::{HANDLES, HANDLES_A_TURN};

// A turn goes up by one and passes from 65,535 to 0.
pub fn next_turn(turn: u16) -> u16
    ensures { result ≡ next_turn turn }
{
    turn.wrapping_add(1)
}

// The handle of a place and its turn.
pub fn of(place: usize, turn: u16) -> u32
    requires { place < handles_a_turn }
    ensures { result ≡ handle_of place turn }
{
    place as u32 + HANDLES_A_TURN * turn as u32
}

// The place that a handle names.
pub fn place_of(handle: u32) -> usize
    ensures { result ≡ place_of handle }
{
    (handle % HANDLES_A_TURN) as usize
}

// The turn that a handle names.
pub fn turn_of(handle: u32) -> u32
    ensures { result ≡ turn_of handle }
{
    handle / HANDLES_A_TURN
}

// No handle at all: 2,097,152 or more, or of a place that the controller lacks.
#[tactic(auto, unfolding(rules::specs::Handles::out_of_range))]
pub fn is_out_of_range(handle: u32, z: Size) -> bool
    ensures { result ≡ out_of_range z handle }
{
    HANDLES <= handle || z.places <= place_of(handle)
}
