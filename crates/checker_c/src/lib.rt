// The checker's entry for the duty desk's program in C: one function, with the promise of the checker's own. `include/nogturshan.h` declares it.
#![tactic(auto)]

ghost use Rattle.std.specs.Prelude.{◌≡◌};
ghost use Rattle.rules.specs.Sizes.{yard};
ghost use Rattle.checker.specs.Desk.{checked_pairs};

use checker::desk;

// The checker's number; 1 if the list's bytes are odd.
#[unsafe(no_mangle)]
pub extern "C" fn nogturshan_check(opening: &[u8], log: &[u8], begin: u32, list: &[u8]) -> u8
    ensures { result ≡ checked_pairs yard opening.now log.now begin list.now }
{
    desk::nogturshan_check(opening, log, begin, list)
}
