// A list of begin records: where one stands in it, and whether none stands twice.
ghost use Rattle.std.specs.Prelude.{◌≡◌};
ghost use Rattle.basics.specs.Lists.{distinct};
ghost use Rattle.check_list.specs.Listed.{found};

// Where a transaction first stands in a list, if it does.
pub fn position(list: &[u16], who: u16) -> Option<usize>
    ensures { result ≡ found list.now who }
{
    list.iter().position(|listed| *listed == who)
}

// No number stands in the list twice: none stands behind itself again.
pub fn is_distinct(list: &[u16]) -> bool
    ensures { result ≡ distinct list.now }
{
    for (i, who) in list.iter().enumerate() {
        if list[i + 1..].contains(who) {
            return false;
        }
    }
    true
}
