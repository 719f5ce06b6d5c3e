// Arrays of marks, one for each place or cell.
ghost use Rattle.std.specs.Prelude.{◌≡◌, ◌≤◌};
ghost use Rattle.rules.specs.Sizes.{width};
ghost use Rattle.pairs.specs.CellPass.{overlap_of};

// Whether two arrays have a mark in common below the limit.
pub fn overlap(a: [bool; 32], b: [bool; 32], limit: usize) -> bool
    requires { limit ≤ width }
    ensures { result ≡ overlap_of a b limit }
{
    (0..limit).any(|k| a[k] && b[k])
}
