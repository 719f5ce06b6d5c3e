// Whether a list has nobody in it but the company.
ghost use Rattle.std.specs.Prelude.{◌≡◌, ◌≤◌, length};
ghost use Rattle.rules.specs.Sizes.{width};
ghost use Rattle.check_list.specs.Listed.{all_in_time};

use check_replay::state::Replay;

// Each listed transaction is the named one, or committed before its moment.
pub fn is_in_time(from: &Replay, list: &[u16], t: u16) -> bool
    requires { length list.now ≤ width }
    ensures { result ≡ all_in_time from.now.listed from.now.moment list.now t }
{
    list.iter().zip(&from.listed).all(|(who, kept)| {
        *who == t || kept.commit.is_some_and(|n| n < from.moment)
    })
}
