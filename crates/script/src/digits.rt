// Hexadecimal digits.
ghost use Rattle.std.specs.Prelude.{◌≡◌, ◌<◌, IfSome};
ghost use Rattle.script.specs.Hex.{hex_value};

// The value of a hexadecimal digit of either case; none for any other byte.
#[tactic(auto, unfolding(crate::specs::Hex::hex_value))]
pub fn hex_value(b: u8) -> Option<u8>
    ensures value { result ≡ hex_value b }
    ensures digit { IfSome result (λ d. d < 16) }
{
    char::from(b).to_digit(16).map(|d| d as u8)
}
