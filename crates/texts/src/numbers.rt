// Numbers in decimal.
ghost use Rattle.std.specs.Prelude.{◌≡◌, ◌≤◌, length, drop};
ghost use Rattle.basics.specs.Text.{digits};

// A number's digits: they stand at the end of the text, from a place on.
#[derive(Clone, Copy)]
pub struct Spelled {
    pub text: [u8; 20],
    pub from: usize,
}

// A number in decimal: twenty digits are room enough for each.
#[tactic(auto, using(crate::proofs::Counting::digits_are, crate::proofs::Counting::digits_fit))]
pub fn decimal(n: u64) -> Spelled
    ensures room { (length result.text ≡ 20) × (result.from ≤ 20) }
    ensures digits { drop result.from result.text ≡ digits 20 n }
{
    let mut text = [0u8; 20];
    let from = itoa::write_digits(n, &mut text, 20);
    Spelled { text, from }
}
