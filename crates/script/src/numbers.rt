// Numbers in decimal.
ghost use Rattle.std.specs.Prelude.{◌≡◌};
ghost use Rattle.script.specs.Numeral.{named, with_digit, number_of};

// A number with one digit more behind it.
#[tactic(auto, unfolding(crate::specs::Numeral::with_digit))]
fn with_digit(n: u32, b: u8) -> Option<u32>
    ensures { named result ≡ with_digit n b }
{
    let digit = char::from(b).to_digit(10)?;
    n.checked_mul(10)?.checked_add(digit)
}

// The number of 32 bits that a word names.
#[tactic(auto, using(crate::proofs::Naming::named_none, crate::proofs::Naming::named_more, crate::proofs::Naming::named_all, crate::proofs::Naming::none_named))]
pub fn number_of(word: &[u8]) -> Option<u32>
    ensures { named result ≡ number_of word.now }
{
    let mut n = 0;
    for b in word {
        n = with_digit(n, *b)?;
    }
    Some(n)
}
