// Bytes as hexadecimal digits: two digits a byte, in the order of the bytes.
ghost use Rattle.std.specs.Prelude.{◌≡◌, ◌*◌, ◌<◌, length};
ghost use Rattle.texts.specs.Letters.{hex_letter, hex_text};

// The digit, in lower case, of a number below 16.
#[tactic(auto, unfolding(crate::specs::Letters::hex_letter))]
fn hex_letter(d: u8) -> u8
    requires { d < 16 }
    ensures { result ≡ hex_letter d }
{
    if d < 10 { b'0' + d } else { b'a' + (d - 10) }
}

// The digits of bytes, in lower case, into a buffer of just their number.
#[tactic(auto, using(crate::proofs::Spelling::spelled_more, crate::proofs::Spelling::spelled_all), unfolding(crate::specs::Letters::hex_text))]
pub fn spell(out: &mut [u8], bytes: &[u8])
    requires { length out.old ≡ 2 * length bytes.now }
    ensures { out.new ≡ hex_text bytes.now }
{
    for (i, b) in bytes.iter().enumerate() {
        out[2 * i] = hex_letter(b / 16);
        out[2 * i + 1] = hex_letter(b % 16);
    }
}
