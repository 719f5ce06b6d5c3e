// The line that a refusal is printed as.
ghost use Rattle.std.specs.Prelude.{◌≡◌, ◌≤◌, length, take};
ghost use Rattle.rules.specs.Report.{refused_line};
ghost use Rattle.texts.specs.Said.{Puts, refused_told};

use crate::buffer::Text;

// `refused`, the number and the end of the line.
#[tactic(auto, unfolding(crate::specs::Said::refused_told, crate::specs::Said::placed, basics::specs::Text::text))]
fn told(out: &mut Text, number: u8)
    ensures { Puts out.old out.new (refused_told number) }
{
    out.put(b"refused ");
    out.put_decimal(u16::from(number));
    out.put(b"\n");
}

// The line into the front of a buffer, and how many bytes it has. The line of any number is promised.
#[tactic(auto, using(crate::proofs::Fitting::refused_fits))]
pub fn refused(out: &mut [u8], number: u8) -> usize
    requires { 16 ≤ length out.old }
    ensures { take result out.new ≡ refused_line number }
{
    let mut text = Text::new(out);
    told(&mut text, number);
    text.at
}
