// What is answered: the checker's answer for a saved day, and the line that it is printed as.
ghost use Rattle.std.specs.Prelude.{◌≡◌, ◌≢◌, ◌≤◌, length, take, drop, Err, IfErr};
ghost use Rattle.rules.specs.Sizes.{yard, table_bytes};
ghost use Rattle.rules.specs.Refusals.{said};
ghost use Rattle.rules.specs.Checker.{checked};
ghost use Rattle.rules.specs.Report.{refused_line};
ghost use Rattle.accept.specs.Words.{answer_line, number_in};

use crate::list::Numbers;
use checker::proposal;
use rules::refusal::Refusal;
use rules::sizes;
use texts::buffer::Text;
use texts::refusal;

// The checker's answer: lent if what was read is less than an opening table.
pub fn of_day(input: &[u8], begin: u32, order: &[u16]) -> Result<(), Refusal>
    ensures { said result ≡ checked yard (take (table_bytes yard) input.now) (drop (table_bytes yard) input.now) begin order.now }
{
    if input.len() < sizes::TABLE_BYTES {
        return Err(Refusal::Lent);
    }
    let (opening, log) = input.split_at(sizes::TABLE_BYTES);
    proposal::checked(opening, log, begin, order)
}

// The same for the numbers that are kept.
pub fn checked(input: &[u8], begin: u32, numbers: &Numbers) -> Result<(), Refusal>
    ensures { said result ≡ checked yard (take (table_bytes yard) input.now) (drop (table_bytes yard) input.now) begin (take numbers.now.count numbers.now.kept) }
{
    of_day(input, begin, numbers.listed())
}

// `accepted`, or `refused` and the number, 0 too, and the end of the line into the front of a buffer, and how many bytes they are.
#[tactic(auto, using(crate::proofs::Listing::accepted_line, crate::proofs::Listing::refused_answer), unfolding(basics::specs::Text::text))]
pub fn line(out: &mut [u8], answer: Result<(), u8>) -> usize
    requires { 16 ≤ length out.old }
    ensures line { answer ≢ Err 0 → take result out.new ≡ answer_line (number_in answer) }
    ensures refused { IfErr answer (λ number. take result out.new ≡ refused_line number) }
{
    match answer {
        Ok(()) => {
            let mut text = Text::new(out);
            text.put(b"accepted\n");
            text.at
        }
        Err(number) => refusal::refused(out, number),
    }
}
