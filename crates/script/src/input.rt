// Lines out of a stream that comes in pieces.
ghost use Rattle.std.specs.Prelude.{◌≡◌, ◌<◌, ◌≤◌, length};
ghost use Rattle.script.specs.Pieces.{held_then, held_text, line_rest, taken};

use crate::words;
use crate::words::Class;

// Where the reading stands: the next byte of the piece, how many bytes of the line are held (none once the line is too long), and whether the
// line is whole.
#[derive(Clone, Copy)]
pub struct Taken {
    pub at: usize,
    pub held: Option<usize>,
    pub whole: bool,
}

// More bytes of a line behind those that are held, and how many are held then: none once the line is too long.
#[tactic(auto, unfolding(crate::specs::Pieces::held_then, crate::specs::Pieces::held_text, texts::specs::Placed::with_text, basics::specs::Bytes::splice))]
fn hold(line: &mut [u8], held: Option<usize>, more: &[u8]) -> Option<usize>
    ensures next { result ≡ held_then (length line.old) held (length more.now) }
    ensures bytes { line.new ≡ held_text line.old held more.now }
{
    let at = held?;
    if line.len() < at || line.len() - at < more.len() {
        return None;
    }
    let end = at + more.len();
    line[at..end].copy_from_slice(more);
    Some(end)
}

// Takes the bytes of a piece from a place on, up to the end of the line or of the piece, behind those of the line that are held already.
#[tactic(auto, using(crate::proofs::Scanning::first_most), unfolding(crate::specs::Pieces::taken, crate::specs::Pieces::line_rest, crate::specs::Pieces::line_end, basics::specs::Bytes::part))]
pub fn take_line(piece: &[u8], at: usize, line: &mut [u8], held: Option<usize>) -> Taken
    requires { at ≤ length piece.now }
    ensures taken { result ≡ taken piece.now at (length line.old) held }
    ensures moves { (at < length piece.now → at < result.at) × (result.at ≤ length piece.now) }
    ensures bytes { line.new ≡ held_text line.old held (line_rest piece.now at) }
{
    match words::first_of(piece, at, Class::LineEnd) {
        Some(end) => Taken {
            at: end + 1,
            held: hold(line, held, &piece[at..end]),
            whole: true,
        },
        None => Taken {
            at: piece.len(),
            held: hold(line, held, &piece[at..]),
            whole: false,
        },
    }
}
