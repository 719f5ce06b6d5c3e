// The words of a line: what stands between blanks. Words are counted from 0.
ghost use Rattle.std.specs.Prelude.{◌≡◌, ◌<◌, ◌≤◌, length, position, IfSome, None};
ghost use Rattle.script.specs.declared.words.Class.TheVariants.{NoByte};
ghost use Rattle.script.specs.Blanks.{class_of, is_of, place_in, first_of, next_start, word_start, word_of, content_of};

// The classes of bytes: blanks, bytes of a word, the start of a comment, the end of a line; and one of which no byte is.
#[derive(Clone, Copy, PartialEq, Eq)]
pub enum Class {
    Blank,
    Solid,
    Comment,
    LineEnd,
    NoByte,
}

// A space, a tab and a carriage return are blanks.
#[tactic(auto, unfolding(crate::specs::Blanks::class_of))]
fn class_of(b: u8) -> Class
    ensures { result ≡ class_of b }
{
    match b {
        b'\t' | b'\r' | b' ' => Class::Blank,
        b'\n' => Class::LineEnd,
        b'#' => Class::Comment,
        _ => Class::Solid,
    }
}

// A byte is of a class.
fn is_of(b: u8, class: Class) -> bool
    ensures { result ≡ is_of class b }
{
    class_of(b) == class
}

// The first byte of a class.
fn first(bytes: &[u8], class: Class) -> Option<usize>
    ensures { result ≡ position (is_of class) bytes.now }
{
    bytes.iter().position(|b| is_of(*b, class))
}

// From a place on, the first byte of a class.
#[tactic(auto, using(crate::proofs::Scanning::first_within))]
pub fn first_of(line: &[u8], at: usize, class: Class) -> Option<usize>
    requires { at ≤ length line.now }
    ensures found { result ≡ place_in (length line.now) (first_of line.now at class) }
    ensures within { IfSome result (λ i. (at ≤ i) × (i < length line.now)) }
    ensures no_byte { class ≡ NoByte → result ≡ None }
{
    Some(at + first(&line[at..], class)?)
}

// From a place on, up to the first byte of a class; up to the end, where there is none.
#[tactic(auto, using(crate::proofs::Scanning::first_most))]
fn end_at(line: &[u8], at: usize, class: Class) -> usize
    requires { at ≤ length line.now }
    ensures end { result ≡ first_of line.now at class }
    ensures within { (at ≤ result) × (result ≤ length line.now) }
{
    first_of(line, at, class).unwrap_or(line.len())
}

// Where the next word starts, from the start of a word.
#[tactic(auto, using(crate::proofs::Scanning::first_most, crate::proofs::Scanning::next_is, crate::proofs::Scanning::next_missing))]
fn next(line: &[u8], at: usize) -> Option<usize>
    requires { at ≤ length line.now }
    ensures found { result ≡ place_in (length line.now) (next_start line.now at) }
    ensures within { IfSome result (λ i. (at ≤ i) × (i < length line.now)) }
{
    let end = first_of(line, at, Class::Blank)?;
    first_of(line, end, Class::Solid)
}

// Where a word starts; none where the line has no such word.
#[tactic(auto, using(crate::proofs::Scanning::start_first, crate::proofs::Scanning::start_next))]
pub fn start(line: &[u8], n: usize) -> Option<usize>
    ensures found { result ≡ place_in (length line.now) (word_start line.now n) }
    ensures within { IfSome result (λ i. i < length line.now) }
{
    let mut at = first_of(line, 0, Class::Solid)?;
    for _ in 0..n {
        at = next(line, at)?;
    }
    Some(at)
}

// A word; an empty part where the line has no such word.
#[tactic(auto, using(crate::proofs::Scanning::no_word, crate::proofs::Scanning::word_is))]
pub fn word(line: &[u8], n: usize) -> &[u8]
    ensures { result.now ≡ word_of line.now n }
{
    let Some(from) = start(line, n) else {
        return &[];
    };
    &line[from..end_at(line, from, Class::Blank)]
}

// A line up to its comment.
#[tactic(auto, unfolding(crate::specs::Blanks::content_of))]
pub fn content(line: &[u8]) -> &[u8]
    ensures { result.now ≡ content_of line.now }
{
    &line[..end_at(line, 0, Class::Comment)]
}
