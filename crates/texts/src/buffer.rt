// Text put together in a lent buffer, piece by piece. A piece that has no room is left out whole.
ghost use Rattle.std.specs.Prelude.{◌≡◌, [], ◌∷◌, take};
ghost use Rattle.basics.specs.Text.{digits, decimal};
ghost use Rattle.texts.specs.Letters.{hex_text};
ghost use Rattle.texts.specs.Said.{Puts};

use crate::{hex, numbers};

// The buffer, and the place after what is put already.
#[derive(Drop)]
pub struct Text<'a> {
    pub out: &'a mut [u8],
    pub at: usize,
}

impl<'a> Text<'a> {
    // Nothing is put yet.
    pub fn new(out: &'a mut [u8]) -> Text<'a>
        ensures same { result.out.ghost_name ≡ out.entry.ghost_name }
        ensures bytes { result.out.now ≡ out.old }
        ensures empty { result.at ≡ 0 }
    {
        Text { out, at: 0 }
    }

    // What is put.
    pub fn so_far(&self) -> &[u8]
        ensures { result.now ≡ take self.now.at self.now.out.now }
    {
        front(self.out, self.at)
    }

    // Bytes.
    #[tactic(auto, unfolding(crate::specs::Said::placed, crate::specs::Placed::with_text, crate::specs::Placed::after_text, basics::specs::Bytes::splice))]
    pub fn put(&mut self, bytes: &[u8])
        ensures { Puts self.old self.new (bytes.now ∷ []) }
    {
        let at = self.at;
        if self.out.len() < at || self.out.len() - at < bytes.len() {
            return;
        }
        let end = at + bytes.len();
        self.out[at..end].copy_from_slice(bytes);
        self.at = end;
    }

    // A number in decimal.
    pub fn put_number(&mut self, n: u64)
        ensures { Puts self.old self.new (digits 20 n ∷ []) }
    {
        let spelled = numbers::decimal(n);
        self.put(&spelled.text[spelled.from..]);
    }

    // A number of 16 bits in decimal: five digits at most.
    #[tactic(auto, using(crate::proofs::Fitting::decimal_is))]
    pub fn put_decimal(&mut self, n: u16)
        ensures { Puts self.old self.new (decimal n ∷ []) }
    {
        self.put_number(u64::from(n));
    }

    // Bytes as hexadecimal digits.
    #[tactic(auto, using(crate::proofs::Spelling::hex_text_length), unfolding(crate::specs::Said::placed, crate::specs::Placed::with_text, crate::specs::Placed::after_text, basics::specs::Bytes::splice))]
    pub fn put_hex(&mut self, bytes: &[u8])
        ensures { Puts self.old self.new (hex_text bytes.now ∷ []) }
    {
        let at = self.at;
        if self.out.len() < at || (self.out.len() - at) / 2 < bytes.len() {
            return;
        }
        let end = at + 2 * bytes.len();
        hex::spell(&mut self.out[at..end], bytes);
        self.at = end;
    }
}

// The first elements; all, where there are not so many.
pub fn front<T>(items: &[T], n: usize) -> &[T]
    ensures { result.now ≡ take n items.now }
{
    &items[..n.min(items.len())]
}
