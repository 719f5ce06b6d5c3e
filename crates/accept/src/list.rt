// The numbers of a proposed order, word by word.
ghost use Rattle.std.specs.Prelude.{◌≡◌, ◌<◌, ◌≤◌, ◌↔◌, [], take, option_map, IsNone, IfSome};
ghost use Rattle.script.specs.Numeral.{named};
ghost use Rattle.accept.specs.Words.{word_number, small_number, most_kept, none_listed, with_number, with_last, with_word};

use checker::proposal::MOST_KEPT;
use script::numbers;

// The number of 32 bits that a word names, if it is at most the greatest asked for; an empty word names none.
#[tactic(auto, unfolding(crate::specs::Words::word_number))]
pub fn number_of(word: &[u8], most: u64) -> Option<u32>
    ensures { named result ≡ word_number word.now most }
{
    if word.is_empty() {
        return None;
    }
    numbers::number_of(word).filter(|n| u64::from(*n) <= most)
}

// The number of 16 bits that a word names.
#[tactic(auto, unfolding(crate::specs::Words::small_number, crate::specs::Words::word_number))]
pub fn small_of(word: &[u8]) -> Option<u16>
    ensures { named result ≡ small_number word.now }
{
    u16::try_from(number_of(word, u64::from(u16::MAX))?).ok()
}

// The first numbers, and how many they are: an array of fixed length, since nothing is allocated.
#[derive(Clone, Copy)]
pub struct Numbers {
    pub kept: [u16; MOST_KEPT],
    pub count: usize,
    ghost within: { count ≤ most_kept },
}

impl Numbers {
    // No number yet.
    pub fn none() -> Numbers
        ensures whole { (result.kept, result.count) ≡ none_listed }
        ensures listed { take result.count result.kept ≡ [] }
    {
        Numbers {
            kept: [0; MOST_KEPT],
            count: 0,
        }
    }

    // One number more, if there is room; none where the number has more than 16 bits.
    #[tactic(auto, using(crate::proofs::Listing::one_kept, crate::proofs::Listing::none_kept), unfolding(crate::specs::Words::with_number))]
    pub fn with(self, n: u64) -> Option<Numbers>
        ensures none { IsNone result ↔ (65535 < n) }
        ensures whole { IfSome result (λ next. (next.kept, next.count) ≡ with_number n (self.kept, self.count)) }
        ensures listed { IfSome result (λ next. take next.count next.kept ≡ with_last n (take self.count self.kept)) }
    {
        let small = u16::try_from(n).ok()?;
        let Numbers { mut kept, count } = self;
        if count == MOST_KEPT {
            return Some(self);
        }
        kept[count] = small;
        Some(Numbers {
            kept,
            count: count + 1,
        })
    }

    // The numbers that are kept.
    pub fn listed(&self) -> &[u16]
        ensures { result.now ≡ take self.now.count self.now.kept }
    {
        &self.kept[..self.count]
    }
}

// One word more. There are no numbers any more from the first word on that is missing, or is no number of 16 bits.
#[tactic(auto, unfolding(crate::specs::Words::with_word))]
pub fn with_word(numbers: Option<Numbers>, word: Option<&[u8]>) -> Option<Numbers>
    ensures { option_map (λ n. (n.kept, n.count)) result ≡ with_word word.entry (option_map (λ n. (n.kept, n.count)) numbers) }
{
    let n = small_of(word?)?;
    numbers?.with(u64::from(n))
}
