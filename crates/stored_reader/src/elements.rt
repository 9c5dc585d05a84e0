// The elements of a case: its words as i32 or f64, and whether elements are those of the words.
ghost use Rattle.std.specs.Prelude.{◌≡◌};
ghost use Rattle.std.specs.Float.Ieee.{nan_bits};
ghost use Rattle.std.specs.Float.{binary64};

// An element that is stored as a word.
pub trait Element: Copy {
    fn from_word(word: u64) -> Self;

    fn is_word(self, word: u64) -> bool;
}

// Words outside i32 have been refused before.
impl Element for i32 {
    fn from_word(word: u64) -> i32 {
        i32::try_from(word.cast_signed()).unwrap_or(0)
    }

    fn is_word(self, word: u64) -> bool {
        self == i32::from_word(word)
    }
}

// Whether these are the bits of a NaN.
fn is_nan(word: u64) -> bool
    ensures { result ≡ nan_bits binary64 word }
{
    let exponent = word % (1 << 63) / (1 << 52);
    let digits = word % (1 << 52);
    exponent == 0x7ff && digits != 0
}

// The f64 of these bits. Of a NaN it keeps that it is one: which bits a NaN has cannot be told.
impl Element for f64 {
    fn from_word(word: u64) -> f64 {
        if is_nan(word) {
            f64::NAN
        } else {
            f64::from_bits(word)
        }
    }

    fn is_word(self, word: u64) -> bool {
        if self.is_nan() {
            is_nan(word)
        } else {
            self.to_bits() == word
        }
    }
}

// Fills the elements with the words, and with the element of 0 past them.
pub fn fill<E: Element>(words: &[u64], elements: &mut [E]) {
    for (i, element) in elements.iter_mut().enumerate() {
        *element = E::from_word(words.get(i).copied().unwrap_or(0));
    }
}

// Whether these are the elements of the words.
pub fn are_words<E: Element>(elements: &[E], words: &[u64]) -> bool {
    elements.len() == words.len()
        && elements
            .iter()
            .zip(words)
            .all(|(element, word)| element.is_word(*word))
}
