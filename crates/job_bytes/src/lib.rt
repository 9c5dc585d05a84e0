// The version of the format and its limits; the fields of a stored job: numbers and words as bytes, read from a lent slice and
// written into one.
#![tactic(auto)]

ghost use Rattle.std.specs.Prelude.{◌≡◌, ◌+◌, ◌*◌, ◌≤◌, length};
ghost use Rattle.std.proofs.lemmas.List.Edits.{sets};
ghost use Rattle.job_bytes.specs.Fields.{bytes_of, words_of, number_from, number_at, byte_at, words_at, held, held_words};
ghost use Rattle.job_bytes.specs.Version.{list_limit};

// The version that is read and written, and the most axes of a stored layout and entries of a list.
pub const VERSION: u64 = 1;

pub const STORED_RANK_LIMIT: usize = 8;

pub const LIST_LIMIT: usize = 16;

// What was read of a field, with the place after it.
#[derive(Clone, Copy)]
pub struct Read<T> {
    pub value: T,
    pub at: usize,
}

// The place of a field that is cut off or has an unlisted value.
#[derive(Clone, Copy, Debug, PartialEq, Eq)]
pub struct Fault {
    pub at: usize,
}

// The number that a field of bytes is, the highest byte first.
fn number_of(field: &[u8]) -> u64
    requires { length field.now ≤ 8 }
    ensures { result ≡ number_from 0 field.now }
{
    let mut word = [0u8; 8];
    word[8 - field.len()..].copy_from_slice(field);
    u64::from_be_bytes(word)
}

// A number of `width` bytes.
pub fn read_number(bytes: &[u8], at: usize, width: usize) -> Result<Read<u64>, Fault>
    requires { width ≤ 8 }
    ensures { result ≡ held (number_at width bytes.now at) }
{
    if bytes.len() < at || bytes.len() - at < width {
        return Err(Fault { at });
    }
    let next = at + width;
    let value = number_of(&bytes[at..next]);
    Ok(Read { value, at: next })
}

// A byte from `low` to `high`.
pub fn read_byte(bytes: &[u8], at: usize, low: u64, high: u64) -> Result<Read<u64>, Fault>
    ensures { result ≡ held (byte_at low high bytes.now at) }
{
    let byte = read_number(bytes, at, 1)?;
    if !(low..=high).contains(&byte.value) {
        return Err(Fault { at });
    }
    Ok(byte)
}

// `n` words. Past them stand zeros.
pub fn read_words(bytes: &[u8], at: usize, n: usize) -> Result<Read<[u64; LIST_LIMIT]>, Fault>
    requires { n ≤ list_limit }
    ensures { result ≡ held_words (words_at n bytes.now at) }
{
    let mut entries = [0u64; LIST_LIMIT];
    let mut place = at;
    for i in 0..n {
        let word = read_number(bytes, place, 8)?;
        entries[i] = word.value;
        place = word.at;
    }
    Ok(Read {
        value: entries,
        at: place,
    })
}

// Writes a number in `width` bytes from `at`.
pub fn put_number(out: &mut [u8], at: usize, width: usize, value: u64)
    requires { (at + width ≤ length out.old) × (width ≤ 8) }
    ensures { out.new ≡ sets out.old at (bytes_of width value) }
{
    let word = value.to_be_bytes();
    out[at..at + width].copy_from_slice(&word[8 - width..]);
}

// Writes words from `at`.
pub fn put_words(out: &mut [u8], at: usize, words: &[u64])
    requires { at + 8 * length words.now ≤ length out.old }
    ensures { out.new ≡ sets out.old at (words_of words.now) }
{
    for (i, word) in words.iter().enumerate() {
        put_number(out, at + 8 * i, 8, *word);
    }
}
