// The file: its header, and whether the bytes after it are those that were stored.
ghost use Rattle.std.specs.Io.{ReadsAtMost};

use crate::packed::word;
use std::io::Read;
use std::rt::Files;
use std::{fs, io};

// What such a file begins with.
const MAGIC: &[u8] = b"strided2";

const HEADER_BYTES: usize = 40;

const PART_BYTES: usize = 4096;

// A loop that is proved has to end, so it takes at most so many parts.
const MOST_PARTS: u64 = 1048576;

pub fn open<R: Files>(rt: &R) -> io::Result<R::File> {
    fs::open(rt, "cases.bin")
}

// Reads until the bytes are full or the file ends, and says how many it read.
fn read_full(file: &mut impl Read, bytes: &mut [u8]) -> io::Result<usize>
    ensures { ReadsAtMost result bytes.new }
{
    let mut done: usize = 0;
    while done < bytes.len() {
        let got = file.read(&mut bytes[done..])?;
        if got == 0 {
            break;
        }
        done += got;
    }
    Ok(done)
}

// Whether the file had bytes enough.
pub fn fill(file: &mut impl Read, bytes: &mut [u8]) -> io::Result<bool> {
    let got = read_full(file, bytes)?;
    Ok(got == bytes.len())
}

// Opens the file once more, past its header.
pub fn open_at_cases<R: Files>(rt: &R) -> io::Result<R::File> {
    let mut header = [0u8; HEADER_BYTES];
    let mut file = open(rt)?;
    fill(&mut file, &mut header)?;
    Ok(file)
}

// Whether no byte is left.
pub fn is_ended(file: &mut impl Read) -> io::Result<bool> {
    let mut one = [0u8; 1];
    let got = read_full(file, &mut one)?;
    Ok(got == 0)
}

// Bytes that were read: how many, their sum, and the sum of the sums after each.
#[derive(Clone, Copy, Default, PartialEq, Eq)]
struct Sums {
    bytes: u64,
    sum: u64,
    sums: u64,
}

impl Sums {
    fn add(&mut self, bytes: &[u8]) {
        for byte in bytes {
            self.bytes = self.bytes.wrapping_add(1);
            self.sum = self.sum.wrapping_add(u64::from(*byte));
            self.sums = self.sums.wrapping_add(self.sum);
        }
    }
}

// The sums of the rest of the file, which ends with a part that is not full.
fn rest_of(file: &mut impl Read) -> io::Result<Option<Sums>> {
    let mut part = [0u8; PART_BYTES];
    let mut sums = Sums::default();
    for _ in 0..MOST_PARTS {
        let got = read_full(file, &mut part)?;
        sums.add(&part[..got]);
        if got < PART_BYTES {
            return Ok(Some(sums));
        }
    }
    Ok(None)
}

// How many cases the header says there are, if this is such a file, and the bytes after the header are as many as it says,
// with its sums.
pub fn undamaged_count(file: &mut impl Read) -> io::Result<Option<u64>> {
    let mut header = [0u8; HEADER_BYTES];
    if !fill(file, &mut header)? || !header.starts_with(MAGIC) {
        return Ok(None);
    }
    let stored = Sums {
        bytes: word(&header, 16),
        sum: word(&header, 24),
        sums: word(&header, 32),
    };
    let rest = rest_of(file)?;
    if rest == Some(stored) {
        Ok(Some(word(&header, 8)))
    } else {
        Ok(None)
    }
}
