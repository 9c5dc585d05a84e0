// Replays the stored cases (data/README.md says what they are and how they were made) through the crates, and prints how
// many of the stored answers came out again.
#![tactic(auto)]

mod outcomes;
mod report;

use outcomes::Outcome;
use report::{Counts, Stopped};
use std::io;
use std::io::Read;
use std::rt::Files;
use stored_reader::file;
use stored_reader::packed::{CASE_BYTES, Case, HEAD_BYTES, Head, WORDS, words_of};

// Answers the case of this index, and counts its outcome.
fn take_case(rt: &impl Print, index: u64, case: &Case, counts: &mut Counts) -> io::Result<()> {
    let outcome = Outcome::of(case);
    if matches!(&outcome, Outcome::Different) {
        println!(rt; "different: case {index}")?;
    }
    counts.count(case, outcome);
    Ok(())
}

// Reads and answers the next case.
fn next_case(
    rt: &impl Print,
    cases: &mut impl Read,
    index: u64,
    counts: &mut Counts,
) -> Result<(), Stopped> {
    let mut head = [0u8; HEAD_BYTES];
    if !file::fill(cases, &mut head)? {
        return Err(Stopped::EndsBefore(index));
    }
    let head = Head::new(head);
    let mut bytes = [0u8; CASE_BYTES];
    let Some(part) = bytes.get_mut(..head.size()) else {
        return Err(Stopped::TooLong(index));
    };
    if !file::fill(cases, part)? {
        return Err(Stopped::EndsInside(index));
    }
    let words = words_of(&bytes);
    let mut numbers = [0i64; WORDS];
    for (number, word) in numbers.iter_mut().zip(&words) {
        *number = word.cast_signed();
    }
    let Some(case) = Case::new(head, &words, &numbers) else {
        return Err(Stopped::Unlisted(index));
    };
    take_case(rt, index, &case, counts)?;
    Ok(())
}

// Replays the cases of the file, opened once more.
fn replay_all(rt: &(impl Files + Print), count: u64) -> Result<Counts, Stopped> {
    let mut counts = Counts::default();
    let mut cases = file::open_at_cases(rt)?;
    for index in 0..count {
        next_case(rt, &mut cases, index, &mut counts)?;
    }
    if file::is_ended(&mut cases)? {
        Ok(counts)
    } else {
        Err(Stopped::MoreStored(count))
    }
}

// Replays the cases if the whole file is as it was stored.
fn replay_undamaged(rt: &(impl Files + Print), cases: &mut impl Read) -> io::Result<()> {
    let Some(count) = file::undamaged_count(cases)? else {
        return println!(rt; "cases.bin is cut short or damaged");
    };
    match replay_all(rt, count) {
        Ok(counts) => print!(rt; "{counts}"),
        Err(Stopped::Io(error)) => Err(error),
        Err(stopped) => println!(rt; "{stopped}"),
    }
}

fn main(rt: HostRuntime) -> io::Result<()> {
    match file::open(&rt) {
        Ok(mut cases) => replay_undamaged(&rt, &mut cases),
        Err(_) => println!(rt; "cases.bin cannot be opened"),
    }
}
