// What comes of a case: compile and the call on copies of its slices, and whether the answer, the number of windows that
// slid and every element of the destination are those that are stored.
use layout::CallAnswer;
use stored_gathers::Gathered;
use stored_reader::elements;
use stored_reader::elements::Element;
use stored_reader::packed::{Answered, Case, ElementType, Kind, List};
use stored_scatters::Scattered;

// How many elements of a slice there is room for.
const ELEMENTS: usize = 64;

#[derive(Clone, Copy)]
pub enum Outcome {
    Equal,
    Different,
    // Larger than the arrays that its slices are copied to.
    TooLarge,
}

fn answered(called: CallAnswer) -> Answered {
    let answer = called.answer;
    Answered {
        number: layout::number(answer),
        a: layout::first_number(answer),
        b: layout::second_number(answer),
        slid: called.reported,
    }
}

// The outcome of the call on a case's own slices, which are copied to these.
fn outcome_in<E: Element + Gathered + Scattered>(
    case: &Case,
    source: &mut [E],
    into: &mut [E],
) -> Outcome {
    let read = case.list(case.source());
    let held = case.list(List::Dest);
    let Some(source) = source.get_mut(..read.len()) else {
        return Outcome::TooLarge;
    };
    let Some(into) = into.get_mut(..held.len()) else {
        return Outcome::TooLarge;
    };
    elements::fill(read, source);
    elements::fill(held, into);
    let called = match case.kind {
        Kind::Gather => stored_gathers::call(case, source, into),
        Kind::Scatter => stored_scatters::call(case, source, into),
    };
    let is_left = elements::are_words(into, case.list(List::DestAfter));
    if is_left && answered(called) == case.answered() {
        Outcome::Equal
    } else {
        Outcome::Different
    }
}

impl Outcome {
    pub fn of(case: &Case) -> Outcome {
        match case.element_type {
            ElementType::I32 => outcome_in(case, &mut [0i32; ELEMENTS], &mut [0i32; ELEMENTS]),
            ElementType::F64 => outcome_in(case, &mut [0.0f64; ELEMENTS], &mut [0.0f64; ELEMENTS]),
        }
    }
}
