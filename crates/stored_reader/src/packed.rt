// A case as it is packed (data/README.md): a head of 32 bytes, then words of eight bytes. Each method answers for any
// bytes; what is past their end counts as 0, or as an empty list.

ghost use Rattle.std.specs.Prelude.{◌≡◌, ◌≤◌, length};

pub const HEAD_BYTES: usize = 32;

// How many words of a case there is room for, and how many bytes they take.
pub const WORDS: usize = 512;

pub const CASE_BYTES: usize = 8 * WORDS;

// The word of the eight bytes from this place on, the least first.
pub fn word(bytes: &[u8], at: usize) -> u64 {
    bytes
        .get(at..)
        .and_then(|rest| rest.first_chunk())
        .map_or(0, |eight| u64::from_le_bytes(*eight))
}

pub fn words_of(bytes: &[u8; CASE_BYTES]) -> [u64; WORDS] {
    let mut words = [0; WORDS];
    for (word, eight) in words.iter_mut().zip(bytes.as_chunks().0) {
        *word = u64::from_le_bytes(*eight);
    }
    words
}

// ---- the head

#[derive(Clone, Copy)]
pub enum Kind {
    Gather,
    Scatter,
}

#[derive(Clone, Copy)]
pub enum ElementType {
    I32,
    F64,
}

// A view of the call, in view order: a gather's operand, index and destination, a scatter's index, updates and destination.
#[derive(Clone, Copy)]
pub enum Side {
    First,
    Second,
    Third,
}

pub const SIDES: [Side; 3] = [Side::First, Side::Second, Side::Third];

// The lists of a case as they are packed: the layouts of the plan, the axes of its spec, the layouts of the call's own, the
// slices, and the destination's slice after the call.
#[derive(Clone, Copy)]
pub enum List {
    FirstExtents,
    FirstStrides,
    SecondExtents,
    SecondStrides,
    ThirdExtents,
    ThirdStrides,
    FirstAxes,
    SecondAxes,
    ThirdAxes,
    FourthAxes,
    OwnFirstExtents,
    OwnFirstStrides,
    OwnSecondExtents,
    OwnSecondStrides,
    OwnThirdExtents,
    OwnThirdStrides,
    FirstSlice,
    SecondSlice,
    Dest,
    DestAfter,
}

impl Side {
    // The extents and the strides of the plan's layout.
    fn planned(self) -> (List, List) {
        match self {
            Side::First => (List::FirstExtents, List::FirstStrides),
            Side::Second => (List::SecondExtents, List::SecondStrides),
            Side::Third => (List::ThirdExtents, List::ThirdStrides),
        }
    }

    // Those of a layout of the call's own.
    fn own(self) -> (List, List) {
        match self {
            Side::First => (List::OwnFirstExtents, List::OwnFirstStrides),
            Side::Second => (List::OwnSecondExtents, List::OwnSecondStrides),
            Side::Third => (List::OwnThirdExtents, List::OwnThirdStrides),
        }
    }
}

#[derive(Clone, Copy)]
pub struct Head {
    bytes: [u8; HEAD_BYTES],
}

// Words that stand before the lists.
const WORDS_BEFORE: usize = 7;

impl Head {
    pub fn new(bytes: [u8; HEAD_BYTES]) -> Head {
        Head { bytes }
    }

    fn kind(&self) -> Option<Kind> {
        match self.bytes[0] {
            1 => Some(Kind::Gather),
            2 => Some(Kind::Scatter),
            _ => None,
        }
    }

    fn element_type(&self) -> Option<ElementType> {
        match self.bytes[1] {
            1 => Some(ElementType::I32),
            2 => Some(ElementType::F64),
            _ => None,
        }
    }

    // Whether the call has a layout of its own for this view, if that is told.
    fn has_own(&self, side: Side) -> Option<bool> {
        let told = match side {
            Side::First => self.bytes[2],
            Side::Second => self.bytes[3],
            Side::Third => self.bytes[4],
        };
        match told {
            0 => Some(false),
            1 => Some(true),
            _ => None,
        }
    }

    // The number of the stored answer.
    fn number(&self) -> u8 {
        self.bytes[5]
    }

    fn counts(&self) -> &[u8]
        ensures { length result.now ≡ 20 }
    {
        &self.bytes[6..26]
    }

    // How many entries this list has.
    fn count(&self, list: List) -> usize
        ensures { result ≤ 255 }
    {
        self.counts()
            .get(list as usize)
            .map_or(0, |n| usize::from(*n))
    }

    // Where the words end of the first so many lists.
    fn words_before(&self, lists: usize) -> usize
        ensures { result ≤ 5107 }
    {
        let counts = self.counts();
        let mut at = WORDS_BEFORE;
        for n in &counts[..lists.min(counts.len())] {
            at += usize::from(*n);
        }
        at
    }

    // How many bytes the words of the case take.
    pub fn size(&self) -> usize {
        8 * self.words_before(20)
    }

    // A view of the call has a layout of its own, or none: two empty lists.
    fn has_own_or_none(&self, side: Side) -> bool {
        let (extents, strides) = side.own();
        match self.has_own(side) {
            Some(true) => true,
            Some(false) => self.count(extents) == 0 && self.count(strides) == 0,
            None => false,
        }
    }
}

// ---- the case

// What is stored of the call's answer: its number, a and b, and how many windows slid.
#[derive(Clone, Copy, PartialEq, Eq)]
pub struct Answered {
    pub number: u64,
    pub a: u64,
    pub b: u64,
    pub slid: u64,
}

// A case, each field of which has a listed value; the words also as signed numbers.
#[derive(Clone, Copy)]
pub struct Case<'a> {
    pub kind: Kind,
    pub element_type: ElementType,
    head: Head,
    words: &'a [u64],
    numbers: &'a [i64],
}

impl<'a> Case<'a> {
    pub fn new(head: Head, words: &'a [u64], numbers: &'a [i64]) -> Option<Case<'a>> {
        let case = Case {
            kind: head.kind()?,
            element_type: head.element_type()?,
            head,
            words,
            numbers,
        };
        let is_listed = head.number() <= 10
            && SIDES.iter().all(|side| head.has_own_or_none(*side))
            && case.has_elements();
        if is_listed { Some(case) } else { None }
    }

    // An f64 may have any bits.
    fn has_elements(&self) -> bool {
        match self.element_type {
            ElementType::F64 => true,
            ElementType::I32 => {
                are_i32(self.signed_list(self.source()))
                    && are_i32(self.signed_list(List::Dest))
                    && are_i32(self.signed_list(List::DestAfter))
            }
        }
    }

    fn word(&self, i: usize) -> u64 {
        self.words.get(i).copied().unwrap_or(0)
    }

    // The first words: the offsets of the views, the vector axis, and what is stored of the answer.
    pub fn offset(&self, side: Side) -> i64 {
        match side {
            Side::First => self.word(0).cast_signed(),
            Side::Second => self.word(1).cast_signed(),
            Side::Third => self.word(2).cast_signed(),
        }
    }

    pub fn vector_axis(&self) -> u64 {
        self.word(3)
    }

    pub fn answered(&self) -> Answered {
        Answered {
            number: u64::from(self.head.number()),
            a: self.word(4),
            b: self.word(5),
            slid: self.word(6),
        }
    }

    pub fn list(&self, list: List) -> &'a [u64] {
        let from = self.head.words_before(list as usize);
        let to = from + self.head.count(list);
        self.words.get(from..to).unwrap_or(&[])
    }

    pub fn signed_list(&self, list: List) -> &'a [i64] {
        let from = self.head.words_before(list as usize);
        let to = from + self.head.count(list);
        self.numbers.get(from..to).unwrap_or(&[])
    }

    // The list whose elements the call reads.
    pub fn source(&self) -> List {
        match self.kind {
            Kind::Gather => List::FirstSlice,
            Kind::Scatter => List::SecondSlice,
        }
    }

    // The extents and the strides of a view of the call: those of its own layout, or the plan's.
    pub fn layout(&self, side: Side) -> (&'a [u64], &'a [i64]) {
        let (extents, strides) = match self.head.has_own(side) {
            Some(true) => side.own(),
            _ => side.planned(),
        };
        (self.list(extents), self.signed_list(strides))
    }
}

fn are_i32(numbers: &[i64]) -> bool {
    numbers.iter().all(|n| i32::try_from(*n).is_ok())
}
