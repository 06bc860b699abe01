// The answers that a caller can meet, and the number that stands for one where a plain number must do.
#![tactic(auto)]

ghost use Rattle.std.specs.Prelude.{◌≡◌, ℕ};
ghost use Rattle.answer.specs.Answer.{Refused, packed, verdict_packed};
ghost use Rattle.answer.specs.Verdict as verdict;
ghost use Rattle.answer.specs.Said.{number_of, refusal, number_of_verdict, found_number, refusal_number, packed_by};

// Why a call is refused: 01, "Numbers a caller can meet", and 02.
#[derive(Clone, Copy, Debug, PartialEq, Eq)]
pub enum Reason {
    Size = 1,
    NoKeys = 2,
    Ragged = 3,
    TooMany = 4,
    NotAscending = 5,
    TooShort = 6,
    Form = 7,
    ChildAtFoot = 8,
    KeyAbove = 9,
    OtherDigest = 10,
    NoContradiction = 11,
    Head = 12,
    NotACode = 13,
    Lines = 14,
    MoreCodes = 16,
    UnknownProfile = 17,
}

impl Reason {
    // Its number in the documents.
    pub fn number(self) -> u16
        ensures { result ≡ number_of self }
    {
        self as u16
    }

    // The refusal for this reason at a place.
    pub fn at(self, place: u32) -> Refusal
        ensures { result ≡ refusal self place }
    {
        Refusal {
            reason: self,
            place,
        }
    }
}

// Why, and where: the place is the documents' for that reason.
#[derive(Clone, Copy, Debug, PartialEq, Eq)]
pub struct Refusal {
    pub reason: Reason,
    pub place: u32,
}

// What an accepted call counts, or its refusal.
pub type Answer = Result<u32, Refusal>;

// What an accepted attestation shows of a key under a digest: that it is listed, or that it is not.
#[derive(Clone, Copy, Debug, PartialEq, Eq)]
pub enum Verdict {
    Present,
    Absent,
}

// What has a number that callers in other languages are given for it.
pub trait Number {
    ghost number: { Self → ℕ };

    fn number(self) -> u64
        ensures { result ≡ number self };
}

impl Number for u32 {
    ghost number = { λ n. n };

    fn number(self) -> u64 {
        u64::from(self)
    }
}

// Above every place that a refusal has, so that a number which a caller cut to 32 bits never turns a refusal into a verdict.
impl Number for Verdict {
    ghost number = { number_of_verdict };

    fn number(self) -> u64 {
        match self {
            Verdict::Present => 65537,
            Verdict::Absent => 65536,
        }
    }
}

// Where there is none, a number that is no u32.
impl Number for Option<u32> {
    ghost number = { found_number };

    fn number(self) -> u64 {
        match self {
            Some(n) => u64::from(n),
            None => 0x1_0000_0000,
        }
    }
}

// The reason's number in bits 48 to 63, the place in bits 0 to 31.
impl Number for Refusal {
    ghost number = { refusal_number };

    fn number(self) -> u64 {
        pack_refused(self.reason.number(), self.place)
    }
}

// A refusal of any number as one number, whether or not there is a reason of that number here.
pub fn pack_refused(number: u16, place: u32) -> u64
    ensures answer { result ≡ packed (Refused number place) }
    ensures verdict { result ≡ verdict_packed (verdict.Refused number place) }
{
    u64::from(number) * 0x1_0000_0000_0000 + u64::from(place)
}

// An answer as one number, for callers in other languages: the value's or the refusal's.
pub fn pack<T: Number>(answer: Result<T, Refusal>) -> u64
    ensures { result ≡ packed_by T.number answer }
{
    match answer {
        Ok(value) => value.number(),
        Err(refusal) => refusal.number(),
    }
}
