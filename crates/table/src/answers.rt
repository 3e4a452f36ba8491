// What a call answers.
ghost use Rattle.std.specs.Prelude.{◌≡◌};
ghost use Rattle.table.specs.Answers.{refusal_number, numbers_of};

// Why a call is turned down, each with its number; so `refusal_number` in specs/Answers.antt.
#[derive(Clone, Copy)]
pub enum Refusal {
    EmptyOrShort = 1,
    NotSound = 2,
    NoGeometry = 3,
    NoNode = 4,
    NoItem = 5,
    DeadNode = 6,
    CheckpointOpen = 7,
    NoCheckpoint = 8,
    NoFrame = 9,
    PlaceInvalid = 10,
    NoHome = 11,
    NotCreated = 12,
    LastNumber = 13,
    TooFewNodes = 14,
    NoRecoveryCopy = 15,
    ShortScratch = 16,
    TooManyFrames = 20,
}

// Carried out, with document 01's value and count of stores; document 01's 17, nothing left to create; or turned down.
#[derive(Clone, Copy)]
pub enum Answer {
    Done { value: u64, stores: u64 },
    NothingLeft,
    Refused(Refusal),
}

// Document 01's answer, value and count of stores.
#[derive(Clone, Copy)]
pub struct Numbers {
    pub answer: u64,
    pub value: u64,
    pub stores: u64,
}

// The answer where what was handed in names no call.
pub const MALFORMED: u64 = 18;

// The number of a refusal.
impl From<Refusal> for u64 {
    ghost from_gives = { λ refusal n. n ≡ refusal_number refusal };

    fn from(refusal: Refusal) -> u64 {
        refusal as u64
    }
}

// An answer in document 01's numbers.
impl From<Answer> for Numbers {
    ghost from_gives = { λ answer numbers. numbers ≡ numbers_of answer };

    fn from(answer: Answer) -> Numbers {
        match answer {
            Answer::Done { value, stores } => Numbers {
                answer: 0,
                value,
                stores,
            },
            Answer::NothingLeft => Numbers {
                answer: 17,
                value: 0,
                stores: 0,
            },
            Answer::Refused(refusal) => Numbers {
                answer: u64::from(refusal),
                value: 0,
                stores: 0,
            },
        }
    }
}
