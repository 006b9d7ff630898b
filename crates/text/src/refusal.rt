// The words that a call refuses by, and their numbers. A call that may be refused answers a `Result` with the word as its error.
ghost use Rattle.std.specs.Prelude.{◌≡◌};
ghost use Rattle.text.specs.Refusal.{number_of, verdict_of};

// The refusal words of documents 01 and 02, and their numbers.
#[derive(Clone, Copy, Debug, PartialEq, Eq)]
pub enum Refusal {
    Broken = 1,
    Large = 2,
    Missing = 3,
    Full = 4,
    Root = 5,
    Foreign = 6,
    Long = 7,
    Fieldless = 8,
    Empty = 9,
    Unread = 10,
    IllFormed = 11,
    Wide = 12,
    Short = 13,
    Unconfirmed = 14,
}

impl Refusal {
    // The number of the word.
    pub fn number(self) -> u8
        ensures { result ≡ number_of self }
    {
        self as u8
    }
}

// The number of an answer: 0 where the call is accepted, else its word's.
pub fn number<T: Copy>(answer: Result<T, Refusal>) -> u8
    ensures { result ≡ verdict_of answer }
{
    match answer {
        Ok(_) => 0,
        Err(word) => word.number(),
    }
}
