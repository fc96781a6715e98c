// Answers.
ghost use Rattle.std.specs.Prelude.{◌≡◌, []};
ghost use Rattle.tool_texts.specs.Answers.{number_of};

use std::alloc::Global;

/// How a command ends that was given its bytes and found memory.
#[derive(Clone, Copy, Debug, PartialEq, Eq)]
pub enum Status {
    Done,
    /// The bytes are no template.
    NoTemplate,
    /// All leaf turns were made, and a further one was needed.
    GaveUp,
    /// The bytes are no file.
    Malformed,
    /// The bytes are the file of a certificate that is not valid.
    Invalid,
}

impl Status {
    /// The number that the program ends with.
    pub fn number(self) -> u8
        ensures { result ≡ number_of self }
    {
        match self {
            Status::Done => 0,
            Status::NoTemplate => 3,
            Status::GaveUp => 5,
            Status::Malformed => 9,
            Status::Invalid => 10,
        }
    }
}

/// What a command answers: a status, and what it writes to `out` and to `report`.
#[derive(Drop)]
pub struct Answer {
    pub status: Status,
    pub out: Vec<u8>,
    pub report: Vec<u8>,
}

impl Answer {
    /// A text for `out`, and none for `report`.
    pub(crate) fn to_out(alloc: Global, status: Status, text: Vec<u8>) -> Self
        ensures status { result.status ≡ status }
        ensures out { result.out ≡ text }
        ensures report { result.report.items ≡ [] }
    {
        Answer {
            status,
            out: text,
            report: Vec::new(alloc),
        }
    }

    /// A text for `report`, and none for `out`.
    pub(crate) fn to_report(alloc: Global, status: Status, text: Vec<u8>) -> Self
        ensures status { result.status ≡ status }
        ensures out { result.out.items ≡ [] }
        ensures report { result.report ≡ text }
    {
        Answer {
            status,
            out: Vec::new(alloc),
            report: text,
        }
    }
}
