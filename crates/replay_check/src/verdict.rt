/// What a check answers.
#[derive(Clone, Copy, Debug, PartialEq, Eq)]
pub enum Verdict {
    /// The certificate is valid.
    Yes,
    /// The first failure. Its kind is
    ///
    /// - 1 where the record of a step is not the machine's,
    /// - 2 where a step needs a place that was neither given at the start nor written,
    /// - 3 where the machine has no step,
    /// - 4 where a hart or memory does not end as printed,
    /// - 5 where the accesses of a record race with those of an earlier one, or among themselves, harts in ascending order,
    /// - 6 where the template does not admit the trace.
    ///
    /// `hart` and `step` are those of the failure, counted from 0. For a hart's end `step` is its number of records, and
    /// for memory's end `hart` is the number of harts and `step` is 0.
    No { kind: u8, hart: u8, step: u32 },
}

/// The kinds of failure, by their numbers.
pub(crate) enum Kind {
    OtherRecord = 1,
    MissingPlace = 2,
    NoStep = 3,
    OtherEnd = 4,
    Race = 5,
    NotAdmitted = 6,
}
