// What is answered to a row, and who answers.
use crate::row::Row;
use crate::stop::Stop;
use std::alloc::Global;

/// A status, and what stands in the two sinks.
#[derive(Drop)]
pub struct Answer {
    pub status: u8,
    pub out: Vec<u8>,
    pub report: Vec<u8>,
}

impl Answer {
    /// The answer of this status with these bytes.
    pub fn of(alloc: Global, status: u8, out: &[u8], report: &[u8]) -> Result<Answer, Stop> {
        Ok(Answer {
            status,
            out: out.to_vec(alloc)?,
            report: report.to_vec(alloc)?,
        })
    }
}

/// What answers rows.
pub trait Program {
    /// What the row's call gives for this input.
    fn answer(&self, alloc: Global, row: &Row, input: &[u8]) -> Result<Answer, Stop>;
}
