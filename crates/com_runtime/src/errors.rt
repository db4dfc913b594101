//! Why a job was not committed.

use com_body::{Cells, Job, Outcome};

/// Why a job was not committed. The job comes back, with what is needed to go on.
#[derive(Debug, Drop)]
pub enum CommitError {
    /// The object's cells are no longer those of the job: another body of the object was committed since the
    /// job was taken, or its links were cut. Nothing has changed. `kept` are the object's cells.
    Stale { job: Job, kept: Cells },
    /// Memory was wanting. Nothing has changed. The job and the outcome come back.
    Memory { job: Job, outcome: Outcome },
}
