// What a commit comes to.
use gr_ids::Blob;
use group_rules::Answer;

/// What a commit comes to.
#[derive(Debug, Drop)]
pub enum CommitStep {
    /// Its answer.
    Said(Answer),
    /// The body of the transaction, which the member is to send; the commit is asked.
    Ready(Blob),
}
