// What a part becomes.
use gr_ids::Blob;

/// What a part becomes with the parts of its origin before it.
#[derive(Debug, Drop)]
pub enum Joined {
    /// One of several, with more to come.
    Open,
    /// Nothing: it doesn't go on where its origin's parts left off, or the parts join to no transaction.
    Void,
    /// The last one of a transaction, with the bytes of the whole body.
    Whole(Blob),
}
