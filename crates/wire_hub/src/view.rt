// What a pass of a mailbox knows. No value of it is made.
use crate::letter::Letter;
use gr_ids::Inc;
use std::collections::LinkedList;

/// What a pass of a mailbox is for.
pub enum Role {
    /// It takes, and it made the passes of the senders.
    Taker,
    /// It sends.
    Sender,
    /// It does neither, and carries what it was told from one pass to another.
    Note,
}

/// These letters begin what `name` has sent to the mailbox.
pub struct Told {
    pub name: Inc,
    pub letters: LinkedList<Letter>,
}

/// What a pass of a mailbox knows.
pub struct View {
    pub role: Role,
    /// Whose mailbox it is.
    pub owner: Inc,
    /// Of a sender: its name.
    pub name: Inc,
    /// Of the taker: the senders that it has made.
    pub senders: LinkedList<Inc>,
    /// Of a sender what it has sent, of the taker what it has taken.
    pub letters: LinkedList<Letter>,
    /// What it was told of the senders.
    pub told: LinkedList<Told>,
}
