//! What a call gives.

/// What serving one message gives.
#[derive(Drop, PartialEq)]
pub struct Served {
    /// The answers, each an NSP message.
    pub answers: Vec<Vec<u8>>,
    /// The offset at which the next DAP message begins, the NSP message's length where none does.
    pub next: usize,
}
