/// What happens next: a thread's turn, or the expiry of its timed wait.
#[derive(Clone, Copy, PartialEq, Eq)]
pub struct Choice {
    /// The thread's number, from 0 in the order of declaration.
    pub thread: u8,
    /// Whether the thread's timed wait expires.
    pub expiry: bool,
}
