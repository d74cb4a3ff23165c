// What a worker passes before its work.

/// What each worker passes before it expands its text.
pub trait Gate {
    /// Is called by each worker of a round, with its number in the round, from 0.
    fn pass(&self, index: u32);

    /// Whether each text of a round wants a thread of its own, however little there is to do.
    fn wants_threads(&self) -> bool {
        true
    }
}

/// A gate at which no worker stops.
#[derive(Clone, Copy, Debug, PartialEq, Eq)]
pub struct OpenGate;

impl Gate for OpenGate {
    fn pass(&self, _index: u32) {}

    fn wants_threads(&self) -> bool {
        false
    }
}
