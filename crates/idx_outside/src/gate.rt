/// What a worker thread has finished.
#[derive(Clone, Copy, Debug, PartialEq, Eq)]
pub enum GatePlace {
    /// It has cut its part of the input into parcels.
    Parcelled,
    /// It has encoded a piece and handed on its shipments.
    Shipped,
    /// It has written and sealed a file.
    Sealed,
    /// It has accepted a connection.
    Accepted,
    /// It has served a connection to its end and handed it back.
    Answered,
}

/// Where worker threads report what they have finished, so that a test can hold one of them there.
pub trait Gate: Sync {
    /// The worker of this number, counted from 0, has finished this. The call may wait.
    fn pass(&self, place: GatePlace, worker: u32);
}

/// A gate that lets every worker through at once.
#[derive(Clone, Copy, Debug)]
pub struct FreeGate;

impl Gate for FreeGate {
    fn pass(&self, _place: GatePlace, _worker: u32) {}
}
