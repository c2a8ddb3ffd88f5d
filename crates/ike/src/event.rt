// The events of IKE that come with numbers alone and change only the phase.

// An event that comes with numbers alone and changes only the phase.
#[derive(Clone, Copy)]
pub enum IkeEvent {
    Begin,
    InitAnswer,
    // Whether AUTH is good.
    FinalAnswer(u64),
    // The error's number.
    Error(u64),
    GiveUp,
}
