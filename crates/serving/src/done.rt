// What the entries answer.

#[derive(Clone, Copy, Debug, PartialEq, Eq)]
pub enum Done {
    // So many chains still wait.
    Served(u64),
    // The device has stopped.
    Stopped,
    // The device was reset.
    Anew,
    // Nothing was done: the number of the refusal, since that is what the entries are to answer. `Refusal` has the cases.
    Refused(u64),
}
