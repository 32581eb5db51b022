// Who says an answer.

#[derive(Clone, Copy, Drop, PartialEq, Eq)]
pub(crate) enum Speaker {
    /// A worker, which may also say that it failed.
    Worker,
    /// A script of events, which may also say why there was no answer.
    Script,
}
