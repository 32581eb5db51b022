/// A rest, before something is tried again.
pub trait Pause {
    fn rest(&self);
}

/// It doesn't rest.
#[derive(Clone, Copy, Debug)]
pub struct NoPause;

impl Pause for NoPause {
    fn rest(&self) {}
}
