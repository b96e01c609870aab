// A fault of a source or of a sink.

/// A source or a sink could not do what it was asked to do.
#[derive(Clone, Copy, Debug, PartialEq, Eq)]
pub struct Failed;
