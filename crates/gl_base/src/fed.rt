/// What a reader of frames answers to the bytes that it was given.
#[derive(Clone, Copy, Debug, PartialEq, Eq)]
pub enum Fed {
    /// All bytes were taken, and no frame ended that isn't empty.
    Nothing,
    /// A frame ended, which the reader lends until it takes more.
    Whole,
    /// A frame passes its bound. The reader is closed from then on.
    TooLong,
    /// A frame was too long before.
    Closed,
}
