//! Why nothing, or not the whole text, was written.

/// Why nothing, or not the whole text, was written. After `Write` a beginning of the text was written, and after the
/// others nothing.
#[derive(Clone, Copy, Debug, PartialEq, Eq)]
pub enum Failure<E> {
    /// The source failed in this call.
    Read,
    /// The sink failed in this call.
    Write,
    /// An allocation failed while the input was read.
    OutOfMemory,
    /// No text was made of the input, for this reason.
    Unmade(E),
}
