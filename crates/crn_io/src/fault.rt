/// Memory ran out.
pub use std::alloc::AllocError as NoMemory;

/// Why not all was read, in the order in which the causes are met.
#[derive(Clone, Copy, Debug, PartialEq, Eq)]
pub enum ReadStop {
    /// More bytes were left than the limit.
    TooLong,
    /// The source failed.
    Failed,
    /// Memory ran out.
    NoMemory,
}

/// Not all was written, because the sink failed.
#[derive(Clone, Copy, Debug, PartialEq, Eq)]
pub struct WriteFault;
