/// The one error of this crate: it runs out of memory.
pub use std::alloc::AllocError as NoMemory;
