/// The greatest number of a sample network, which is its number of steps.
pub const MAX_SAMPLE: u32 = 19;

/// The most digits of the number of a sample network in the words of a command.
pub const MAX_SAMPLE_DIGITS: usize = 2;
