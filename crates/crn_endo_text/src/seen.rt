/// What a document says of whether a network is endotactic: no at a reaction, counted from 1.
#[derive(Clone, Copy, Debug, PartialEq, Eq)]
pub enum EndoSeen {
    Yes,
    No { reaction: u32 },
    Undecided,
}
