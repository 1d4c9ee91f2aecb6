ghost use Rattle.std.specs.Prelude.{◌≡◌, ◌<◌, ◌^◌, [], length};
ghost use Rattle.crn_cert.specs.Built.{built};
ghost use Rattle.crn_cert.specs.Formed.{AreFormed};
ghost use Rattle.crn_cert.specs.TreeSizes.{HaveFewNodes};
ghost use Rattle.crn_vec.specs.declared.limits.TheConstants.{MAX_BUDGET};
ghost use Rattle.crn_io.specs.Push.{PushGives};
ghost use Rattle.crn_ctext.specs.Documents.{document, document2, Share as Said, FitsShare};
ghost use Rattle.crn_ctext.specs.Linked.{records_of};
ghost use Rattle.crn_ctext.specs.Inner.Written.{counter_seen};

use crate::write::{write_document, write_document2};
use crn_cert::{Answers, Share};
use crn_io::{Push, Sink};
use crn_net::Network;

// A sink that counts the bytes that it takes, and keeps none of them.
#[derive(Drop)]
struct Counter {
    count: u64,
    faults: u64,
    ghost counted: { count < 2 ^ 64 },
    ghost failed: { faults < 2 ^ 64 },
}

impl Sink for Counter {
    ghost seen = { λ s. counter_seen s.count s.faults };

    fn push(&mut self, piece: &[u8]) -> Push {
        match self.count.checked_add(piece.len() as u64) {
            Some(count) => {
                self.count = count;
                Push::Took(piece.len())
            }
            None => {
                self.faults = self.faults.saturating_add(1);
                Push::Failed
            }
        }
    }
}

/// The number of bytes of the document in version 1. Takes no memory.
pub fn document_length(net: &Network, answers: &Answers) -> u64
    requires formed { AreFormed net.now [] built answers.now }
    requires few { HaveFewNodes MAX_BUDGET answers.now }
    ensures { result ≡ length (document net.now (records_of net.now answers.now)) }
{
    // It is called for what it says of the network: no network is larger than its limits.
    let _species = net.species();
    let mut counter = Counter {
        count: 0,
        faults: 0,
    };
    let _ = write_document(net, answers, &mut counter);
    counter.count
}

/// The number of bytes of the document in version 2 with this share. Takes no memory.
pub fn document2_length(net: &Network, answers: &Answers, share: &Share) -> u64
    requires formed { AreFormed net.now [] built answers.now }
    requires few { HaveFewNodes MAX_BUDGET answers.now }
    requires fits { let said : Said = record { table = share.now.table; leaf = share.now.leaf.list }
        in FitsShare (records_of net.now answers.now) said }
    ensures { let said : Said = record { table = share.now.table; leaf = share.now.leaf.list } in
        result ≡ length (document2 built net.now (records_of net.now answers.now) said) }
{
    // As above.
    let _species = net.species();
    let mut counter = Counter {
        count: 0,
        faults: 0,
    };
    let _ = write_document2(net, answers, share, &mut counter);
    counter.count
}
