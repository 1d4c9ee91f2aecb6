ghost use Rattle.std.specs.Prelude.{◌≡◌, ◌<◌, ◌+◌, ◌==◌, length, slice_index, slice_index_or};
ghost use Rattle.crn_check.specs.Inner.Bases.{AreLabelled, is_member, members_of};

use crn_net::Network;

// The reactions whose rank is shown.
#[derive(Clone, Copy, Drop)]
pub(crate) enum Members<'a> {
    // all reactions
    All,
    // those of a linkage class, counted from 1
    OfClass { labels: &'a [u32], class: usize },
}

// Whether a reaction, counted from 0, is one of a class, by the labels of the complexes.
fn is_of_class(net: &Network, labels: &[u32], class: usize, r: usize) -> bool
    requires labelled { length labels.now ≡ length net.now.complexes }
    requires inside { r < length net.now.reactions }
    ensures { result
        ≡ (slice_index labels.now (slice_index_or net.now.reactions r (0, 0)).0 == class) }
{
    labels[net.reactant(r)] as usize == class
}

impl<'a> Members<'a> {
    // Whether a reaction, counted from 0, is a member.
    pub(crate) fn has(&self, net: &Network, r: usize) -> bool
        requires labelled { AreLabelled net.now self.now }
        requires inside { r < length net.now.reactions }
        ensures { result ≡ is_member net.now self.now (r + 1) }
    {
        match self {
            Members::All => true,
            Members::OfClass { labels, class } => is_of_class(net, labels, *class, r),
        }
    }

    // The number of members.
    pub(crate) fn count(&self, net: &Network) -> usize
        requires labelled { AreLabelled net.now self.now }
        ensures { result ≡ length (members_of net.now self.now) }
    {
        let mut count = 0;
        for r in 0..net.reactions() {
            if self.has(net, r) {
                count += 1;
            }
        }
        count
    }
}
