ghost use Rattle.std.specs.Prelude.{◌≡◌, ◌<◌, ◌≤◌, ◌↔◌, IsTrue, length, slice_index_or};
ghost use Rattle.crn_vec.specs.Network.{Net};
ghost use Rattle.crn_text.specs.Canonical.{complex_text, reaction_line, canonical};
ghost use Rattle.crn_text.specs.Inner.Found.{Follows, IsKnown, AreFound};

use crate::side_text::SideText;
use crn_net::Network;
use crn_vec::MAX_COMPLEXES;

// A part of a text.
#[derive(Clone, Copy)]
pub(crate) struct Piece<'a> {
    pub(crate) bytes: &'a [u8],
}

// The text of each complex that was met, where it was met first: most are in several lines.
#[derive(Drop)]
struct Found<'a> {
    pub(crate) pieces: [Option<Piece<'a>>; MAX_COMPLEXES],
}

impl<'a> Found<'a> {
    fn new() -> Found<'a>
        ensures { (net : Net) → AreFound net 0 result.pieces }
    {
        Found {
            pieces: [None; MAX_COMPLEXES],
        }
    }

    // The text of complex c, if it was met.
    fn known(&self, c: usize) -> Option<&'a [u8]>
        requires { c < MAX_COMPLEXES }
        ensures { (net : Net) → AreFound net 0 self.now.pieces → IsKnown net c result }
    {
        match &self.pieces[c] {
            Some(piece) => Some(piece.bytes),
            None => None,
        }
    }

    // The part of a text after complex c, if the text begins with it.
    fn after_side(
        &mut self,
        buffer: &mut SideText,
        net: &Network,
        c: usize,
        text: &'a [u8],
    ) -> Option<&'a [u8]>
        requires complex { c < length net.now.complexes }
        requires few { length net.now.complexes ≤ MAX_COMPLEXES }
        requires found { AreFound net.now 0 self.old.pieces }
        ensures follows { Follows (complex_text net.now c) text.now result }
        ensures found { AreFound net.now 0 self.new.pieces }
    {
        if let Some(known) = self.known(c) {
            return text.strip_prefix(known);
        }
        buffer.set(net, c);
        let rest = text.strip_prefix(buffer.as_slice())?;
        let (bytes, _) = text.split_at(text.len() - rest.len());
        self.pieces[c] = Some(Piece { bytes });
        Some(rest)
    }

    // The part of a text after the line of reaction r, if the text begins with it.
    fn after_line(
        &mut self,
        buffer: &mut SideText,
        net: &Network,
        r: usize,
        text: &'a [u8],
    ) -> Option<&'a [u8]>
        requires reaction { r < length net.now.reactions }
        requires few { length net.now.complexes ≤ MAX_COMPLEXES }
        requires found { AreFound net.now 0 self.old.pieces }
        ensures follows { let line = reaction_line net.now
            (slice_index_or net.now.reactions r (0, 0)) in
            Follows line text.now result }
        ensures found { AreFound net.now 0 self.new.pieces }
    {
        let arrow = self.after_side(buffer, net, net.reactant(r), text)?;
        let product = arrow.strip_prefix(b" -> ")?;
        let end = self.after_side(buffer, net, net.product(r), product)?;
        end.strip_prefix(b"\n")
    }
}

/// Whether this is the canonical text of the network. Takes no memory.
pub fn is_canonical(net: &Network, text: &[u8]) -> bool
    ensures { IsTrue result ↔ (canonical net.now ≡ text.now) }
{
    // It is called for what it says of the network: no network is larger than its limits.
    let _complexes = net.complexes();
    let mut buffer = SideText::new();
    let mut found = Found::new();
    let mut left = text;
    for r in 0..net.reactions() {
        match found.after_line(&mut buffer, net, r, left) {
            Some(rest) => left = rest,
            None => return false,
        }
    }
    left.is_empty()
}
