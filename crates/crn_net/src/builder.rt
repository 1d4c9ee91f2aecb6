ghost use Rattle.std.specs.Prelude.{◌≡◌, IfOk};
ghost use Rattle.crn_net.specs.Terms.{statement_of, IsSide};
ghost use Rattle.crn_net.specs.Grows.{no_net, AddGives, FinishGives};

use crate::fault::NetFault;
use crate::guesses::TableGuesses;
use crate::name::Names;
use crate::network::Network;
use crate::reactions::Reactions;
use crate::row::Complexes;
use crate::tables::{build, differences, full_rows};
use crate::term::Term;
use crn_vec::{MAX_COMPLEXES, MAX_SPECIES, NoMemory};
use indexmap::IndexSet;
use std::alloc::Global;
use std::marker::Model;
use std::mem::drop;

/// Collects the reactions of a network. Contracts see it as the network built so far.
#[derive(Drop)]
pub struct NetBuilder {
    names: Names,
    rows: Complexes,
    reactions: Reactions,
    guesses: TableGuesses,
}

impl Model for NetBuilder {
    ghost use Rattle.std.specs.Prelude.{length};
    ghost use Rattle.crn_vec.specs.Network.{Net, IsPartialNetwork};
    ghost use Rattle.crn_net.specs.Views.{net_of, AreRows};

    ghost Value = { Net };

    ghost view = { λ b. net_of b.names.keys b.rows.keys b.reactions };

    ghost invariant = { λ b.
        let net = net_of b.names.keys b.rows.keys b.reactions in
        IsPartialNetwork net × AreRows (length b.names.keys) b.rows.keys };
}

impl NetBuilder {
    /// A builder without reactions. It takes the memory for the largest network at once.
    pub fn new(alloc: Global) -> Result<NetBuilder, NoMemory>
        ensures { IfOk result (λ made. made ≡ no_net) }
    {
        let reactions = Reactions::new(alloc)?;
        let rows: Complexes = IndexSet::with_capacity(alloc, MAX_COMPLEXES)?;
        Ok(NetBuilder {
            // A name above the limit is inserted first, and removed again.
            names: IndexSet::with_capacity(alloc, MAX_SPECIES + 1)?,
            rows,
            reactions,
            guesses: TableGuesses::new(),
        })
    }

    /// Adds the reaction from the complex of one side to that of the other. An empty side is the zero complex.
    ///
    /// New species and complexes are numbered from left to right. A reaction that is already there is not added again.
    /// After an error the builder is as before.
    pub fn add(&mut self, text: &[u8], left: &[Term], right: &[Term]) -> Result<(), NetFault>
        requires left { IsSide text.now left.now }
        requires right { IsSide text.now right.now }
        ensures { AddGives self.old (statement_of text.now left.now right.now) result self.new }
    {
        let species = self.names.len();
        let complexes = self.rows.len();
        let added = build(
            &mut self.names,
            &mut self.rows,
            &mut self.reactions,
            &mut self.guesses,
            text,
            left,
            right,
        );
        if added.is_err() {
            self.names.truncate(species);
            self.rows.truncate(complexes);
        }
        added
    }

    /// The network of the reactions that were added.
    pub fn finish(self) -> Result<Network, NetFault>
        ensures { FinishGives self result }
    {
        if self.reactions.as_slice().is_empty() {
            drop(self);
            return Err(NetFault::NoReaction);
        }
        let alloc = self.reactions.allocator();
        let species = self.names.len();
        let Ok(rows) = full_rows(alloc, self.rows.as_slice(), species) else {
            drop(self);
            return Err(NetFault::NoMemory);
        };
        let Ok(differences) = differences(alloc, &rows, self.reactions.as_slice(), species) else {
            drop(self);
            return Err(NetFault::NoMemory);
        };
        let NetBuilder {
            names,
            rows: narrow,
            reactions,
            ..
        } = self;
        drop(narrow);
        Ok(Network::new(names, rows, reactions.into_list(), differences))
    }
}
