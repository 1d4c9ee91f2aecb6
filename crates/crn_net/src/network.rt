ghost use Rattle.std.specs.Prelude.{◌≡◌, ◌<◌, ◌≤◌, length, map, take, [], slice_index_or};
ghost use Rattle.std.specs.List.{AllByRecursion};
ghost use Rattle.crn_vec.specs.Network.{Net, IsNetwork, IsName, IsAmount};
ghost use Rattle.crn_vec.specs.Vectors.{AreWithin};
ghost use Rattle.crn_vec.specs.Network.{reaction_vector};
ghost use Rattle.crn_net.specs.Views.{net_of, vectors_of};

use crate::name::Names;
use crate::row::Row;
use crn_vec::{MAX_AMOUNT, MAX_COMPLEXES, MAX_NAME, MAX_REACTIONS, MAX_SPECIES};
use std::marker::Model;

/// A reaction network. Species, complexes and reactions are counted from 0.
#[derive(Drop)]
pub struct Network {
    names: Names,
    rows: Vec<Row>,
    reactions: Vec<(usize, usize)>,
    differences: Vec<Row>,
}

impl Model for Network {
    ghost use Rattle.std.specs.Prelude.{◌≡◌, length, map};
    ghost use Rattle.crn_vec.specs.Network.{Net, IsNetwork};
    ghost use Rattle.crn_net.specs.Views.{net_of, vectors_of};
    ghost use Rattle.crn_vec.specs.Network.{reaction_vector};

    ghost Value = { Net };

    ghost view = { λ n. net_of n.names.keys n.rows.items n.reactions.items };

    ghost invariant = { λ n.
        let net = net_of n.names.keys n.rows.items n.reactions.items in
        let vectors = vectors_of (length n.names.keys) n.differences.items in
        IsNetwork net × (vectors ≡ map (reaction_vector net) n.reactions.items) };
}

impl Network {
    // The network that these tables hold, with the vectors of its reactions.
    pub(crate) fn new(
        names: Names,
        rows: Vec<Row>,
        reactions: Vec<(usize, usize)>,
        differences: Vec<Row>,
    ) -> Network
        requires network { IsNetwork (net_of names.keys rows.items reactions.items) }
        requires vectors { let net = net_of names.keys rows.items reactions.items in
            let vectors = vectors_of (length names.keys) differences.items in
            vectors ≡ map (reaction_vector net) reactions.items }
        ensures { result ≡ net_of names.keys rows.items reactions.items }
    {
        Network {
            names,
            rows,
            reactions,
            differences,
        }
    }

    /// A network meets its definition. It is called for what it says, and costs nothing.
    pub fn meets_definition(&self)
        ensures { IsNetwork self.now }
    {
        let _ = self.species();
    }

    /// The number of species.
    pub fn species(&self) -> usize
        ensures count { result ≡ length self.now.names }
        ensures limit { result ≤ MAX_SPECIES }
        ensures network { IsNetwork self.now }
    {
        self.names.len()
    }

    /// The number of complexes.
    pub fn complexes(&self) -> usize
        ensures count { result ≡ length self.now.complexes }
        ensures limit { result ≤ MAX_COMPLEXES }
    {
        self.rows.len()
    }

    /// The number of reactions.
    pub fn reactions(&self) -> usize
        ensures count { result ≡ length self.now.reactions }
        ensures limit { result ≤ MAX_REACTIONS }
        ensures some { 1 ≤ result }
    {
        self.reactions.len()
    }

    /// The name of a species.
    pub fn name(&self, s: usize) -> &[u8]
        requires { s < length self.now.names }
        ensures value { result.now ≡ slice_index_or self.now.names s [] }
        ensures name { IsName result.now }
    {
        self.names.as_slice()[s].as_slice()
    }

    /// As many bytes as the longest name has, of which the first are the name of a species, and how many are the name's.
    /// What comes after the name has no meaning: it is there since a block of one length is copied faster than a name.
    pub fn padded_name(&self, s: usize) -> (&[u8], usize)
        requires { s < length self.now.names }
        ensures name { take result.1 result.0.now ≡ slice_index_or self.now.names s [] }
        ensures long { length result.0.now ≡ MAX_NAME }
        ensures size { result.1 ≤ MAX_NAME }
    {
        self.names.as_slice()[s].block()
    }

    /// The amounts of a complex, one for each species.
    pub fn vector(&self, c: usize) -> &[i128]
        requires { c < length self.now.complexes }
        ensures value { result.now ≡ slice_index_or self.now.complexes c [] }
        ensures width { length result.now ≡ length self.now.names }
        ensures amounts { AllByRecursion IsAmount result.now }
    {
        let (used, _) = self.rows[c].split_at(self.names.len());
        used
    }

    /// The complex that a reaction goes from.
    pub fn reactant(&self, r: usize) -> usize
        requires { r < length self.now.reactions }
        ensures value { result ≡ (slice_index_or self.now.reactions r (0, 0)).0 }
        ensures complex { result < length self.now.complexes }
    {
        self.reactions[r].0
    }

    /// The complex that a reaction goes to, which is not its reactant.
    pub fn product(&self, r: usize) -> usize
        requires { r < length self.now.reactions }
        ensures value { result ≡ (slice_index_or self.now.reactions r (0, 0)).1 }
        ensures complex { result < length self.now.complexes }
        ensures other { result ≡ (slice_index_or self.now.reactions r (0, 0)).0 → ⊥ }
    {
        self.reactions[r].1
    }

    /// The vector of a reaction: product minus reactant, one number for each species.
    pub fn reaction_vector(&self, r: usize) -> &[i128]
        requires { r < length self.now.reactions }
        ensures value { result.now
            ≡ reaction_vector self.now (slice_index_or self.now.reactions r (0, 0)) }
        ensures width { length result.now ≡ length self.now.names }
        ensures small { AreWithin MAX_AMOUNT result.now }
    {
        let (used, _) = self.differences[r].split_at(self.names.len());
        used
    }
}
