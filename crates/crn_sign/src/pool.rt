ghost use Rattle.std.specs.Prelude.{◌≡◌, length, IfOk, OnOk};
ghost use Rattle.std.specs.List.{AllByRecursion};
ghost use Rattle.crn_sign.specs.Inner.Marks.{AreRowMarks};
ghost use Rattle.crn_sign.specs.Inner.Pools.{IsPool};

use crate::bits::{Bits, push_places};
use crn_vec::{Matrix, NoMemory, Sign};
use std::alloc::Global;

/// The most vectors that a pool keeps.
const MAX_KEPT: usize = 8192;

/// The most vectors that a pool keeps for one sign of a coordinate.
const MAX_SERVERS: usize = 512;

// No vector has this many words.
const MAX_WORDS: usize = 1024;

/// The marks of a vector (x, Ax).
#[derive(Drop)]
pub(crate) struct Ray {
    pub marks: Vec<Bits>,
}

/// The numbers of the vectors that are positive at a coordinate, and of those that are negative there.
#[derive(Drop)]
pub(crate) struct Servers {
    pub plus: Vec<u32>,
    pub minus: Vec<u32>,
}

/// Vectors (x, Ax) that were found, with their negatives, and lists of those that are positive or
/// negative at a coordinate. The lists decide only what is tried, and in which order.
#[derive(Drop)]
pub(crate) struct Pool {
    pub rays: Vec<Ray>,
    pub servers: Vec<Servers>,
    pub places: Vec<usize>,
    pub oldest: usize,
}

// Whether numbers of these signs may not be taken if this is required.
fn is_refused(asked: Bits, bits: Bits) -> bool {
    ((bits.plus & asked.minus) | (bits.minus & asked.plus)) != 0
}

// Whether the vector may be taken everywhere.
fn serves(asked: &[Bits], marks: &[Bits]) -> bool {
    if asked.len() != marks.len() {
        return false;
    }
    for w in 0..asked.len() {
        if is_refused(asked[w], marks[w]) {
            return false;
        }
    }
    true
}

// Whether a vector has this sign at a coordinate.
fn has_sign(marks: &[Bits], g: usize, sign: Sign) -> bool {
    let w = g / 64;
    if w < marks.len() {
        let bits = match sign {
            Sign::Plus => marks[w].plus,
            _ => marks[w].minus,
        };
        return (bits >> (g % 64)) & 1 == 1;
    }
    false
}

// Whether a vector has this sign at g, and may be taken everywhere. The place of an older vector may
// hold another one by now, which does not have this sign at g.
fn takes(asked: &[Bits], rays: &[Ray], number: usize, g: usize, sign: Sign) -> bool {
    if number < rays.len() {
        let marks = &rays[number].marks;
        return serves(asked, marks) && has_sign(marks, g, sign);
    }
    false
}

// The place in a list of the first vector that serves, or the length of the list.
fn first_serving(asked: &[Bits], rays: &[Ray], servers: &[u32], g: usize, sign: Sign) -> usize {
    for i in 0..servers.len() {
        if takes(asked, rays, servers[i] as usize, g, sign) {
            return i;
        }
    }
    servers.len()
}

// Brings a vector forward in its list, and answers its number.
fn bring_forward(servers: &mut [u32], i: usize) -> Option<usize> {
    if i < servers.len() {
        let number = servers[i] as usize;
        servers.swap(i / 2, i);
        return Some(number);
    }
    None
}

// This many empty lists.
fn empty_lists(alloc: Global, count: usize) -> Result<Vec<Servers>, NoMemory> {
    let mut servers = Vec::with_capacity(alloc, count)?;
    for _ in 0..count {
        servers.push(Servers {
            plus: Vec::new(alloc),
            minus: Vec::new(alloc),
        })?;
    }
    Ok(servers)
}

// Enters a vector in a list, in the place of its last member if the list is full.
fn enter_one(servers: &mut Vec<u32>, number: u32) -> Result<(), NoMemory> {
    if servers.len() >= MAX_SERVERS {
        servers.pop();
    }
    servers.push(number)?;
    Ok(())
}

// Enters a vector in the lists of those that are positive at these coordinates.
fn enter_plus(servers: &mut [Servers], places: &[usize], number: u32) -> Result<(), NoMemory> {
    for i in 0..places.len() {
        let k = places[i];
        if k < servers.len() {
            enter_one(&mut servers[k].plus, number)?;
        }
    }
    Ok(())
}

// Enters a vector in the lists of those that are negative at these coordinates.
fn enter_minus(servers: &mut [Servers], places: &[usize], number: u32) -> Result<(), NoMemory> {
    for i in 0..places.len() {
        let k = places[i];
        if k < servers.len() {
            enter_one(&mut servers[k].minus, number)?;
        }
    }
    Ok(())
}

// Enters a vector in the list of each of its coordinates.
fn enter(
    servers: &mut [Servers],
    places: &mut Vec<usize>,
    marks: &[Bits],
    number: usize,
) -> Result<(), NoMemory> {
    if number >= MAX_KEPT {
        return Ok(());
    }
    for w in 0..marks.len() {
        if w < MAX_WORDS {
            places.clear();
            push_places(places, 64 * w, marks[w].plus)?;
            enter_plus(servers, places, number as u32)?;
            places.clear();
            push_places(places, 64 * w, marks[w].minus)?;
            enter_minus(servers, places, number as u32)?;
        }
    }
    Ok(())
}

impl Pool {
    /// A pool with no vectors, for this matrix.
    pub fn new(alloc: Global, matrix: &Matrix) -> Result<Pool, NoMemory>
        ensures { IfOk result (λ made. IsPool matrix.now made) }
    {
        Ok(Pool {
            rays: Vec::new(alloc),
            servers: empty_lists(alloc, matrix.cols() + matrix.rows())?,
            places: Vec::new(alloc),
            oldest: 0,
        })
    }

    /// The number of a vector that may be taken everywhere, and has this sign at g.
    pub fn find(&mut self, _matrix: &Matrix, asked: &[Bits], g: usize, sign: Sign) -> Option<usize>
        requires pool { IsPool _matrix.now self.old }
        ensures pool { IsPool _matrix.now self.new }
    {
        if g >= self.servers.len() {
            return None;
        }
        let list = match sign {
            Sign::Plus => &mut self.servers[g].plus,
            _ => &mut self.servers[g].minus,
        };
        let i = first_serving(asked, &self.rays, list, g, sign);
        bring_forward(list, i)
    }

    /// Keeps the marks of a vector, if there is room.
    pub fn keep(&mut self, alloc: Global, _matrix: &Matrix, marks: &[Bits]) -> Result<(), NoMemory>
        requires pool { IsPool _matrix.now self.old }
        requires marks { AreRowMarks _matrix.now marks.now }
        ensures { OnOk result (IsPool _matrix.now self.new) }
    {
        let ray = Ray {
            marks: Vec::from_slice(alloc, marks)?,
        };
        if self.rays.len() < MAX_KEPT {
            let number = self.rays.len();
            self.rays.push(ray)?;
            return enter(&mut self.servers, &mut self.places, marks, number);
        }
        let number = self.oldest;
        if number < self.rays.len() {
            self.rays[number] = ray;
            self.oldest = if number + 1 < MAX_KEPT { number + 1 } else { 0 };
            return enter(&mut self.servers, &mut self.places, marks, number);
        }
        self.oldest = 0;
        Ok(())
    }
}
