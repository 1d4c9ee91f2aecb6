ghost use Rattle.std.specs.Prelude.{◌≡◌, ◌∷◌, [], ◌++◌, pos, map};
ghost use Rattle.crn_io.specs.Write.{Wrote};
ghost use Rattle.crn_ctext.specs.Answers.{verdict_records, later_records, rank_records, side_records, proof_records};
ghost use Rattle.crn_ctext.specs.Documents.{record_lines};
ghost use Rattle.std.specs.List.{flat_map};
ghost use Rattle.crn_ctext.specs.Records.{numbers_text};
ghost use Rattle.crn_ctext.specs.Inner.Written.{shapes_with, pair_at, strong_records};

use crate::write_record::{put_free, put_ints, put_num, put_one, put_rows, put_small};
use crn_cert::{Proof, RankList, RankProof, Rows, Verdict};
use crn_io::{Sink, WriteFault, put_all};

// The records of a verdict that come before those of its proof.
pub(crate) fn put_verdict<K: Sink>(sink: &mut K, verdict: &Verdict) -> Result<(), WriteFault>
    ensures { Wrote (record_lines (verdict_records verdict.now))
        (K.seen sink.old) (K.seen sink.new) result }
{
    match verdict {
        Verdict::Classes { label, .. } => put_small(sink, b"label", label.as_slice()),
        Verdict::Strong { label, .. } => put_small(sink, b"label", label.as_slice()),
        Verdict::YesVec { vector } => put_free(sink, b"vec", vector.as_slice()),
        Verdict::YesSignal {
            shelves,
            mu,
            m,
            weights,
            ..
        } => {
            put_free(sink, b"shelves", shelves.as_slice())?;
            put_free(sink, b"mu", mu.as_slice())?;
            put_one(sink, b"m", m)?;
            put_free(sink, b"weights", weights.as_slice())
        }
        Verdict::NoVec { multipliers } => put_free(sink, b"cut", multipliers.as_slice()),
        Verdict::NoCycle { walk, .. } => put_small(sink, b"walk", walk.as_slice()),
        Verdict::NoPair { alpha, weights } => {
            put_free(sink, b"alpha", alpha.as_slice())?;
            put_free(sink, b"weights", weights.as_slice())
        }
        Verdict::Plane { one, two, .. } => {
            put_free(sink, b"vec", one.as_slice())?;
            put_free(sink, b"vec", two.as_slice())
        }
        _ => Ok(()),
    }
}

// The records of a verdict that come after those of its proof.
pub(crate) fn put_exits<K: Sink>(sink: &mut K, verdict: &Verdict) -> Result<(), WriteFault>
    ensures { Wrote (record_lines (later_records verdict.now))
        (K.seen sink.old) (K.seen sink.new) result }
{
    match verdict {
        Verdict::Strong { exit, .. } => put_small(sink, b"exit", exit.as_slice()),
        _ => Ok(()),
    }
}

/// The records of a rank.
pub fn put_rank<K: Sink>(sink: &mut K, proof: &RankProof) -> Result<(), WriteFault>
    ensures { Wrote (record_lines (rank_records proof.now))
        (K.seen sink.old) (K.seen sink.new) result }
{
    put_small(sink, b"base", proof.base.as_slice())?;
    put_rows(sink, b"dual", &proof.duals)?;
    put_rows(sink, b"comb", &proof.combs)
}

// The records of ranks in order.
fn put_ranks<K: Sink>(sink: &mut K, list: &RankList) -> Result<(), WriteFault>
    ensures { Wrote (record_lines (flat_map rank_records list.now))
        (K.seen sink.old) (K.seen sink.new) result }
{
    for i in 0..list.len() {
        put_rank(sink, list.row(i))?;
    }
    Ok(())
}

// The least reaction of pair i, counted from 0, if there is one.
fn put_pair<K: Sink>(sink: &mut K, pairs: &[u32], i: usize) -> Result<(), WriteFault>
    ensures { Wrote (numbers_text (map pos (pair_at pairs.now i)))
        (K.seen sink.old) (K.seen sink.new) result }
{
    match pairs.get(i) {
        Some(reaction) => put_num(sink, *reaction),
        None => Ok(()),
    }
}

// The marks of a side, after the least reaction of its pair.
fn put_side<K: Sink>(
    sink: &mut K,
    pairs: &[u32],
    i: usize,
    marks: &[i128],
) -> Result<(), WriteFault>
    ensures { Wrote (record_lines (side_records (pair_at pairs.now i) (marks.now ∷ [])))
        (K.seen sink.old) (K.seen sink.new) result }
{
    put_all(sink, b"side")?;
    put_pair(sink, pairs, i)?;
    put_ints(sink, marks)?;
    put_all(sink, b"\n")
}

// The sides of pairs in order.
fn put_sides<K: Sink>(sink: &mut K, pairs: &[u32], rows: &Rows) -> Result<(), WriteFault>
    ensures { Wrote (record_lines (side_records pairs.now rows.now))
        (K.seen sink.old) (K.seen sink.new) result }
{
    for i in 0..rows.len() {
        put_side(sink, pairs, i, rows.row(i))?;
    }
    Ok(())
}

// The records of the trees that show strong classes.
fn put_strong<K: Sink>(
    sink: &mut K,
    from: &[u32],
    from_depth: &[u32],
    to: &[u32],
    to_depth: &[u32],
    level: &[u32],
) -> Result<(), WriteFault>
    ensures { let rs = strong_records from.now from_depth.now to.now to_depth.now level.now in
        Wrote (record_lines rs) (K.seen sink.old) (K.seen sink.new) result }
{
    put_small(sink, b"from", from)?;
    put_small(sink, b"fromdepth", from_depth)?;
    put_small(sink, b"to", to)?;
    put_small(sink, b"todepth", to_depth)?;
    put_small(sink, b"level", level)
}

// The records of a proof, but for its trees. `pairs` has the least reactions of the pairs whose sides it may hold.
pub(crate) fn put_proof<K: Sink>(
    sink: &mut K,
    pairs: &[u32],
    proof: &Proof,
) -> Result<(), WriteFault>
    ensures { Wrote (record_lines (proof_records (shapes_with pairs.now) proof.now))
        (K.seen sink.old) (K.seen sink.new) result }
{
    match proof {
        Proof::Forest { up, depth } => {
            put_small(sink, b"up", up.as_slice())?;
            put_small(sink, b"depth", depth.as_slice())
        }
        Proof::Strong {
            from,
            from_depth,
            to,
            to_depth,
            level,
        } => put_strong(
            sink,
            from.as_slice(),
            from_depth.as_slice(),
            to.as_slice(),
            to_depth.as_slice(),
            level.as_slice(),
        ),
        Proof::Back(back) => put_small(sink, b"back", back.as_slice()),
        Proof::Rank(rank) => put_rank(sink, rank),
        Proof::Ranks(list) => put_ranks(sink, list),
        Proof::Sides(rows) => put_sides(sink, pairs, rows),
        Proof::Ties(rows) => put_rows(sink, b"tie", rows),
        Proof::Nothing | Proof::One(_) | Proof::Two(_, _) => Ok(()),
    }
}
