ghost use Rattle.std.specs.Prelude.{◌≡◌, ◌≤◌, ◌+◌, ◌++◌, length, drop, vec_len, vec_capacity};
ghost use Rattle.crn_io.specs.Lines.{IsLine};
ghost use Rattle.crn_io.specs.Inner.Gather.{EndsAt, GatherGives};

use crate::device::{Pull, Source};
use crate::lines::MAX_AHEAD;

// Why gathering stopped: at the first LF, with enough bytes, at the source's end, or at a fault.
#[derive(Clone, Copy)]
pub(crate) enum Gathered {
    Ended(usize),
    Enough,
    Nothing,
    Failed,
}

// The place of the first LF.
fn line_end(bytes: &[u8]) -> Option<usize>
    ensures { EndsAt bytes.now result }
{
    memchr::memchr(b'\n', bytes)
}

// Adds bytes for which there is room.
fn hold(held: &mut Vec<u8>, bytes: &[u8])
    requires { vec_len held.old + length bytes.now ≤ vec_capacity held.old }
    ensures items { held.new.items ≡ held.old.items ++ bytes.now }
    ensures capacity { vec_capacity held.old ≤ vec_capacity held.new }
{
    match held.extend_from_slice(bytes) {
        Ok(()) => {}
        Err(_) => unreachable!(),
    }
}

// Pulls until an LF is held, or `most` bytes are, or the source ends.
fn gather<S: Source>(source: &mut S, held: &mut Vec<u8>, piece: &mut [u8], most: usize) -> Gathered
    requires none_yet { IsLine held.old.items }
    requires ahead { vec_len held.old ≤ MAX_AHEAD }
    requires some { 1 ≤ most }
    requires piece { length piece.old ≡ MAX_AHEAD }
    requires room { most + MAX_AHEAD ≤ vec_capacity held.old }
    ensures capacity { vec_capacity held.old ≤ vec_capacity held.new }
    ensures gives { GatherGives result held.old.items held.new.items most
        (S.seen source.old) (S.seen source.new) }
{
    'pulls: while held.len() < most {
        match source.pull(piece) {
            Pull::Got(count) => {
                let (prefix, _) = piece.split_at(count);
                let at = held.len();
                hold(held, prefix);
                if let Some(i) = line_end(prefix) {
                    return Gathered::Ended(at + i);
                }
            }
            Pull::End => return Gathered::Nothing,
            Pull::Failed => return Gathered::Failed,
        }
    }
    Gathered::Enough
}

// Drops the first `count` bytes.
fn drop_prefix(held: &mut Vec<u8>, count: usize)
    requires { count ≤ vec_len held.old }
    ensures items { held.new.items ≡ drop count held.old.items }
    ensures len { vec_len held.new + count ≡ vec_len held.old }
    ensures capacity { vec_capacity held.new ≡ vec_capacity held.old }
{
    let rest = held.len() - count;
    held.copy_within(count.., 0);
    held.truncate(rest);
}

// Seeks the LF of the line that begins at `from`. What comes before it is dropped only if a pull is needed.
pub(crate) fn seek<S: Source>(
    source: &mut S,
    held: &mut Vec<u8>,
    from: &mut usize,
    piece: &mut [u8],
    most: usize,
) -> Gathered
    requires from { from.old ≤ vec_len held.old }
    requires ahead { vec_len held.old ≤ from.old + MAX_AHEAD }
    requires some { 1 ≤ most }
    requires piece { length piece.old ≡ MAX_AHEAD }
    requires room { most + MAX_AHEAD ≤ vec_capacity held.old }
    ensures from { from.new ≤ vec_len held.new }
    ensures capacity { vec_capacity held.old ≤ vec_capacity held.new }
    ensures gives { GatherGives result (drop from.old held.old.items) (drop from.new held.new.items)
        most (S.seen source.old) (S.seen source.new) }
{
    let (_, ahead) = held.split_at(*from);
    if let Some(i) = line_end(ahead) {
        return Gathered::Ended(i);
    }
    drop_prefix(held, *from);
    *from = 0;
    gather(source, held, piece, most)
}
