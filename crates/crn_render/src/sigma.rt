ghost use Rattle.std.specs.Prelude.{◌≡◌, ◌<◌, ◌^◌, length, unsigned_abs};
ghost use Rattle.crn_cert.specs.Ranges.{AreFree};
ghost use Rattle.crn_io.specs.Write.{Wrote};
ghost use Rattle.crn_vec.specs.Vectors.{dot, column};
ghost use Rattle.crn_vec.specs.Deficiency.{vectors};
ghost use Rattle.crn_render.specs.Details.{titled_line, vector_text, sigma};

use crate::parts::{put_entry, put_title};
use crn_io::{Sink, WriteFault, put_all};
use crn_net::Network;
use crn_vec::times;

// The entry at species s of the sum of the reaction vectors with these weights.
fn sum_at(net: &Network, weights: &[i128], s: usize) -> i128
    requires weights { AreFree (length net.now.reactions) weights.now }
    requires species { s < length net.now.names }
    ensures value { result ≡ dot (column (vectors net.now) s) weights.now }
    ensures small { unsigned_abs result < 2 ^ 127 }
{
    let mut sum = 0i128;
    for r in 0..net.reactions() {
        sum += times(&weights[r], &net.reaction_vector(r)[s]);
    }
    sum
}

// The sum of the reaction vectors with these weights.
fn put_sigma<K: Sink>(sink: &mut K, net: &Network, weights: &[i128]) -> Result<(), WriteFault>
    requires { AreFree (length net.now.reactions) weights.now }
    ensures { Wrote (vector_text (sigma net.now weights.now))
        (K.seen sink.old) (K.seen sink.new) result }
{
    for s in 0..net.species() {
        put_entry(sink, s, &sum_at(net, weights, s))?;
    }
    Ok(())
}

// The line of that sum, after its title.
pub(crate) fn put_sigma_line<K: Sink>(
    sink: &mut K,
    title: &[u8],
    net: &Network,
    weights: &[i128],
) -> Result<(), WriteFault>
    requires { AreFree (length net.now.reactions) weights.now }
    ensures { Wrote (titled_line title.now (vector_text (sigma net.now weights.now)))
        (K.seen sink.old) (K.seen sink.new) result }
{
    put_title(sink, title)?;
    put_sigma(sink, net, weights)?;
    put_all(sink, b"\n")
}
