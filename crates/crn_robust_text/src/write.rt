ghost use Rattle.std.specs.Prelude.{[], codes};
ghost use Rattle.std.specs.List.{flat_map};
ghost use Rattle.crn_cert.specs.Formed.{AreFormed};
ghost use Rattle.crn_io.specs.Write.{Wrote};
ghost use Rattle.crn_ctext.specs.Answers.{all_records};
ghost use Rattle.crn_ctext.specs.Documents.{record_lines};
ghost use Rattle.crn_ctext.specs.Meaning.{meaning};
ghost use Rattle.crn_ctext.specs.Parts.{part_document};
ghost use Rattle.crn_robust_text.specs.Document.{blocks_of, case_records, records, rests_on, said_of};

use crn_cert::Answers;
use crn_ctext::{put_alone, put_part_opening, put_small};
use crn_io::{Sink, WriteFault, put_all};
use crn_net::Network;
use crn_robust::Robust;

// The blocks of questions 1, 2 and 5.
fn put_blocks<K: Sink>(net: &Network, sink: &mut K, answers: &Answers) -> Result<(), WriteFault>
    requires { AreFormed net.now [] rests_on (blocks_of answers.now) }
    ensures { let three = blocks_of answers.now in
        let blocks = all_records meaning rests_on (meaning.start net.now) three in
        Wrote (record_lines (flat_map (λ rs. rs) blocks))
        (K.seen sink.old) (K.seen sink.new) result }
{
    let _ = net;
    put_alone(sink, 1, answers.get(1))?;
    put_alone(sink, 2, answers.get(2))?;
    put_alone(sink, 5, answers.get(5))
}

// The lines below the blocks.
fn put_case<K: Sink>(sink: &mut K, robust: &Robust) -> Result<(), WriteFault>
    ensures { Wrote (record_lines (case_records robust.now))
        (K.seen sink.old) (K.seen sink.new) result }
{
    match robust {
        Robust::Yes {
            species,
            first,
            second,
        } => {
            put_small(sink, b"line", &[1])?;
            put_small(sink, b"yes", &[*species, *first, *second])
        }
        Robust::Number(deficiency) => {
            put_small(sink, b"line", &[0])?;
            put_small(sink, b"number", &[*deficiency])
        }
        Robust::None => {
            put_small(sink, b"line", &[1])?;
            put_small(sink, b"none", &[])
        }
        Robust::Rests => put_small(sink, b"rests", &[]),
    }
}

/// Writes the document of a network and of an answer on robustness, of whose blocks it reads those of questions 1, 2 and
/// 5. Takes no memory.
pub fn write_robust<K: Sink>(
    net: &Network,
    blocks: &Answers,
    answer: &Robust,
    sink: &mut K,
) -> Result<(), WriteFault>
    requires { AreFormed net.now [] rests_on (blocks_of blocks.now) }
    ensures { let said = said_of net.now (blocks_of blocks.now) answer.now in
        Wrote (part_document (codes "robust") net.now (records said))
        (K.seen sink.old) (K.seen sink.new) result }
{
    put_part_opening(sink, b"robust", net)?;
    put_blocks(net, sink, blocks)?;
    put_case(sink, answer)?;
    put_all(sink, b"end\n")
}
