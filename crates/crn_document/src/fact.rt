ghost use Rattle.std.specs.Prelude.{◌≡◌, ◌≤◌, [], List, map, IfOk, OnOk};
ghost use Rattle.crn_ctext.specs.Records.{Record};
ghost use Rattle.crn_ctext.specs.Blocks.{asks_block};
ghost use Rattle.crn_ctext.specs.Meaning.{meaning};
ghost use Rattle.crn_check.specs.Facts.{AreFactsOf, asked};
ghost use Rattle.crn_check.specs.Check.{IsBuilt};
ghost use Rattle.crn_reading.specs.Steps.{GoesOn, StepIs};
ghost use Rattle.crn_document.specs.Facts.{IsAfterFacts, IsKnownFor, after_facts, with_next};

use crate::block::{Checked, next_block};
use crn_cert::Rows;
use crn_check::Facts;
use crn_ctree::SharedTable;
use crn_io::Source;
use crn_net::Network;
use crn_reading::{CheckStop, Reading};

/// The block of a question before the eleventh, whose verdict becomes one of the facts.
///
/// The document names no shared list and has no trees there.
pub fn next_fact<S: Source>(
    source: &mut S,
    at: &mut Reading,
    net: &Network,
    facts: Facts,
    question: u32,
) -> Result<Facts, CheckStop>
    requires goes { GoesOn at.old }
    requires built { IsBuilt question }
    requires early { question ≤ 10 }
    requires known { IsKnownFor net.now question facts }
    ensures step { (blocks : List (List Record)) →
        StepIs (asks_block meaning at.old.version [] (asked question)
        (after_facts net.now facts.earlier at.old.line blocks))
        (λ made y. IsAfterFacts net.now made.earlier at.new.line y)
        result at.old at.new (S.seen source.old) (S.seen source.new) }
    ensures goes { OnOk result (GoesOn at.new) }
    ensures version { at.new.version ≡ at.old.version }
    ensures facts { IfOk result (AreFactsOf net.now) }
    ensures questions { IfOk result (λ made. map (λ e. e.0) made.earlier
        ≡ with_next facts.earlier question) }
{
    let table = SharedTable::new(at.alloc)?;
    let mut checked = Checked {
        facts,
        sides: Rows::new(at.alloc)?,
        by_tree: false,
    };
    next_block(source, at, net, &table, &mut checked, question, false)?;
    Ok(checked.facts)
}
