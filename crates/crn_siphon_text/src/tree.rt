ghost use Rattle.std.specs.Prelude.{◌≡◌, ◌≤◌, ◌<◌, ◌+◌, ◌++◌, ◌∷◌, [], ℕ, suc, length, vec_capacity, OnOk};
ghost use Rattle.crn_reading.specs.Steps.{GoesOn, StepIs};
ghost use Rattle.crn_siphon_text.specs.Document.{asks_tree};
ghost use Rattle.crn_siphon_text.specs.Inner.NodesRead.{asks_children};

use crate::lines::next_node;
use crate::node::test_leaf;
use crn_io::Source;
use crn_net::Network;
use crn_reading::{CheckStop, Reading};

// The tree of the prefix with one species more in or out.
#[cycle(tree)]
fn next_child<S: Source>(
    source: &mut S,
    at: &mut Reading,
    net: &Network,
    prefix: &mut Vec<bool>,
    is_in: bool,
) -> Result<(), CheckStop>
    requires goes { GoesOn at.old }
    requires inside { length prefix.old.items < length net.now.names }
    requires room { length net.now.names ≤ vec_capacity prefix.old }
    ensures step { (more : ℕ) → length prefix.old.items + suc more ≡ length net.now.names →
        StepIs (asks_tree net.now more (prefix.old.items ++ is_in ∷ []) at.old.line)
        (λ _ line. line ≡ at.new.line)
        result at.old at.new (S.seen source.old) (S.seen source.new) }
    ensures goes { OnOk result (GoesOn at.new) }
    ensures prefix { OnOk result (prefix.new.items ≡ prefix.old.items) }
    ensures room { OnOk result (length net.now.names ≤ vec_capacity prefix.new) }
{
    prefix.push_reserved(is_in);
    next_tree(source, at, net, prefix)?;
    prefix.pop();
    Ok(())
}

// The trees of both children of the prefix.
#[cycle(tree)]
fn next_children<S: Source>(
    source: &mut S,
    at: &mut Reading,
    net: &Network,
    prefix: &mut Vec<bool>,
) -> Result<(), CheckStop>
    requires goes { GoesOn at.old }
    requires inside { length prefix.old.items < length net.now.names }
    requires room { length net.now.names ≤ vec_capacity prefix.old }
    ensures step { (more : ℕ) → length prefix.old.items + suc more ≡ length net.now.names →
        StepIs (asks_children net.now more prefix.old.items at.old.line)
        (λ _ line. line ≡ at.new.line)
        result at.old at.new (S.seen source.old) (S.seen source.new) }
    ensures goes { OnOk result (GoesOn at.new) }
    ensures prefix { OnOk result (prefix.new.items ≡ prefix.old.items) }
    ensures room { OnOk result (length net.now.names ≤ vec_capacity prefix.new) }
{
    next_child(source, at, net, prefix, true)?;
    next_child(source, at, net, prefix, false)
}

/// The tree of the prefix, whose nodes are the next lines. Each is tested as soon as it is read, and none is kept.
#[cycle(tree)]
pub(crate) fn next_tree<S: Source>(
    source: &mut S,
    at: &mut Reading,
    net: &Network,
    prefix: &mut Vec<bool>,
) -> Result<(), CheckStop>
    requires goes { GoesOn at.old }
    requires inside { length prefix.old.items ≤ length net.now.names }
    requires room { length net.now.names ≤ vec_capacity prefix.old }
    ensures step { (more : ℕ) → length prefix.old.items + more ≡ length net.now.names →
        StepIs (asks_tree net.now more prefix.old.items at.old.line)
        (λ _ line. line ≡ at.new.line)
        result at.old at.new (S.seen source.old) (S.seen source.new) }
    ensures goes { OnOk result (GoesOn at.new) }
    ensures prefix { OnOk result (prefix.new.items ≡ prefix.old.items) }
    ensures room { OnOk result (length net.now.names ≤ vec_capacity prefix.new) }
{
    let place = next_node(source, at, net)?;
    if place == 8 {
        if prefix.len() < net.species() {
            return next_children(source, at, net, prefix);
        }
    }
    match test_leaf(at.numbers.as_slice(), net, prefix, place) {
        Ok(()) => Ok(()),
        Err(code) => Err(CheckStop::Rejected {
            code,
            line: at.line - 1,
        }),
    }
}
