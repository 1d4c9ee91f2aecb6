ghost use Rattle.std.specs.Prelude.{◌≡◌, ◌↔◌, ◌≤◌, ◌<◌, suc, IsTrue, length, slice_index};
ghost use Rattle.crn_cert.specs.Parts.{IsForest};
ghost use Rattle.crn_cert.specs.ClassTests.{IsFirst, HangsByLink, HangsFrom, HangsTo};
ghost use Rattle.crn_check.specs.Inner.Trees.{HaveNumbers, IsInTree, AreTrees};

use crn_net::Network;

// How the reaction that a complex names joins it to its parent.
#[derive(Clone, Copy, Drop)]
pub(crate) enum Rule {
    // in either direction
    ByLink,
    // from the parent, which is in the class
    From,
    // to the parent, which is in the class
    To,
}

// Whether the depth of the first complex is one more than that of the second.
fn is_deeper(depth: &[u32], c: usize, d: usize) -> bool
    requires first { c < length depth.now }
    requires second { d < length depth.now }
    ensures { IsTrue result ↔ (slice_index depth.now c ≡ suc (slice_index depth.now d)) }
{
    depth[c] > 0 && depth[c] - 1 == depth[d]
}

// Whether the reaction that the complex names joins it to a complex whose depth is less by one.
fn hangs_by_link(net: &Network, names: &[u32], depth: &[u32], c: usize) -> bool
    requires forest { IsForest net.now names.now depth.now }
    requires inside { c < length net.now.complexes }
    requires named { 1 ≤ slice_index names.now c }
    ensures { IsTrue result ↔ HangsByLink net.now names.now depth.now c }
{
    let r = names[c] as usize - 1;
    if net.reactant(r) == c {
        return is_deeper(depth, c, net.product(r));
    }
    net.product(r) == c && is_deeper(depth, c, net.reactant(r))
}

// Whether the reaction that the complex names goes to it from a complex of its class whose depth is less by one.
fn hangs_from(net: &Network, labels: &[u32], names: &[u32], depth: &[u32], c: usize) -> bool
    requires labelled { length labels.now ≡ length net.now.complexes }
    requires forest { IsForest net.now names.now depth.now }
    requires inside { c < length net.now.complexes }
    requires named { 1 ≤ slice_index names.now c }
    ensures { IsTrue result ↔ HangsFrom net.now labels.now names.now depth.now c }
{
    let r = names[c] as usize - 1;
    let parent = net.reactant(r);
    net.product(r) == c && labels[parent] == labels[c] && is_deeper(depth, c, parent)
}

// Whether the reaction that the complex names goes from it to a complex of its class whose depth is less by one.
fn hangs_to(net: &Network, labels: &[u32], names: &[u32], depth: &[u32], c: usize) -> bool
    requires labelled { length labels.now ≡ length net.now.complexes }
    requires forest { IsForest net.now names.now depth.now }
    requires inside { c < length net.now.complexes }
    requires named { 1 ≤ slice_index names.now c }
    ensures { IsTrue result ↔ HangsTo net.now labels.now names.now depth.now c }
{
    let r = names[c] as usize - 1;
    let parent = net.product(r);
    net.reactant(r) == c && labels[parent] == labels[c] && is_deeper(depth, c, parent)
}

// Whether the complex is a root of the trees, or hangs in them by the rule.
fn is_in_tree(
    net: &Network,
    rule: Rule,
    first: bool,
    labels: &[u32],
    names: &[u32],
    depth: &[u32],
    c: usize,
) -> bool
    requires labelled { length labels.now ≡ length net.now.complexes }
    requires forest { IsForest net.now names.now depth.now }
    requires inside { c < length net.now.complexes }
    requires first { IsTrue first ↔ IsFirst labels.now c }
    ensures { IsTrue result ↔ IsInTree rule net.now labels.now names.now depth.now c }
{
    if first {
        return names[c] == 0 && depth[c] == 0;
    }
    if names[c] == 0 {
        return false;
    }
    match rule {
        Rule::ByLink => hangs_by_link(net, names, depth, c),
        Rule::From => hangs_from(net, labels, names, depth, c),
        Rule::To => hangs_to(net, labels, names, depth, c),
    }
}

// Whether each complex is a root of the trees, or hangs in them by the rule.
pub(crate) fn are_trees(
    net: &Network,
    rule: Rule,
    labels: &[u32],
    names: &[u32],
    depth: &[u32],
) -> bool
    requires labelled { length labels.now ≡ length net.now.complexes }
    requires numbered { HaveNumbers labels.now }
    requires forest { IsForest net.now names.now depth.now }
    ensures { IsTrue result ↔ AreTrees rule net.now labels.now names.now depth.now }
{
    let mut most = 0;
    for c in 0..net.complexes() {
        let first = labels[c] > most;
        if !is_in_tree(net, rule, first, labels, names, depth, c) {
            return false;
        }
        if first {
            most = labels[c];
        }
    }
    true
}
