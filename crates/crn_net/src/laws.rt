ghost use Rattle.std.specs.Prelude.{◌≡◌, List, map};
ghost use Rattle.std.specs.List.{flat_map};
ghost use Rattle.std.specs.Str.{bytes_eq};
ghost use Rattle.crn_vec.specs.Lists.{firsts};
ghost use Rattle.crn_vec.specs.Network.{Net, IsPartialNetwork, sides_of, sides_eq, said_by, names_in, Statement};
ghost use Rattle.crn_net.specs.Grows.{Grown};

/// A network that statements make, one after another, from nothing: its names are theirs in order of first
/// appearance, and its reactions, as amounts of the names, are the statements with every later repeat dropped.
pub fn statements_fix_what_has_grown()
    ensures network { (ss : List Statement) (net : Net) → Grown ss net → IsPartialNetwork net }
    ensures names { (ss : List Statement) (net : Net) → Grown ss net →
        net.names ≡ firsts bytes_eq (flat_map names_in ss) }
    ensures reactions { (ss : List Statement) (net : Net) → Grown ss net →
        map (sides_of net) net.reactions ≡ firsts sides_eq (map (said_by net.names) ss) }
{}
