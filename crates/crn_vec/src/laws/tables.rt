ghost use Rattle.crn_vec.specs.Influence.{NetworksHaveTables};
ghost use Rattle.crn_vec.specs.TableLaws.{TablesAreLawful, TablesAreSteady, FeasiblePrefixesDecideDiscordance};

/// The sign problem of an influence table meets the laws of sign problems.
pub fn tables_meet_the_laws_of_sign_problems()
    ensures { TablesAreLawful }
{}

/// The sign problem of any table meets the laws that trees depend on.
pub fn tables_are_steady()
    ensures { TablesAreSteady }
{}

/// A table has a discordance if and only if some full prefix of its sign problem is feasible.
pub fn feasible_prefixes_decide_discordance()
    ensures { FeasiblePrefixesDecideDiscordance }
{}

/// Both influence tables of a network fit its system 2, which combines its reaction vectors.
pub fn networks_have_tables()
    ensures { NetworksHaveTables }
{}
