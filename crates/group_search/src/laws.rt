ghost use Rattle.std.specs.Prelude.{◌≡◌};
ghost use Rattle.flow_types.specs.Size.{most_value_bits};
ghost use Rattle.block_layout.specs.Limits.{most_keys};
ghost use Rattle.group_search.specs.Laws.{GivesEachNode, IgnoresOrder};
ghost use Rattle.group_search.specs.Limits.{fewest_rows, index_count, most_rows, position_count};
ghost use Rattle.group_search.specs.declared.limits.TheConstants.{FEWEST_ROWS, INDEXES, MOST_BITS, MOST_ENTRIES, MOST_ROWS, POSITIONS};

/// The law that a canonical record gives the key of each of its entries its node.
pub fn canonical_gives_each_node()
    ensures { GivesEachNode }
{}

/// The law that entries in another order have the same canonical record.
pub fn canonical_ignores_order()
    ensures { IgnoresOrder }
{}

/// The numbers that the code goes by are those of the definitions.
pub fn the_limits_are()
    ensures indexes { INDEXES ≡ index_count }
    ensures positions { POSITIONS ≡ position_count }
    ensures entries { MOST_ENTRIES ≡ most_keys }
    ensures bits { MOST_BITS ≡ most_value_bits }
    ensures fewest { FEWEST_ROWS ≡ fewest_rows }
    ensures rows { MOST_ROWS ≡ most_rows }
{}
