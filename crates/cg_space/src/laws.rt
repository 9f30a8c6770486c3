//! What rows say of addresses.

ghost use Rattle.cg_space.specs.Laws.{EachAddressIsOnePlace, RowsAreTheMap};

/// What `find` answers over the rows of a top that breaks no rule on ranges is what the address map says, for every host and every address.
pub fn rows_are_the_map()
    ensures { RowsAreTheMap }
{}

/// In a top that breaks no rule on ranges each address is one place alone for a host: no two registers, words or devices stand at it.
pub fn each_address_is_one_place()
    ensures { EachAddressIsOnePlace }
{}
