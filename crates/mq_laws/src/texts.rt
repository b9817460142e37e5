//! Laws of the texts of addresses. The functions have no effect at run time.

ghost use Rattle.mq_laws.specs.Texts.{FirstLongestZeros, OneAddress, WrittenIsSpelled};

/// The law `FirstLongestZeros`: `::` replaces the longest run of zero groups, the first if several are equally long.
pub fn the_first_longest_run_is_replaced()
    ensures { FirstLongestZeros }
{}

/// The law `WrittenIsSpelled`: the written text of an address is a text of that address. So it parses to that address,
/// because no text has two.
pub fn written_is_spelled()
    ensures { WrittenIsSpelled }
{}

/// The law `OneAddress`: no text is that of two addresses of a family.
pub fn one_address()
    ensures { OneAddress }
{}
