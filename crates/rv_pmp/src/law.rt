// Each address register names its range.
ghost use Rattle.rv_pmp.specs.Rule.{NamesRange};

/// The law of naturally aligned ranges: the register whose bits are those of a number, then a zero, then k ones, names the range
/// of 2^(k+3) bytes that has this number.
pub fn registers_name_ranges()
    ensures { NamesRange }
{}
