ghost use Rattle.numerals.specs.Laws.{NumbersAreNumerals, DecimalsReadBack, GridNumbersReadBack};
ghost use Rattle.numerals.specs.Numeral.{RoundedIsNearest};

/// The numbers of the grammar are exactly the numerals, which have a value.
pub fn numbers_are_numerals()
    ensures holds { NumbersAreNumerals }
{}

/// The printed text of a decimal denotes that decimal.
pub fn decimals_read_back()
    ensures holds { DecimalsReadBack }
{}

/// Rounding gives the one whole number g with g ≤ v + 1/2 < g + 1.
pub fn rounded_is_nearest()
    ensures holds { RoundedIsNearest }
{}

/// The printed text of a grid number has that grid number.
pub fn grid_numbers_read_back()
    ensures holds { GridNumbersReadBack }
{}
