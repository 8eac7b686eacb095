//! The words of a command line say the same by the table of commands as by the definition that the reader keeps to
//! (`the_table_says_what_is_read`, `what_is_read_fits_the_table`). Areas are rounded to whole numbers, a gap's down and
//! a least one up (`gaps_are_rounded_down`, `least_areas_are_rounded_up`), and an item of calculated columns is read
//! just where it is one of their grammar (`calculations_are_of_the_grammar`).
//!
//! Each function carries one law in its contract, and does nothing.
#![tactic(auto)]

ghost use Rattle.word_laws.specs.Laws.{TheTableSaysWhatIsRead, WhatIsReadFitsTheTable, GapsAreRoundedDown, LeastAreasAreRoundedUp, CalculationsAreOfTheGrammar};

/// For all words the table of commands says what is read: the same job, or the same first refused word and the same
/// reason.
pub fn the_table_says_what_is_read()
    ensures holds { TheTableSaysWhatIsRead }
{}

/// What the reader answers by its contract fits what the table of commands says of the words.
pub fn what_is_read_fits_the_table()
    ensures holds { WhatIsReadFitsTheTable }
{}

/// The number of a gap is twice its area in squares of the grid, rounded down to a whole number.
pub fn gaps_are_rounded_down()
    ensures holds { GapsAreRoundedDown }
{}

/// The number of a least area is twice that area in squares of the grid, rounded up to a whole number.
pub fn least_areas_are_rounded_up()
    ensures holds { LeastAreasAreRoundedUp }
{}

/// An item of the columns that a join is to calculate is read just where it is a name, `=`, and `count()` or
/// `sum(field)`, with white space before and after each token; and it is read as that column.
pub fn calculations_are_of_the_grammar()
    ensures holds { CalculationsAreOfTheGrammar }
{}
