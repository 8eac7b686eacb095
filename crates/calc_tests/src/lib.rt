//! What no clause says of fields set row by row, rows in the order of their keys, rows of early keys and islands:
//! that their calls succeed where there is memory, and that what they answer for small tables and squares is what
//! was worked out by hand.
#![tactic(auto)]

#[cfg(test)]
mod each_tests;
#[cfg(test)]
mod island_tests;
#[cfg(test)]
mod key_tests;
#[cfg(test)]
mod squares;
