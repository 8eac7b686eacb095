//! Laws of outcomes: words, files and standard input tell just one outcome.
//!
//! What the model of a run (`chain_model`) tells leaves choices open: a reading of texts, trees of expressions, answers
//! to questions about regions, texts of what is written. None of them changes how a run ends.
//!
//! - There is one reading of texts at most (`readings_are_one`).
//! - Answers are asked only about sides of links, vertices, and numbers of parts and gaps, where two right ones are the
//!   same: paths of a state go along links of its plane, and its points are vertices of it, as it begins and after each
//!   command. So by any right answers the commands of a chain have the same outputs and the same end
//!   (`one_run_of_right_answers`).
//! - Trees of the same texts are the same (`steps_are_of_words` of `headline_laws`), so the outcome is one
//!   (`outcome_is_one`), and the same commands write to the same places (`effects_go_alike`). Of their texts nothing is
//!   said.
//! - And an outcome is told, with effects (`each_run_tells`): texts of expressions that are not refused have trees,
//!   what is read has closed rings, so its plane has right answers, and each region has polygons that fit it, so each
//!   output has a text.
//! - Commands begin over the plane of a drawing whose rings are closed (`begun_rings_are_closed`), which the laws of
//!   printed regions ask for, and so are the cells of a made-up mosaic (`cell_rings_are_closed`). The links of the
//!   plane meet at their ends alone, and each step of an arc, a ring or a line that is printed is along one of them
//!   (`printed_steps_are_links`).
//!
//! Each function carries one law in its contract, and does nothing.
#![tactic(auto)]

ghost use Rattle.chain_model.specs.Running.{EachRunTells, OutcomeIsOne};
ghost use Rattle.outcome_laws.specs.Laws.{BegunRingsAreClosed, CellRingsAreClosed, EffectsGoAlike, OneRunOfRightAnswers, PrintedStepsAreLinks, ReadingsAreOne};

/// Two readings of texts are one: a JSON text has one value, and other bytes one first fault; bytes stop at one place
/// to begin a UTF-8 text; and a text has one fault as an expression or as assignments.
pub fn readings_are_one()
    ensures holds { ReadingsAreOne }
{}

/// What has begun has the same outputs and the same end, whatever right answers its plane gives.
pub fn one_run_of_right_answers()
    ensures holds { OneRunOfRightAnswers }
{}

/// The same words, files and standard input tell one outcome, whatever reading of texts, trees and right answers are
/// taken.
pub fn outcome_is_one()
    ensures holds { OutcomeIsOne }
{}

/// And they tell effects of the same commands, to the same files or to the standard stream, in the same order.
pub fn effects_go_alike()
    ensures holds { EffectsGoAlike }
{}

/// Whatever the words, the files and standard input are, they tell an outcome and effects.
pub fn each_run_tells()
    ensures holds { EachRunTells }
{}

/// What commands begin over is the plane of a drawing whose rings are closed.
pub fn begun_rings_are_closed()
    ensures holds { BegunRingsAreClosed }
{}

/// The rings of the cells of a made-up mosaic are closed.
pub fn cell_rings_are_closed()
    ensures holds { CellRingsAreClosed }
{}

/// The links of the plane of a run meet at their ends alone. Each step of its arcs is along one of them, and whatever
/// pictures show the layers of an output, so is each step of their rings and lines.
pub fn printed_steps_are_links()
    ensures holds { PrintedStepsAreLinks }
{}
