//! Laws of answers: the plane of each drawing with closed rings has right answers to all that commands ask of it, and
//! each region polygons that fit it.
//!
//! - Whether a region has a rational point can be told, so it can be told which sides of links belong to the region,
//!   which vertices are inside it, and how many parts and gaps there are (`right_answers_exist`).
//! - Each part of a region has rings that use its boundary once, each begun at its least arc: an exterior, and holes in
//!   order of their least arcs (`each_part_is_printed`).
//! - The boundary of a region is those of its parts together, so these polygons fit the region
//!   (`each_region_is_printed`).
//!
//! Each function carries one law in its contract, and does nothing. The laws are stated in `specs/Answers.antt` and
//! `specs/Printed.antt` of `region_model`, and in `specs/Polygons.antt`. They speak of drawings, right answers and
//! regions alone: no table of arcs or faces is in them.
#![tactic(auto)]

ghost use Rattle.region_model.specs.Answers.{RightAnswersExist};
ghost use Rattle.region_model.specs.Printed.{EachRegionIsPrinted};
ghost use Rattle.answer_laws.specs.Polygons.{EachPartIsPrinted};

/// The plane of each drawing with closed rings has right answers.
pub fn right_answers_exist()
    ensures holds { RightAnswersExist }
{}

/// Each part of a region has a polygon that fits it.
pub fn each_part_is_printed()
    ensures holds { EachPartIsPrinted }
{}

/// Each region has polygons that fit it.
pub fn each_region_is_printed()
    ensures holds { EachRegionIsPrinted }
{}
