ghost use Rattle.std.specs.Prelude.{◌≡◌, ◌≤◌, ◌&&◌, IfSome};
ghost use Rattle.grid_base.specs.Grid.{most_places};
ghost use Rattle.cmd_words.specs.Boxes.{places_of, place_of, is_numeral as is_a_numeral, corner_of, box_between, box_of_four, box_of_texts, box_of_text};
ghost use Rattle.cmd_words.specs.Steps.{Gives};

use crate::fault::{Refusal, WordWhy};
use crate::texts::pieces;
use grid_base::{Pt, Rect};
use numerals::{Decimal, is_numeral, numeral_to_grid};
use std::alloc::Global;
use text_core::Text;

/// The decimal places of a precision: of 1, 0.1 and so on to 0.000000001.
#[tactic(auto, unfolding(crate::specs::Boxes::places_of))]
pub(crate) fn places_of(value: &str) -> Option<u8>
    ensures exact { result ≡ places_of value.now }
    ensures few { IfSome result (λ k. k ≤ most_places) }
{
    let precision = Decimal::parse(value)?;
    places_of_units(precision.units())
}

// The decimal places of a precision of this number of units of 10^-18.
fn places_of_units(units: i128) -> Option<u8>
    ensures exact { result ≡ place_of units }
    ensures few { IfSome result (λ k. k ≤ most_places) }
{
    match units {
        1_000_000_000_000_000_000 => Some(0),
        100_000_000_000_000_000 => Some(1),
        10_000_000_000_000_000 => Some(2),
        1_000_000_000_000_000 => Some(3),
        100_000_000_000_000 => Some(4),
        10_000_000_000_000 => Some(5),
        1_000_000_000_000 => Some(6),
        100_000_000_000 => Some(7),
        10_000_000_000 => Some(8),
        1_000_000_000 => Some(9),
        _ => None,
    }
}

/// The box of four numerals: xmin, ymin, xmax and ymax.
#[tactic(auto, unfolding(crate::specs::Boxes::box_of_text))]
pub(crate) fn read_box(alloc: Global, places: u8, value: &str) -> Result<Rect, Refusal>
    ensures exact { Gives (box_of_text places value.now) (λ a. a) result }
{
    let numerals = pieces(alloc, value)?;
    box_of_texts(places, numerals.as_slice())
}

fn box_of_texts(places: u8, numerals: &[Text]) -> Result<Rect, Refusal>
    ensures exact { Gives (box_of_texts places numerals.now) (λ a. a) result }
{
    match numerals {
        [west, south, east, north] => box_of_corners(
            places,
            (west.as_str(), south.as_str()),
            (east.as_str(), north.as_str()),
        ),
        _ => Err(Refusal::Why(WordWhy::BadBox)),
    }
}

fn box_of_corners(places: u8, low: (&str, &str), high: (&str, &str)) -> Result<Rect, Refusal>
    ensures exact { Gives (box_of_four places low.entry.0.now low.entry.1.now high.entry.0.now high.entry.1.now) (λ a. a) result }
{
    if !(are_numerals(low) && are_numerals(high)) {
        return Err(Refusal::Why(WordWhy::BadBox));
    }
    let (Some(low), Some(high)) = (corner(places, low), corner(places, high)) else {
        return Err(Refusal::Why(WordWhy::BoxRange));
    };
    Rect::new(low, high).ok_or(Refusal::Why(WordWhy::BadBox))
}

fn are_numerals(pair: (&str, &str)) -> bool
    ensures exact { result ≡ (is_a_numeral pair.entry.0.now && is_a_numeral pair.entry.1.now) }
{
    is_numeral(pair.0) && is_numeral(pair.1)
}

fn corner(places: u8, pair: (&str, &str)) -> Option<Pt>
    ensures exact { result ≡ corner_of places pair.entry.0.now pair.entry.1.now }
{
    let x = numeral_to_grid(pair.0, places)?;
    let y = numeral_to_grid(pair.1, places)?;
    Pt::new(x, y)
}
