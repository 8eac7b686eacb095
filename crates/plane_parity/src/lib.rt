//! The parity laws of an arrangement of links in the plane: what a ray that counts links can tell.
//!
//! - An even list of links (each point an end of an even number of them) has one parity in all points that no link
//!   parts.
//! - The parity of a point, of a side of a link and of a sector about a point agree where they see each other.
//! - The boundary of a region given by parities has that region as its own parity.
//! - The rings of a snapped drawing are even lists, so all of this holds of its polygons and boxes.
//!
//! Each function carries one law in its contract, and does nothing.
#![tactic(auto)]

ghost use Rattle.std.specs.Prelude.{◌≡◌, All, Bool, Contains, List, false, map, true};
ghost use Rattle.plane_model.specs.Points.{RationalPoint, Segment, Path, same_segment};
ghost use Rattle.plane_model.specs.Arrangement.{IsArrangement, IsDistinct, IsFree, IsInsideLink};
ghost use Rattle.plane_model.specs.Parity.{odd_count, xor, is_over, is_below, odd, links_of_paths};
ghost use Rattle.plane_model.specs.EvenList.{IsEven};
ghost use Rattle.plane_model.specs.Sees.{SeesLeft, SeesRight};
ghost use Rattle.plane_model.specs.Sides.{is_at_or_below, odd_left, odd_right};
ghost use Rattle.plane_model.specs.Below.{is_under, IsTopmostBelow};
ghost use Rattle.plane_model.specs.Rotation.{Dart, IsNext, odd_left_of, odd_right_of};
ghost use Rattle.plane_model.specs.ParityBoundary.{boundary};
ghost use Rattle.plane_model.specs.Joined.{IsClosed};
ghost use Rattle.plane_model.specs.SnappedRings.{
  ClosedRunsAreEvenLists,
  FacesHaveOneListOfHolders,
  SnappedBoxesAreClosedRuns,
  SnappedPolygonsAreEvenLists,
  SnappedRingsAreClosedRuns,
  SnappedBoxesAreEvenLists,
};
ghost use Rattle.plane_model.specs.Counted.{
  BoundaryStepsAreBoundaryLinks,
  SidesAreCounted,
  SnappedBoxSidesAreCounted,
  SnappedSidesAreCounted,
};

/// The links of closed runs are an even list: every grid point is an end of an even number of them.
pub fn closed_runs_are_even()
    ensures holds { (runs : List Path) → All IsClosed runs → IsEven (links_of_paths runs) }
{}

/// Where no link meets the segment between two points, an even list has the same parity below both.
pub fn parity_along_a_free_segment()
    ensures holds { (S L : List Segment) → IsArrangement S → All (Contains S) L → IsEven L →
        (u v : RationalPoint) → IsFree S u v → odd L u ≡ odd L v }
{}

/// A point that sees a link from its left has the parity of the link's left side.
pub fn parity_in_sight_from_left()
    ensures holds { (S L : List Segment) → IsArrangement S → All (Contains S) L → IsEven L → (l : Segment) → Contains S l →
        (z : RationalPoint) → SeesLeft S l z → odd L z ≡ odd_left L l }
{}

/// A point that sees a link from its right has the parity of the link's right side.
pub fn parity_in_sight_from_right()
    ensures holds { (S L : List Segment) → IsArrangement S → All (Contains S) L → IsEven L → (l : Segment) → Contains S l →
        (z : RationalPoint) → SeesRight S l z → odd L z ≡ odd_right L l }
{}

/// All points strictly inside a link have the same parity strictly below them.
pub fn parity_below_along_a_link()
    ensures holds { (S L : List Segment) → IsArrangement S → All (Contains S) L → IsEven L → (l : Segment) → Contains S l →
        (m n : RationalPoint) → IsInsideLink l m → IsInsideLink l n → odd L m ≡ odd L n }
{}

/// All points strictly inside a link have the same parity at or below them.
pub fn parity_at_or_below_along_a_link()
    ensures holds { (S L : List Segment) → IsArrangement S → All (Contains S) L → IsEven L → (l : Segment) → Contains S l →
        (m n : RationalPoint) → IsInsideLink l m → IsInsideLink l n →
        odd_count (is_at_or_below m) L ≡ odd_count (is_at_or_below n) L }
{}

/// Just right of each abscissa that a link goes over, from its left end on, what runs below the link has the parity of
/// its right side.
pub fn parity_under_a_link()
    ensures holds { (S L : List Segment) → IsArrangement S → All (Contains S) L → IsEven L → (l : Segment) → Contains S l →
        (z : RationalPoint) → is_over z l ≡ true → odd_right L l ≡ odd_count (is_under z l) L }
{}

/// So has, with the link itself, its left side.
pub fn parity_over_a_link()
    ensures holds { (S L : List Segment) → IsArrangement S → All (Contains S) L → IsEven L → (l : Segment) → Contains S l →
        (z : RationalPoint) → is_over z l ≡ true →
        odd_left L l ≡ xor (odd_count (is_under z l) L) (odd_count (same_segment l) L) }
{}

/// A point has the parity of the upper side of the topmost link below it.
pub fn parity_over_the_topmost_link()
    ensures holds { (S L : List Segment) → IsArrangement S → All (Contains S) L → IsEven L → (z : RationalPoint) → (l : Segment) →
        Contains S l → IsTopmostBelow S z l → odd L z ≡ odd_left L l }
{}

/// A point that no link passes below has an even number of links below it.
pub fn parity_over_nothing()
    ensures holds { (S L : List Segment) → All (Contains S) L → (z : RationalPoint) →
        ((k : Segment) → Contains S k → is_below z k ≡ false) → odd L z ≡ false }
{}

/// Between two links that follow each other about a grid point, the sides that face each other have one parity.
pub fn parity_of_a_sector()
    ensures holds { (S L : List Segment) → IsArrangement S → All (Contains S) L → IsEven L → (d e : Dart) → Contains S d.link →
        Contains S e.link → IsNext S d e → odd_left_of L d ≡ odd_right_of L e }
{}

/// The links between the inside and the outside of a function of parities have that function as their parity.
pub fn parity_of_a_boundary()
    ensures holds { (S : List Segment) → IsArrangement S → IsDistinct S → (Rs : List (List Segment)) →
        All (λ R. All (Contains S) R × IsEven R) Rs → (f : List Bool → Bool) → f (map (λ R. false) Rs) ≡ false →
        (z : RationalPoint) → odd (boundary f Rs S) z ≡ f (map (λ R. odd R z) Rs) }
{}

/// The boundary is an even list itself.
pub fn boundary_is_even()
    ensures holds { (S : List Segment) → IsArrangement S → IsDistinct S → (Rs : List (List Segment)) →
        All (λ R. All (Contains S) R × IsEven R) Rs → (f : List Bool → Bool) → f (map (λ R. false) Rs) ≡ false →
        IsEven (boundary f Rs S) }
{}

/// Each link is seen from its left by some point.
pub fn left_side_is_seen()
    ensures holds { (S : List Segment) → IsArrangement S → (l : Segment) → Contains S l → (z : RationalPoint) × SeesLeft S l z }
{}

/// Each link is seen from its right by some point.
pub fn right_side_is_seen()
    ensures holds { (S : List Segment) → IsArrangement S → (l : Segment) → Contains S l → (z : RationalPoint) × SeesRight S l z }
{}

/// The links that closed runs of links step along are an even list of links.
pub fn closed_runs_are_even_lists()
    ensures holds { ClosedRunsAreEvenLists }
{}

/// The rings of snapped polygons, and snapped boxes, are closed runs of links.
pub fn snapped_rings_are_closed_runs()
    ensures polygons { SnappedRingsAreClosedRuns }
    ensures boxes { SnappedBoxesAreClosedRuns }
{}

/// The points of one face are held by the same features and boxes.
pub fn faces_have_one_list_of_holders()
    ensures holds { FacesHaveOneListOfHolders }
{}

/// The rings of each snapped polygon, and each snapped box, are an even list of links.
pub fn snapped_rings_are_even_lists()
    ensures polygons { SnappedPolygonsAreEvenLists }
    ensures boxes { SnappedBoxesAreEvenLists }
{}

/// The sides of a link that are seen from the odd points of an even list are those whose count is odd.
pub fn sides_are_counted()
    ensures holds { SidesAreCounted }
{}

/// The directed boundary of a region given by parities has the links of its boundary.
pub fn boundary_steps_are_boundary_links()
    ensures holds { BoundaryStepsAreBoundaryLinks }
{}

/// The sides of the links of a snapped drawing that belong to a feature or a box are those that its rings count.
pub fn snapped_sides_are_counted()
    ensures features { SnappedSidesAreCounted }
    ensures boxes { SnappedBoxSidesAreCounted }
{}
