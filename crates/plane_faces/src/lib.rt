//! The faces of an arrangement of links in the plane, the parts of a set of faces, and the rings of a part.
//!
//! - A test that takes one value where places meet has an even border, and holds exactly at the points that are odd for
//!   it.
//! - Points of one label are separated by no even list of links, and points of two labels by one.
//! - So it is with the parts of a set of faces, and the links of its border.
//! - The border of a part is rings: one exterior, which turns left at its least vertex, and holes, which do not.
//! - What a table has to say of each vertex, so that labels made by joins are those of the faces.
//!
//! Each function carries one law in its contract, and does nothing.
#![tactic(auto)]

ghost use Rattle.std.specs.Prelude.{◌≡◌, ◌<ℤ◌, [], ◌∷◌, All, Bool, Contains, List, ℕ, false, true, not, map, pos};
ghost use Rattle.std.specs.List.Sorted.{IsPermutation};
ghost use Rattle.plane_model.specs.Rotation.{Dart, IsNext};
ghost use Rattle.plane_model.specs.Points.{GridPoint, Path, RationalPoint, Segment, at, same_segment, step_x};
ghost use Rattle.plane_model.specs.Arrangement.{IsArrangement, IsBefore, IsDistinct, IsFree};
ghost use Rattle.plane_model.specs.EvenList.{IsEven};
ghost use Rattle.plane_model.specs.Sees.{SeesLeft, SeesRight};
ghost use Rattle.plane_model.specs.ParityBoundary.{boundary};
ghost use Rattle.plane_model.specs.Parity.{links_of_paths, odd, odd_count, xor};
ghost use Rattle.plane_model.specs.Sides.{odd_left, odd_right};
ghost use Rattle.plane_faces.specs.Places.{
  AgreesAround,
  AgreesWherePlacesMeet,
  IsBeside,
  IsFirst,
  IsLowest,
  IsMinimum,
  IsPlaceOf,
  Place,
  border,
  in_region,
  left_of,
  left_side,
  odd_at,
  outside,
  right_side,
};
ghost use Rattle.plane_faces.specs.Classes.{
  BordersAreBoundaries,
  LabelsAreFaces,
  LabelsHaveOneListOfHolders,
  PartsAreJoined,
  SidesAreTested,
};
ghost use Rattle.plane_faces.specs.UsedOnce.{BordersAreUsedOnce, PartsUsedOnceArePolygons};
ghost use Rattle.plane_faces.specs.Labels.{IsFaceLabelling, IsJoining, IsPartLabelling, among, in_part, relabel};
ghost use Rattle.plane_faces.specs.Rings.{
  IsPolygon,
  IsRing,
  IsSeparating,
  StartsLeast,
  darts_of_path,
  darts_of_paths,
  links_of_path,
  turns_left,
};
ghost use Rattle.plane_faces.specs.Around.{IsRotation, IsTurn, opposite};

// ---- rotations and places

/// The darts of each vertex can be put in rotation.
pub fn each_vertex_has_a_rotation()
    ensures holds { (S : List Segment) → IsArrangement S → IsDistinct S → (p : GridPoint) → (ds : List Dart) × IsRotation S p ds }
{}

/// Each rational point has a place.
pub fn each_point_has_a_place()
    ensures holds { (S : List Segment) → IsArrangement S → (z : RationalPoint) → (a : Place) × IsPlaceOf S z a }
{}

/// A point left of all vertices is outside.
pub fn points_left_of_all_are_outside()
    ensures holds { (S : List Segment) → (z : RationalPoint) → ((l : Segment) → Contains S l → pos 0 <ℤ step_x z (at l.start)) →
        IsPlaceOf S z outside }
{}

/// A point has only one place.
pub fn each_point_has_one_place()
    ensures holds { (S : List Segment) → IsArrangement S → (z : RationalPoint) → (a b : Place) → IsPlaceOf S z a → IsPlaceOf S z b →
        a ≡ b }
{}

/// What is one in each table of rotation, between each dart and the next and between the last and the first, is one in
/// each sector.
pub fn sectors_by_tables()
    ensures holds { (S : List Segment) → IsArrangement S → (f : Place → ℕ) →
        ((p : GridPoint) → (ds : List Dart) × IsRotation S p ds × AgreesAround f ds) → (d e : Dart) → Contains S d.link →
        Contains S e.link → IsNext S d e → f (left_of d) ≡ f (left_of (opposite e)) }
{}

/// So is what is one in each row of a vertex that goes counterclockwise from the positive x axis.
pub fn sectors_by_turns()
    ensures holds { (S : List Segment) → IsArrangement S → (f : Place → ℕ) →
        ((p : GridPoint) → (ds : List Dart) × IsTurn S p ds × AgreesAround f ds) → (d e : Dart) → Contains S d.link →
        Contains S e.link → IsNext S d e → f (left_of d) ≡ f (left_of (opposite e)) }
{}

/// Where no link arrives, the first dart in rotation leaves by the first link.
pub fn first_link_by_table()
    ensures holds { (S : List Segment) → IsArrangement S → (p : GridPoint) → (d : Dart) → (ds : List Dart) →
        IsRotation S p (d ∷ ds) → IsMinimum S p → (d.forward ≡ true) × IsFirst S d.link }
{}

/// One ray for each vertex where no link arrives gives all rays.
pub fn rays_by_tables()
    ensures holds { (S : List Segment) → IsArrangement S → (f : Place → ℕ) →
        ((p : GridPoint) → IsMinimum S p → (k : Segment) → Contains S k → k.start ≡ p →
        (j : Segment) × Contains S j × (j.start ≡ p) × IsFirst S j ×
        ((a : Place) × IsPlaceOf S (at p) a × (f (right_side j) ≡ f a))) →
        (l : Segment) → Contains S l → IsMinimum S l.start → IsFirst S l → (a : Place) → IsPlaceOf S (at l.start) a →
        f (right_side l) ≡ f a }
{}

/// All places are connected, through sectors, along rays and across links.
pub fn places_are_connected()
    ensures holds { (S : List Segment) → IsArrangement S → IsDistinct S → (f : Place → Bool) → AgreesWherePlacesMeet S f →
        ((l : Segment) → Contains S l → f (left_side l) ≡ f (right_side l)) → (a : Place) → IsBeside S a → f a ≡ f outside }
{}

// ---- parities at places

/// A point has the parity of its place.
pub fn parity_of_a_place()
    ensures holds { (S L : List Segment) → IsArrangement S → All (Contains S) L → IsEven L → (z : RationalPoint) → (a : Place) →
        IsPlaceOf S z a → odd L z ≡ odd_at L a }
{}

/// An even list has one parity where places meet.
pub fn parity_where_places_meet()
    ensures holds { (S L : List Segment) → IsArrangement S → All (Contains S) L → IsEven L → AgreesWherePlacesMeet S (odd_at L) }
{}

/// Across a link the parity changes by the times that the link stands in the list.
pub fn parity_across_a_link()
    ensures holds { (S L : List Segment) → IsArrangement S → All (Contains S) L → IsEven L → (l : Segment) → Contains S l →
        odd_left L l ≡ xor (odd_right L l) (odd_count (same_segment l) L) }
{}

// ---- borders

/// The links whose sides a test tells apart, if it takes one value where places meet, are an even list.
pub fn border_is_even()
    ensures holds { (S : List Segment) → IsArrangement S → IsDistinct S → (f : Place → Bool) → AgreesWherePlacesMeet S f → IsEven (border f S) }
{}

/// The boundary theorem: a point is odd for the border exactly if the test holds at its place.
pub fn parity_of_a_border()
    ensures holds { (S : List Segment) → IsArrangement S → IsDistinct S → (f : Place → Bool) → AgreesWherePlacesMeet S f → f outside ≡ false →
        (z : RationalPoint) → (a : Place) → IsPlaceOf S z a → odd (border f S) z ≡ f a }
{}

/// So is each side of each link.
pub fn parity_beside_a_border()
    ensures holds { (S : List Segment) → IsArrangement S → IsDistinct S → (f : Place → Bool) → AgreesWherePlacesMeet S f → f outside ≡ false →
        (a : Place) → IsBeside S a → odd_at (border f S) a ≡ f a }
{}

// ---- faces

/// Every arrangement has a labelling of its faces.
pub fn each_arrangement_has_faces()
    ensures holds { (S : List Segment) → IsArrangement S → IsDistinct S → (label : Place → ℕ) × IsFaceLabelling S label }
{}

/// Before any join each place has a label of its own.
pub fn joining_begins()
    ensures holds { (S : List Segment) → (label : Place → ℕ) →
        ((a b : Place) → IsBeside S a → IsBeside S b → label a ≡ label b → a ≡ b) → IsJoining S [] label }
{}

/// One more join makes the label of p that of q.
pub fn joining_goes_on()
    ensures holds { (S : List Segment) → (pairs : List (Place × Place)) → (label : Place → ℕ) → IsJoining S pairs label →
        (p q : Place) → IsBeside S p → IsBeside S q →
        IsJoining S ((p, q) ∷ pairs) (λ a. relabel (label p) (label q) (label a)) }
{}

/// Once all places that meet are joined, and only such, the labels are those of the faces.
pub fn joining_ends()
    ensures holds { (S : List Segment) → (pairs : List (Place × Place)) → (label : Place → ℕ) → IsJoining S pairs label →
        AgreesWherePlacesMeet S label → ((f : Place → Bool) → AgreesWherePlacesMeet S f → All (λ p. f p.0 ≡ f p.1) pairs) →
        IsFaceLabelling S label }
{}

/// Points of two labels are separated by an even list.
pub fn faces_are_separated()
    ensures holds { (S : List Segment) → IsArrangement S → IsDistinct S → (label : Place → ℕ) → AgreesWherePlacesMeet S label →
        (z z' : RationalPoint) → (a a' : Place) → IsPlaceOf S z a → IsPlaceOf S z' a' → (label a ≡ label a' → ⊥) →
        (L : List Segment) × All (Contains S) L × IsEven L × (odd L z ≡ not (odd L z')) }
{}

/// So they are by a ring.
pub fn faces_are_separated_by_a_ring()
    ensures holds { (S : List Segment) → IsArrangement S → IsDistinct S → (label : Place → ℕ) → AgreesWherePlacesMeet S label →
        (z z' : RationalPoint) → (a a' : Place) → IsPlaceOf S z a → IsPlaceOf S z' a' → (label a ≡ label a' → ⊥) →
        (ring : Path) × IsSeparating S z z' ring }
{}

/// Points of one label are not separated by any even list.
pub fn faces_are_not_separated()
    ensures holds { (S : List Segment) → IsArrangement S → (label : Place → ℕ) → IsFaceLabelling S label → (L : List Segment) →
        All (Contains S) L → IsEven L → (z z' : RationalPoint) → (a a' : Place) → IsPlaceOf S z a → IsPlaceOf S z' a' →
        label a ≡ label a' → odd L z ≡ odd L z' }
{}

/// Points of the outer label are even.
pub fn outer_face_is_even()
    ensures holds { (S : List Segment) → IsArrangement S → (label : Place → ℕ) → IsFaceLabelling S label → (L : List Segment) →
        All (Contains S) L → IsEven L → (z : RationalPoint) → (a : Place) → IsPlaceOf S z a → label a ≡ label outside →
        odd L z ≡ false }
{}

/// Points with no link between them have one label.
pub fn label_along_a_free_segment()
    ensures holds { (S : List Segment) → IsArrangement S → IsDistinct S → (label : Place → ℕ) → AgreesWherePlacesMeet S label →
        (u v : RationalPoint) → IsFree S u v → (a b : Place) → IsPlaceOf S u a → IsPlaceOf S v b → label a ≡ label b }
{}

/// A point that sees a link from its left has the label of the link's left side.
pub fn label_in_sight_from_left()
    ensures holds { (S : List Segment) → IsArrangement S → IsDistinct S → (label : Place → ℕ) → AgreesWherePlacesMeet S label → (l : Segment) →
        Contains S l → (z : RationalPoint) → SeesLeft S l z → (a : Place) → IsPlaceOf S z a →
        label a ≡ label (left_side l) }
{}

/// A point that sees a link from its right has the label of the link's right side.
pub fn label_in_sight_from_right()
    ensures holds { (S : List Segment) → IsArrangement S → IsDistinct S → (label : Place → ℕ) → AgreesWherePlacesMeet S label → (l : Segment) →
        Contains S l → (z : RationalPoint) → SeesRight S l z → (a : Place) → IsPlaceOf S z a →
        label a ≡ label (right_side l) }
{}

/// Labels agree along the ray from every vertex that a link leaves: more rays do no harm.
pub fn label_along_a_ray()
    ensures holds { (S : List Segment) → IsArrangement S → IsDistinct S → (label : Place → ℕ) → AgreesWherePlacesMeet S label → (l : Segment) →
        Contains S l → IsFirst S l → (a : Place) → IsPlaceOf S (at l.start) a → label (right_side l) ≡ label a }
{}

/// So do tests.
pub fn test_along_a_ray()
    ensures holds { (S : List Segment) → IsArrangement S → IsDistinct S → (f : Place → Bool) → AgreesWherePlacesMeet S f → (l : Segment) →
        Contains S l → IsFirst S l → (a : Place) → IsPlaceOf S (at l.start) a → f (right_side l) ≡ f a }
{}

// ---- regions

/// A function of the parities of even lists takes one value where places meet.
pub fn regions_agree_where_places_meet()
    ensures holds { (S : List Segment) → IsArrangement S → (Rs : List (List Segment)) →
        All (λ R. All (Contains S) R × IsEven R) Rs → (f : List Bool → Bool) → AgreesWherePlacesMeet S (in_region f Rs) }
{}

/// It takes one value on each label.
pub fn regions_are_made_of_faces()
    ensures holds { (S : List Segment) → IsArrangement S → (label : Place → ℕ) → IsFaceLabelling S label →
        (Rs : List (List Segment)) → All (λ R. All (Contains S) R × IsEven R) Rs → (f : List Bool → Bool) → (a b : Place) →
        IsBeside S a → IsBeside S b → label a ≡ label b → in_region f Rs a ≡ in_region f Rs b }
{}

/// At a point it is what the parities at its place say.
pub fn region_of_a_place()
    ensures holds { (S : List Segment) → IsArrangement S → (Rs : List (List Segment)) →
        All (λ R. All (Contains S) R × IsEven R) Rs → (f : List Bool → Bool) → (z : RationalPoint) → (a : Place) →
        IsPlaceOf S z a → f (map (λ R. odd R z) Rs) ≡ in_region f Rs a }
{}

/// Its border is the boundary of `parity_of_a_boundary`.
pub fn boundary_is_a_border()
    ensures holds { (S : List Segment) → (Rs : List (List Segment)) → (f : List Bool → Bool) →
        border (in_region f Rs) S ≡ boundary f Rs S }
{}

// ---- parts

/// Every set of faces has a labelling of its parts.
pub fn each_set_of_faces_has_parts()
    ensures holds { (S : List Segment) → (label : Place → ℕ) → (F : ℕ → Bool) → (part : ℕ → ℕ) × IsPartLabelling S label F part }
{}

/// The border of a part belongs to the border of the whole.
pub fn part_border_belongs_to_the_border()
    ensures holds { (S : List Segment) → (label : Place → ℕ) → (F : ℕ → Bool) → (part : ℕ → ℕ) → IsPartLabelling S label F part →
        (n : ℕ) → All (Contains (border (among label F) S)) (border (among label (in_part F part n)) S) }
{}

/// A point is odd for the border of a part exactly if its label is in the part.
pub fn parity_of_a_part()
    ensures holds { (S : List Segment) → IsArrangement S → IsDistinct S → (label : Place → ℕ) → AgreesWherePlacesMeet S label → (F : ℕ → Bool) →
        F (label outside) ≡ false → (part : ℕ → ℕ) → (n : ℕ) → (z : RationalPoint) → (a : Place) → IsPlaceOf S z a →
        odd (border (among label (in_part F part n)) S) z ≡ in_part F part n (label a) }
{}

/// Points of two parts are separated by an even list of links of the border of the whole.
pub fn parts_are_separated()
    ensures holds { (S : List Segment) → IsArrangement S → IsDistinct S → (label : Place → ℕ) → AgreesWherePlacesMeet S label → (F : ℕ → Bool) →
        F (label outside) ≡ false → (part : ℕ → ℕ) → IsPartLabelling S label F part → (z z' : RationalPoint) →
        (a a' : Place) → IsPlaceOf S z a → IsPlaceOf S z' a' → among label F a ≡ true → among label F a' ≡ true →
        (part (label a) ≡ part (label a') → ⊥) →
        (L : List Segment) × All (Contains (border (among label F) S)) L × IsEven L × (odd L z ≡ true) × (odd L z' ≡ false) }
{}

/// So they are by a ring.
pub fn parts_are_separated_by_a_ring()
    ensures holds { (S : List Segment) → IsArrangement S → IsDistinct S → (label : Place → ℕ) → AgreesWherePlacesMeet S label → (F : ℕ → Bool) →
        F (label outside) ≡ false → (part : ℕ → ℕ) → IsPartLabelling S label F part → (z z' : RationalPoint) →
        (a a' : Place) → IsPlaceOf S z a → IsPlaceOf S z' a' → among label F a ≡ true → among label F a' ≡ true →
        (part (label a) ≡ part (label a') → ⊥) →
        (ring : Path) × IsSeparating (border (among label F) S) z z' ring }
{}

/// Points of one part are not separated by any even list of links of the border of the whole.
pub fn parts_are_not_separated()
    ensures holds { (S : List Segment) → IsArrangement S → (label : Place → ℕ) → IsFaceLabelling S label → (F : ℕ → Bool) →
        (part : ℕ → ℕ) → IsPartLabelling S label F part → (L : List Segment) → All (Contains (border (among label F) S)) L →
        IsEven L → (z z' : RationalPoint) → (a a' : Place) → IsPlaceOf S z a → IsPlaceOf S z' a' → among label F a ≡ true →
        among label F a' ≡ true → part (label a) ≡ part (label a') → odd L z ≡ odd L z' }
{}

// ---- rings

/// An even list of links is, in some order, the links of rings.
pub fn even_lists_are_rings()
    ensures holds { (L : List Segment) → All (λ l. IsBefore l.start l.stop) L → IsEven L →
        (rings : List Path) × All IsRing rings × IsPermutation (links_of_paths rings) L }
{}

/// A border is, in some order, the links of rings that have the inside on their left, each from its least vertex on.
pub fn borders_are_rings()
    ensures holds { (S : List Segment) → IsArrangement S → IsDistinct S → (f : Place → Bool) → AgreesWherePlacesMeet S f →
        (rings : List Path) × All IsRing rings × All StartsLeast rings ×
        IsPermutation (links_of_paths rings) (border f S) × All (λ d. f (left_of d) ≡ true) (darts_of_paths rings) }
{}

/// An even list of links of a part's border is odd on the part exactly if it has the border's lowest link an odd number
/// of times.
pub fn lowest_link_counts_for_the_part()
    ensures holds { (S : List Segment) → IsArrangement S → IsDistinct S → (label : Place → ℕ) → IsFaceLabelling S label →
        (F : ℕ → Bool) → F (label outside) ≡ false → (part : ℕ → ℕ) → IsPartLabelling S label F part → (n : ℕ) →
        (a : Segment) → Contains (border (among label (in_part F part n)) S) a →
        IsLowest (border (among label (in_part F part n)) S) a → (R : List Segment) →
        All (Contains (border (among label (in_part F part n)) S)) R → IsEven R → (z : RationalPoint) → (b : Place) →
        IsPlaceOf S z b → in_part F part n (label b) ≡ true → odd R z ≡ odd_count (same_segment a) R }
{}

/// A ring of a part's border, from its least vertex on and with the part on its left, is odd on the part exactly if it
/// turns left there.
pub fn orientation_of_a_ring()
    ensures holds { (S : List Segment) → IsArrangement S → (label : Place → ℕ) → IsFaceLabelling S label → (F : ℕ → Bool) →
        (part : ℕ → ℕ) → IsPartLabelling S label F part → (n : ℕ) → (ring : Path) → StartsLeast ring →
        All (Contains (border (among label (in_part F part n)) S)) (links_of_path ring) →
        All (λ d. in_part F part n (label (left_of d)) ≡ true) (darts_of_path ring) → (z : RationalPoint) → (b : Place) →
        IsPlaceOf S z b → in_part F part n (label b) ≡ true → odd (links_of_path ring) z ≡ turns_left ring }
{}

/// The rings of a part are a polygon: one exterior, which turns left, and holes, which do not, and together they hold
/// the part.
pub fn rings_of_a_part_are_a_polygon()
    ensures holds { (S : List Segment) → IsArrangement S → IsDistinct S → (label : Place → ℕ) → IsFaceLabelling S label →
        (F : ℕ → Bool) → F (label outside) ≡ false → (part : ℕ → ℕ) → IsPartLabelling S label F part → (n : ℕ) →
        (rings : List Path) → All StartsLeast rings →
        All (λ d. in_part F part n (label (left_of d)) ≡ true) (darts_of_paths rings) →
        IsPermutation (links_of_paths rings) (border (among label (in_part F part n)) S) → (b : Place) → IsBeside S b →
        in_part F part n (label b) ≡ true → IsPolygon S (among label (in_part F part n)) rings }
{}

/// Every part is a polygon.
pub fn each_part_is_a_polygon()
    ensures holds { (S : List Segment) → IsArrangement S → IsDistinct S → (label : Place → ℕ) → IsFaceLabelling S label →
        (F : ℕ → Bool) → F (label outside) ≡ false → (part : ℕ → ℕ) → IsPartLabelling S label F part → (n : ℕ) →
        (b : Place) → IsBeside S b → in_part F part n (label b) ≡ true →
        (rings : List Path) × All IsRing rings ×
        IsPermutation (links_of_paths rings) (border (among label (in_part F part n)) S) ×
        IsPolygon S (among label (in_part F part n)) rings }
{}

// ---- faces and parts as classes of points

/// Two points have one label exactly if they are of one face: no closed runs of links separate them.
pub fn labels_are_the_faces()
    ensures holds { LabelsAreFaces }
{}

/// In a snapped drawing points of one label are held by the same features and boxes.
pub fn labels_have_one_list_of_holders()
    ensures holds { LabelsHaveOneListOfHolders }
{}

/// The sides of a link that belong to the points of a test are those where the test holds.
pub fn sides_are_tested()
    ensures holds { SidesAreTested }
{}

/// The border of a test is the boundary of its points.
pub fn borders_are_boundaries()
    ensures holds { BordersAreBoundaries }
{}

/// Two points of a set of faces are in one part exactly if they are joined in it: no closed runs of its boundary
/// separate them.
pub fn parts_are_the_joined_points()
    ensures holds { PartsAreJoined }
{}

// ---- the steps of a border, used once

/// The steps of every border are used once by rings.
pub fn borders_are_used_once()
    ensures holds { BordersAreUsedOnce }
{}

/// Any rings that use the steps of a part's border once are a polygon that holds the part, wherever each begins.
pub fn parts_used_once_are_polygons()
    ensures holds { PartsUsedOnceArePolygons }
{}
