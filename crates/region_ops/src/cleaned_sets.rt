ghost use Rattle.std.specs.Prelude.{◌≡◌, All, IfOk, filter, length, map, pos, slice_index_or};
ghost use Rattle.face_walk.specs.Places.{IsBuiltOf};
ghost use Rattle.face_sets.specs.Sets.{IsSetOf, area_of};
ghost use Rattle.region_ops.specs.Cleaned.{AreFirsts, AreWon, IsCleaned, IsFirst, earlier, is_first, ranks_before};
ghost use Rattle.region_ops.specs.Filled.{IsCleanedAndFilled};

use crate::filled_sets::{gifts_of, together};
use arc_table::ArcTable;
use face_sets::{FaceOwners, FaceSet, SetList, gaps, union_of};
use face_walk::Faces;
use grid_base::{FaceId, OverlapRule};
use std::alloc::{AllocError, Global};

/// For each set its faces that no set has which the rule ranks before it, and then the gaps between the sets that go to
/// it, of those of at most the area `gap`, doubled and in squares of the grid.
///
/// A gap goes to the set that ranks first of those that have, after that, a face across an arc round it. Areas are
/// those of the sets as they come. Sets of equal areas are ranked by their numbers, the lowest first. A set may become
/// empty.
/// Cost: one step for each face of each set, and n log n for the n arcs and faces of the table.
pub fn clean_sets(
    alloc: Global,
    t: &ArcTable,
    f: &Faces,
    old: &SetList,
    rule: OverlapRule,
    gap: u128,
) -> Result<SetList, AllocError>
    requires built { IsBuiltOf t.now f.now }
    requires faces { All (IsSetOf f.now) old.now }
    ensures exact { IfOk result (IsCleanedAndFilled rule gap f.now old.now) }
    ensures each { IfOk result (λ sets. length sets ≡ length old.now) }
    ensures inner { IfOk result (All (IsSetOf f.now)) }
{
    let areas = areas_of(alloc, f, old)?;
    let firsts = firsts_of(alloc, f, old, &areas, rule)?;
    let cleaned = without_overlaps(alloc, f, old, &firsts)?;
    let shut_in = gaps(alloc, t, f, &union_of(alloc, old)?)?;
    let gifts = gifts_of(alloc, f, &shut_in, &firsts, &areas, rule, gap)?;
    together(alloc, cleaned, &gifts)
}

/// For each set its faces that no set has which the rule ranks before it, as `clean_sets` leaves it before it looks at
/// gaps.
///
/// Cost: one step for each face of each set, and one for each face of the table.
pub fn separate_sets(
    alloc: Global,
    f: &Faces,
    old: &SetList,
    rule: OverlapRule,
) -> Result<SetList, AllocError>
    requires faces { All (IsSetOf f.now) old.now }
    ensures exact { IfOk result (IsCleaned rule f.now.areas old.now) }
{
    let areas = areas_of(alloc, f, old)?;
    without_overlaps(alloc, f, old, &firsts_of(alloc, f, old, &areas, rule)?)
}

// For each set the faces that it is the first to have.
#[tactic(auto, using(crate::proofs::FirstLemmas::won_more))]
fn without_overlaps(
    alloc: Global,
    f: &Faces,
    old: &SetList,
    firsts: &[Option<u32>],
) -> Result<SetList, AllocError>
    requires faces { All (IsSetOf f.now) old.now }
    ensures exact { IfOk result (AreWon firsts.now old.now (length old.now)) }
    ensures inner { IfOk result (All (IsSetOf f.now)) }
{
    let mut sets = SetList::new(alloc);
    for n in 0..old.len() {
        sets.push(faces_won(alloc, f, &old.as_slice()[n as usize], firsts, n)?)?;
    }
    Ok(sets)
}

// Twice the area of each set.
fn areas_of(alloc: Global, f: &Faces, sets: &SetList) -> Result<Vec<i128>, AllocError>
    requires faces { All (IsSetOf f.now) sets.now }
    ensures exact { IfOk result (λ v. v.items ≡ map (area_of f.now.areas) sets.now) }
{
    let mut areas = Vec::new(alloc);
    for set in sets.as_slice() {
        areas.push(set.twice_area(f)?)?;
    }
    Ok(areas)
}

// For each face the first of the sets that have it.
#[tactic(auto, using(crate::proofs::FirstLemmas::firsts_more))]
fn firsts_of(
    alloc: Global,
    f: &Faces,
    old: &SetList,
    areas: &[i128],
    rule: OverlapRule,
) -> Result<Vec<Option<u32>>, AllocError>
    ensures exact { IfOk result (λ v. AreFirsts rule areas.now old.now f.now.count v.items) }
{
    let owners = FaceOwners::of(alloc, f, old)?;
    let mut firsts = Vec::with_capacity(alloc, f.count() as usize)?;
    for n in 0..f.count() {
        firsts.push(first_of(owners.at(FaceId::new(n)), areas, rule))?;
    }
    Ok(firsts)
}

/// Of the sets with these numbers the one that no other ranks before; `None` where there are none.
pub fn first_of(numbers: &[u32], areas: &[i128], rule: OverlapRule) -> Option<u32>
    ensures exact { IsFirst rule areas.now numbers.now result }
{
    let mut first = None;
    for n in numbers {
        first = Some(earlier(first, *n, areas, rule));
    }
    first
}

fn earlier(first: Option<u32>, n: u32, areas: &[i128], rule: OverlapRule) -> u32
    ensures exact { result ≡ earlier rule areas.now first n }
{
    match first {
        None => n,
        Some(m) => {
            if is_before(rule, m, area_at(areas, m), n, area_at(areas, n)) {
                m
            } else {
                n
            }
        }
    }
}

fn area_at(areas: &[i128], n: u32) -> i128
    ensures exact { result ≡ slice_index_or areas.now n (pos 0) }
{
    match areas.get(n as usize) {
        Some(area) => *area,
        None => 0,
    }
}

// Whether set `m`, of twice the area `a`, ranks before set `n`, of twice the area `b`.
fn is_before(rule: OverlapRule, m: u32, a: i128, n: u32, b: i128) -> bool
    ensures exact { result ≡ ranks_before rule m a n b }
{
    match rule {
        OverlapRule::MinId => m < n,
        OverlapRule::MaxId => n < m,
        OverlapRule::MinArea => a < b || a == b && m < n,
        OverlapRule::MaxArea => b < a || a == b && m < n,
    }
}

// The faces that a set is the first to have.
fn faces_won(
    alloc: Global,
    f: &Faces,
    set: &FaceSet,
    firsts: &[Option<u32>],
    number: u32,
) -> Result<FaceSet, AllocError>
    requires inner { IsSetOf f.now set.now }
    ensures exact { IfOk result (λ s. s ≡ filter (is_first firsts.now number) set.now) }
    ensures inner { IfOk result (IsSetOf f.now) }
{
    let mut won = Vec::new(alloc);
    for face in set.faces() {
        if is_first(firsts, *face, number) {
            won.push(*face)?;
        }
    }
    Ok(FaceSet::from_faces(won))
}

fn is_first(firsts: &[Option<u32>], face: FaceId, number: u32) -> bool
    ensures exact { result ≡ is_first firsts.now number face }
{
    match firsts.get(face.num() as usize) {
        Some(Some(first)) => *first == number,
        _ => false,
    }
}
