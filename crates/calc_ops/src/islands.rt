ghost use Rattle.std.specs.Prelude.{◌≡◌, ◌<◌, ◌+◌, ◌-◌, ◌++◌, ◌∷◌, [], ℕ, List, All, IfOk, OnOk, if◌then◌else◌, int_lt, length, nat_eq, pos, ◌&&◌};
ghost use Rattle.lists.specs.Lists.{same_list};
ghost use Rattle.plane_model.specs.Points.{Path};
ghost use Rattle.face_walk.specs.Places.{HasArc, IsBuiltOf, face_left_of};
ghost use Rattle.face_sets.specs.Boundary.{is_outward, outward_at};
ghost use Rattle.face_sets.specs.Owners.{AreOwners, owners_of};
ghost use Rattle.face_sets.specs.Sets.{IsSetOf, area_of};
ghost use Rattle.calc_ops.specs.Islands.{AreWithoutIslands, IsWithoutIslands, border, is_detached, is_island, is_small, links_of, stands_alone};

use arc_table::ArcTable;
use face_sets::{FaceOwners, FaceSet, SetList, parts};
use face_walk::Faces;
use grid_base::{FaceId, SignedArc};
use std::alloc::{AllocError, Global};

// Below which size a detached part is an island.
#[derive(Clone, Copy)]
struct Least {
    /// Twice an area, in squares of the grid.
    area: u128,
    links: u32,
}

/// Each set without its islands. A set may become empty.
///
/// A part of a set is detached where along each link of its boundary this set alone has the inner side and no set the
/// outer one; a set that touches it at a vertex alone doesn't matter. A detached part is an island where twice its
/// area is below `least_area`, or where its boundary, with that of its holes, has fewer than `least_links` links.
/// Areas are in squares of the grid.
/// Cost: n log n for the n arcs beside faces of the sets.
pub fn drop_islands(
    alloc: Global,
    t: &ArcTable,
    f: &Faces,
    old: &SetList,
    least_area: u128,
    least_links: u32,
) -> Result<SetList, AllocError>
    requires built { IsBuiltOf t.now f.now }
    requires faces { All (IsSetOf f.now) old.now }
    ensures exact { IfOk result (AreWithoutIslands t.now f.now old.now least_area least_links (length old.now)) }
    ensures each { IfOk result (λ sets. length sets ≡ length old.now) }
    ensures inner { IfOk result (All (IsSetOf f.now)) }
{
    let least = Least {
        area: least_area,
        links: least_links,
    };
    let owners = FaceOwners::of(alloc, f, old)?;
    let mut sets = SetList::new(alloc);
    for n in 0..old.len() {
        let set = &old.as_slice()[n as usize];
        sets.push(without_islands(alloc, t, f, &owners, set, n, least)?)?;
    }
    Ok(sets)
}

fn without_islands(
    alloc: Global,
    t: &ArcTable,
    f: &Faces,
    owners: &FaceOwners,
    set: &FaceSet,
    n: u32,
    least: Least,
) -> Result<FaceSet, AllocError>
    requires built { IsBuiltOf t.now f.now }
    requires faces { IsSetOf f.now set.now }
    ensures exact { (sets : List (List ℕ)) → AreOwners sets f.now.count owners.now → IfOk result (IsWithoutIslands t.now f.now sets least.area least.links n set.now) }
    ensures inner { IfOk result (IsSetOf f.now) }
{
    let pieces = parts(alloc, t, f, set)?;
    let mut faces = Vec::new(alloc);
    for piece in pieces.as_slice() {
        let drops = is_island(alloc, t, f, owners, n, piece, least)?;
        append_unless(&mut faces, piece.faces(), drops)?;
    }
    Ok(FaceSet::from_faces(faces))
}

fn append_unless(faces: &mut Vec<FaceId>, more: &[FaceId], drops: bool) -> Result<(), AllocError>
    ensures appended { OnOk result (faces.new.items ≡ faces.old.items ++ (if drops then [] else more.now)) }
{
    if !drops {
        faces.extend_from_slice(more)?;
    }
    Ok(())
}

// Whether a part of a set is detached and small.
fn is_island(
    alloc: Global,
    t: &ArcTable,
    f: &Faces,
    owners: &FaceOwners,
    n: u32,
    piece: &FaceSet,
    least: Least,
) -> Result<bool, AllocError>
    requires built { IsBuiltOf t.now f.now }
    requires faces { IsSetOf f.now piece.now }
    ensures exact { (sets : List (List ℕ)) → AreOwners sets f.now.count owners.now → IfOk result (λ island. island ≡ is_island t.now f.now sets least.area least.links n piece.now) }
{
    let around = border_of(alloc, f, piece)?;
    if !is_detached(f, owners, n, &around) {
        return Ok(false);
    }
    is_small(t, f, piece, &around, least)
}

// The boundary of a part, face by face.
fn border_of(alloc: Global, f: &Faces, piece: &FaceSet) -> Result<Vec<SignedArc>, AllocError>
    ensures exact { (arcs : List Path) → IsBuiltOf arcs f.now → IfOk result (λ around. around.items ≡ border arcs f.now piece.now) }
    ensures there { IfOk result (λ around. All (HasArc f.now) around.items) }
{
    let mut around = Vec::new(alloc);
    let faces = piece.faces();
    for face in faces {
        push_border(&mut around, f, piece, *face)?;
    }
    Ok(around)
}

// Adds the arcs round one face across which no face of the part lies.
fn push_border(
    around: &mut Vec<SignedArc>,
    f: &Faces,
    piece: &FaceSet,
    face: FaceId,
) -> Result<(), AllocError>
    requires there { All (HasArc f.now) around.old.items }
    ensures exact { (arcs : List Path) → IsBuiltOf arcs f.now → OnOk result (around.new.items ≡ around.old.items ++ outward_at f.now.places (length arcs) piece.now face) }
    ensures there { OnOk result (All (HasArc f.now) around.new.items) }
{
    let round = f.arcs_of(face);
    for arc in round {
        push_if(around, *arc, leads_out(f, piece, *arc))?;
    }
    Ok(())
}

fn push_if(around: &mut Vec<SignedArc>, arc: SignedArc, is_pushed: bool) -> Result<(), AllocError>
    ensures pushed { OnOk result (around.new.items ≡ around.old.items ++ (if is_pushed then arc ∷ [] else [])) }
{
    if is_pushed {
        around.push(arc)?;
    }
    Ok(())
}

// Whether no face of the part is on the right of a signed arc.
fn leads_out(f: &Faces, piece: &FaceSet, arc: SignedArc) -> bool
    requires arc { HasArc f.now arc }
    ensures exact { result ≡ is_outward f.now.places piece.now arc }
{
    !piece.has(f.left_of(arc.flip()))
}

// Whether a set alone has the inner side of a boundary, and no set the outer side.
fn is_detached(f: &Faces, owners: &FaceOwners, n: u32, around: &[SignedArc]) -> bool
    requires there { All (HasArc f.now) around.now }
    ensures exact { (sets : List (List ℕ)) → AreOwners sets f.now.count owners.now → result ≡ is_detached f.now sets n around.now }
{
    for arc in around {
        if !stands_alone(f, owners, n, *arc) {
            return false;
        }
    }
    true
}

// Whether a set alone has the left side of a signed arc, and none the right side.
fn stands_alone(f: &Faces, owners: &FaceOwners, n: u32, arc: SignedArc) -> bool
    requires arc { HasArc f.now arc }
    ensures exact { (sets : List (List ℕ)) → AreOwners sets f.now.count owners.now → result ≡ stands_alone f.now sets n arc }
{
    let left = sets_left_of(f, owners, arc);
    let right = sets_left_of(f, owners, arc.flip());
    are_alone(left, right, n)
}

fn are_alone(left: &[u32], right: &[u32], n: u32) -> bool
    ensures exact { result ≡ same_list nat_eq left.now (n ∷ []) && same_list nat_eq right.now [] }
{
    is_only(left, n) && is_none(right)
}

// The sets that have the left side of a signed arc.
fn sets_left_of<'a>(f: &Faces, owners: &'a FaceOwners, arc: SignedArc) -> &'a [u32]
    requires arc { HasArc f.now arc }
    ensures exact { (sets : List (List ℕ)) → AreOwners sets f.now.count owners.now → result.now ≡ owners_of sets (face_left_of f.now.places arc) }
{
    owners.at(f.left_of(arc))
}

fn is_only(numbers: &[u32], n: u32) -> bool
    ensures exact { result ≡ same_list nat_eq numbers.now (n ∷ []) }
{
    match numbers {
        [only] => *only == n,
        _ => false,
    }
}

fn is_none(numbers: &[u32]) -> bool
    ensures exact { result ≡ same_list nat_eq numbers.now [] }
{
    match numbers {
        [] => true,
        _ => false,
    }
}

// Whether a part has less than an area, or its boundary fewer than a number of links.
fn is_small(
    t: &ArcTable,
    f: &Faces,
    piece: &FaceSet,
    around: &[SignedArc],
    least: Least,
) -> Result<bool, AllocError>
    requires faces { IsSetOf f.now piece.now }
    requires there { All (λ a. a.arc < length t.now) around.now }
    ensures exact { IfOk result (λ small. small ≡ is_small least.area least.links (area_of f.now.areas piece.now) (links_of t.now around.now)) }
{
    if is_less(piece.twice_area(f)?, least.area) {
        return Ok(true);
    }
    Ok(links_of(t, around)? < u64::from(least.links))
}

fn is_less(area: i128, least: u128) -> bool
    ensures exact { result ≡ int_lt area (pos least) }
{
    match u128::try_from(area) {
        Ok(area) => area < least,
        Err(_) => true,
    }
}

fn links_of(t: &ArcTable, around: &[SignedArc]) -> Result<u64, AllocError>
    requires there { All (λ a. a.arc < length t.now) around.now }
    ensures exact { IfOk result (λ links. links ≡ links_of t.now around.now) }
{
    let mut links = 0u64;
    for arc in around {
        links = with_links(links, t.points_of(arc.id()).len())?;
    }
    Ok(links)
}

// A number of links, with those of an arc of `points` points added.
fn with_links(links: u64, points: usize) -> Result<u64, AllocError>
    requires some { 1 < points }
    ensures exact { IfOk result (λ more. more ≡ links + (points - 1)) }
{
    links.checked_add(points as u64 - 1).ok_or(AllocError)
}
