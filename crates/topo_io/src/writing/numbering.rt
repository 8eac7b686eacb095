ghost use Rattle.std.specs.Prelude.{◌≡◌, ◌++◌, ◌∷◌, [], ◌<◌, ◌^◌, All, IfOk, OnOk, cond, length, slice_set, true};
ghost use Rattle.topo_io.specs.Arcs.{IsBelow, LayerIsBelow, ShapeIsBelow, named_in_path, named_in_paths, named_in_shape, named_in_layer, named_in_layers, marked, is_named, marks_before, numbers_of_marks};
ghost use Rattle.topo_io.specs.Texts.{renamed};
ghost use Rattle.std.specs.List.{flat_map};

use crate::arc_layer::{ArcLayer, ArcShape};
use arc_table::{ArcList, SignedPath, SignedPaths};
use grid_base::{ArcId, SignedArc};
use std::alloc::{AllocError, Global};

/// The arcs that are used, in order of their numbers, and of each arc how many of them stand before it, which is its
/// new number.
#[derive(Drop)]
pub struct Numbering {
    pub used: ArcList,
    pub numbers: Vec<u32>,
}

impl Numbering {
    /// The numbering of the arcs that these layers use, among `count` arcs.
    pub fn of(alloc: Global, layers: &[ArcLayer], count: u32) -> Result<Numbering, AllocError>
        requires { All (LayerIsBelow count) layers.now }
        ensures used { IfOk result (λ n. n.used ≡ numbers_of_marks 0 (is_named count layers.now)) }
        ensures numbers { IfOk result (λ n. n.numbers.items ≡ marks_before 0 (is_named count layers.now)) }
        ensures there { IfOk result (λ n. All (λ k. k < count) n.used) }
        ensures count { IfOk result (λ n. length n.numbers.items ≡ count) }
    {
        let mut is_used = vec![in alloc; false; count as usize]?;
        mark_layers(&mut is_used, layers);
        let used = used_of(alloc, &is_used)?;
        let numbers = numbers_of(alloc, &is_used)?;
        Ok(Numbering { used, numbers })
    }

    /// The arc by its new number.
    pub fn renamed(&self, arc: SignedArc) -> SignedArc
        requires { arc.arc < length self.now.numbers.items }
        ensures exact { result ≡ renamed self.now.numbers.items arc }
    {
        let id = ArcId::new(self.numbers[arc.id().num() as usize]);
        if arc.is_reversed() {
            SignedArc::backward(id)
        } else {
            SignedArc::forward(id)
        }
    }
}

fn mark(is_used: &mut [bool], arc: SignedArc)
    requires { arc.arc < length is_used.old }
    ensures marked { is_used.new ≡ slice_set is_used.old arc.arc true }
    ensures count { length is_used.new ≡ length is_used.old }
{
    is_used[arc.id().num() as usize] = true;
}

fn mark_path(is_used: &mut [bool], path: &[SignedArc])
    requires { All (IsBelow (length is_used.old)) path.now }
    ensures marked { is_used.new ≡ marked is_used.old (named_in_path path.now) }
    ensures count { length is_used.new ≡ length is_used.old }
{
    for arc in path {
        mark(is_used, *arc);
    }
}

fn mark_paths(is_used: &mut [bool], paths: &[SignedPath])
    requires { All (All (IsBelow (length is_used.old))) paths.now }
    ensures marked { is_used.new ≡ marked is_used.old (named_in_paths paths.now) }
    ensures count { length is_used.new ≡ length is_used.old }
{
    for path in paths {
        mark_path(is_used, path.as_slice());
    }
}

fn mark_polygons(is_used: &mut [bool], polygons: &[SignedPaths])
    requires { All (All (All (IsBelow (length is_used.old)))) polygons.now }
    ensures marked { is_used.new ≡ marked is_used.old (flat_map named_in_paths polygons.now) }
    ensures count { length is_used.new ≡ length is_used.old }
{
    for polygon in polygons {
        mark_paths(is_used, polygon.as_slice());
    }
}

fn mark_shape(is_used: &mut [bool], shape: &ArcShape)
    requires { ShapeIsBelow (length is_used.old) shape.now }
    ensures marked { is_used.new ≡ marked is_used.old (named_in_shape shape.now) }
    ensures count { length is_used.new ≡ length is_used.old }
{
    match shape {
        ArcShape::Nothing => {}
        ArcShape::Points(_) => {}
        ArcShape::Lines(lines) => mark_paths(is_used, lines.as_slice()),
        ArcShape::Polygons(polygons) => mark_polygons(is_used, polygons.as_slice()),
    }
}

fn mark_layer(is_used: &mut [bool], shapes: &[ArcShape])
    requires { All (ShapeIsBelow (length is_used.old)) shapes.now }
    ensures marked { is_used.new ≡ marked is_used.old (flat_map named_in_shape shapes.now) }
    ensures count { length is_used.new ≡ length is_used.old }
{
    for shape in shapes {
        mark_shape(is_used, shape);
    }
}

fn mark_layers(is_used: &mut [bool], layers: &[ArcLayer])
    requires { All (LayerIsBelow (length is_used.old)) layers.now }
    ensures marked { is_used.new ≡ marked is_used.old (named_in_layers layers.now) }
    ensures count { length is_used.new ≡ length is_used.old }
{
    for layer in layers {
        mark_layer(is_used, layer.shapes.as_slice());
    }
}

// Adds a number, where it is used.
fn push_used(used: &mut ArcList, n: u32, is_used: bool) -> Result<(), AllocError>
    ensures added { OnOk result (used.new ≡ used.old ++ cond is_used (n ∷ []) []) }
{
    if is_used {
        used.push(ArcId::new(n))?;
    }
    Ok(())
}

fn used_of(alloc: Global, is_used: &[bool]) -> Result<ArcList, AllocError>
    requires { length is_used.now < 2 ^ 32 }
    ensures exact { IfOk result (λ ids. ids ≡ numbers_of_marks 0 is_used.now) }
    ensures there { IfOk result (λ ids. All (λ k. k < length is_used.now) ids) }
{
    let mut used = ArcList::new(alloc);
    for n in 0..is_used.len() {
        push_used(&mut used, n as u32, is_used[n])?;
    }
    Ok(used)
}

fn numbers_of(alloc: Global, is_used: &[bool]) -> Result<Vec<u32>, AllocError>
    requires { length is_used.now < 2 ^ 32 }
    ensures exact { IfOk result (λ v. v.items ≡ marks_before 0 is_used.now) }
    ensures count { IfOk result (λ v. length v.items ≡ length is_used.now) }
{
    let mut numbers = Vec::with_capacity(alloc, is_used.len())?;
    let mut next: u32 = 0;
    for used in is_used {
        numbers.push(next)?;
        if *used {
            next += 1;
        }
    }
    Ok(numbers)
}
