ghost use Rattle.std.specs.Prelude.{◌≡◌, ◌++◌, [], IfOk, OnOk, drop, length, map};
ghost use Rattle.std.specs.Vec.Iter.{into_iter_items, into_iter_len};
ghost use Rattle.lists.specs.Lists.{first_or};
ghost use Rattle.run_state.specs.Targets.{after_all, in_place, in_places, placed, put_out, staying};

use crate::state::HeldLayer;
use crate::targets::is_selected;
use job_terms::{Command, Target};
use run_plane::Layer;
use std::alloc::{AllocError, Global};
use std::vec::IntoIter;

/// The layers after a command that puts out these layers for each layer in order: in the places of its targets, or,
/// with `+`, after all layers. These are the next default targets, and no other layer is one.
///
/// Errors: `AllocError` for want of memory.
pub fn placed(
    alloc: Global,
    layers: Vec<HeldLayer>,
    command: &Command,
    outputs: Vec<Vec<Layer>>,
) -> Result<Vec<HeldLayer>, AllocError>
    ensures placed { IfOk result (λ after. after.items ≡ placed command.now layers.items (map (λ out. out.items) outputs.items)) }
{
    if command.keep {
        after_all(alloc, layers, outputs)
    } else {
        in_places(alloc, layers, &command.target, outputs)
    }
}

fn in_places(
    alloc: Global,
    layers: Vec<HeldLayer>,
    target: &Target,
    outputs: Vec<Vec<Layer>>,
) -> Result<Vec<HeldLayer>, AllocError>
    ensures placed { IfOk result (λ after. after.items ≡ in_places target.now layers.items (map (λ out. out.items) outputs.items)) }
{
    let mut after = Vec::new(alloc);
    let mut coming = outputs.into_iter();
    for held in layers {
        let output = next_of(alloc, &mut coming);
        put_in_place(&mut after, target, held, output)?;
    }
    Ok(after)
}

// The next outputs, or none.
fn next_of(alloc: Global, coming: &mut IntoIter<Vec<Layer>>) -> Vec<Layer>
    requires count { into_iter_len coming.old ≡ length (into_iter_items coming.old) }
    ensures first { result.items ≡ first_or [] (map (λ out. out.items) (into_iter_items coming.old)) }
    ensures rest { map (λ out. out.items) (into_iter_items coming.new) ≡ drop 1 (map (λ out. out.items) (into_iter_items coming.old)) }
    ensures count { into_iter_len coming.new ≡ length (into_iter_items coming.new) }
{
    match coming.next() {
        Some(output) => output,
        None => Vec::new(alloc),
    }
}

fn put_in_place(
    after: &mut Vec<HeldLayer>,
    target: &Target,
    held: HeldLayer,
    output: Vec<Layer>,
) -> Result<(), AllocError>
    ensures put { OnOk result (after.new.items ≡ after.old.items ++ in_place target.now held output.items) }
{
    if is_selected(target, &held) {
        return put_in(after, output);
    }
    after.push(stays(held))?;
    Ok(())
}

fn stays(held: HeldLayer) -> HeldLayer
    ensures exact { result ≡ staying held }
{
    HeldLayer {
        layer: held.layer,
        is_default: false,
    }
}

fn after_all(
    alloc: Global,
    layers: Vec<HeldLayer>,
    outputs: Vec<Vec<Layer>>,
) -> Result<Vec<HeldLayer>, AllocError>
    ensures placed { IfOk result (λ after. after.items ≡ after_all layers.items (map (λ out. out.items) outputs.items)) }
{
    let mut after = all_stay(alloc, layers)?;
    for output in outputs {
        put_in(&mut after, output)?;
    }
    Ok(after)
}

fn all_stay(alloc: Global, layers: Vec<HeldLayer>) -> Result<Vec<HeldLayer>, AllocError>
    ensures each { IfOk result (λ after. after.items ≡ map staying layers.items) }
{
    let mut after = Vec::new(alloc);
    for held in layers {
        after.push(stays(held))?;
    }
    Ok(after)
}

// Appends layers that a command puts out.
fn put_in(place: &mut Vec<HeldLayer>, outputs: Vec<Layer>) -> Result<(), AllocError>
    ensures put { OnOk result (place.new.items ≡ place.old.items ++ map put_out outputs.items) }
{
    for layer in outputs {
        place.push(HeldLayer {
            layer,
            is_default: true,
        })?;
    }
    Ok(())
}
