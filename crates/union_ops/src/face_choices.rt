ghost use Rattle.std.specs.Prelude.{◌≡◌, [], IfOk, slice_get, slice_index_or};
ghost use Rattle.std.specs.Cmp.Lexicographic.{slice_cmp};
ghost use Rattle.union_ops.specs.Choices.{AreChoices, AreLayerOwners, choice_among, has_number, number_order as order_of_numbers};

use crate::union_lists::LayerSets;
use face_groups::FaceKeys;
use face_sets::FaceOwners;
use face_walk::Faces;
use grid_base::FaceId;
use std::alloc::{AllocError, Global};
use std::cmp::Ordering;
use std::marker::Model;

/// For each face its choice: for each layer the first set that has it, or none.
#[derive(Drop)]
pub(crate) struct FaceChoices {
    lists: Vec<Vec<Option<u32>>>,
}

impl Model for FaceChoices {
    ghost use Rattle.std.specs.Prelude.{List, Option, ℕ, map};

    ghost Value = { List (List (Option ℕ)) };

    ghost view = { λ c. map (λ v. v.items) c.lists.items };
}

impl FaceChoices {
    /// The choices of all faces.
    ///
    /// Cost: one step for each face of each set, and one for each layer at each face of the table.
    pub(crate) fn of(
        alloc: Global,
        f: &Faces,
        layers: &LayerSets,
    ) -> Result<FaceChoices, AllocError>
        ensures exact { IfOk result (AreChoices layers.now f.now.count) }
    {
        let owners = layer_owners(alloc, f, layers)?;
        let mut lists = Vec::with_capacity(alloc, f.count() as usize)?;
        for n in 0..f.count() {
            lists.push(choice_of(alloc, &owners, FaceId::new(n))?)?;
        }
        Ok(FaceChoices { lists })
    }

    /// The choice of a face; of no layers for a face that isn't there. Takes no memory.
    pub(crate) fn at(&self, f: FaceId) -> &[Option<u32>]
        ensures exact { result.now ≡ slice_index_or self.now f [] }
    {
        match self.lists.get(f.num() as usize) {
            Some(list) => list,
            None => &[],
        }
    }
}

// The choices in lexicographic order; no key where no layer has a set.
impl FaceKeys for FaceChoices {
    ghost use Rattle.union_ops.specs.Union.{chosen_before, is_chosen};

    ghost is_keyed = { is_chosen };

    ghost comes_before = { chosen_before };

    fn has_key(&self, face: FaceId) -> bool {
        has_number(self.at(face))
    }

    fn order(&self, a: FaceId, b: FaceId) -> Ordering {
        choice_order(self.at(a), self.at(b))
    }
}

// For each layer the sets that have each face.
fn layer_owners(alloc: Global, f: &Faces, layers: &LayerSets) -> Result<Vec<FaceOwners>, AllocError>
    ensures made { IfOk result (λ v. AreLayerOwners layers.now f.now.count v.items) }
{
    let mut owners = Vec::new(alloc);
    for sets in layers.as_slice() {
        owners.push(FaceOwners::of(alloc, f, sets)?)?;
    }
    Ok(owners)
}

fn choice_of(
    alloc: Global,
    owners: &[FaceOwners],
    face: FaceId,
) -> Result<Vec<Option<u32>>, AllocError>
    ensures exact { IfOk result (λ v. v.items ≡ choice_among owners.now face) }
{
    let mut choice = Vec::with_capacity(alloc, owners.len())?;
    for layer in owners {
        choice.push(first_number(layer.at(face)))?;
    }
    Ok(choice)
}

fn first_number(numbers: &[u32]) -> Option<u32>
    ensures exact { result ≡ slice_get numbers.now 0 }
{
    numbers.first().copied()
}

// Whether some layer has a set in the choice.
fn has_number(choice: &[Option<u32>]) -> bool
    ensures exact { result ≡ has_number choice.now }
{
    for number in choice {
        if number.is_some() {
            return true;
        }
    }
    false
}

// Choices in lexicographic order.
fn choice_order(a: &[Option<u32>], b: &[Option<u32>]) -> Ordering
    ensures exact { result ≡ slice_cmp order_of_numbers a.now b.now }
{
    for i in 0..a.len() {
        if i >= b.len() {
            return Ordering::Greater;
        }
        match number_order(a[i], b[i]) {
            Ordering::Equal => {}
            order => return order,
        }
    }
    if a.len() < b.len() {
        Ordering::Less
    } else {
        Ordering::Equal
    }
}

// Numbers ascend, and none comes after them.
fn number_order(a: Option<u32>, b: Option<u32>) -> Ordering
    ensures exact { result ≡ order_of_numbers a b }
{
    match (a, b) {
        (Some(m), Some(n)) => m.cmp(&n),
        (Some(_), None) => Ordering::Less,
        (None, Some(_)) => Ordering::Greater,
        (None, None) => Ordering::Equal,
    }
}
