ghost use Rattle.std.specs.Prelude.{◌≡◌, ◌<◌, [], All, IfOk, OnOk, length, map, slice_index_or};
ghost use Rattle.std.specs.List.Sorted.{IsStrictlyIncreasing};
ghost use Rattle.face_sets.specs.Owners.{AreOwners, IsNumbered, with_number};

use crate::set_list::SetList;
use face_walk::Faces;
use grid_base::{FaceId, empty_lists};
use std::alloc::{AllocError, Global};
use std::marker::Model;

/// For each face the numbers of the sets of a list that have it, ascending.
#[derive(Drop)]
pub struct FaceOwners {
    lists: Vec<Vec<u32>>,
}

impl Model for FaceOwners {
    ghost use Rattle.std.specs.Prelude.{List, ℕ, map};

    ghost Value = { List (List ℕ) };

    ghost view = { λ o. map (λ v. v.items) o.lists.items };
}

impl FaceOwners {
    /// The owners of all faces.
    ///
    /// Cost: one step for each face of each set, and one for each face of the table.
    pub fn of(alloc: Global, f: &Faces, sets: &SetList) -> Result<FaceOwners, AllocError>
        ensures exact { IfOk result (AreOwners sets.now f.now.count) }
        ensures each { IfOk result (λ o. length o ≡ f.now.count) }
        ensures numbers { IfOk result (All (All (λ n. n < length sets.now))) }
    {
        let mut lists = empty_lists(alloc, f.count() as usize)?;
        for n in 0..sets.len() {
            add_owner(&mut lists, sets.as_slice()[n as usize].faces(), n)?;
        }
        Ok(FaceOwners { lists })
    }

    /// The numbers of the sets that have a face, ascending; none for a face that isn't there. Takes no memory.
    pub fn at(&self, f: FaceId) -> &[u32]
        ensures exact { result.now ≡ slice_index_or self.now f [] }
    {
        match self.lists.get(f.num() as usize) {
            Some(list) => list,
            None => &[],
        }
    }
}

// Puts the number of a set to the owners of each of its faces.
fn add_owner(lists: &mut Vec<Vec<u32>>, faces: &[FaceId], n: u32) -> Result<(), AllocError>
    requires { IsStrictlyIncreasing faces.now }
    ensures ok { OnOk result (IsNumbered n faces.now (map (λ list. list.items) lists.old.items) (map (λ list. list.items) lists.new.items)) }
{
    for face in faces {
        put_number(lists, face.num() as usize, n)?;
    }
    Ok(())
}

/// Appends a number to the list at a place, where there is one.
pub fn put_number(lists: &mut Vec<Vec<u32>>, place: usize, n: u32) -> Result<(), AllocError>
    ensures put { OnOk result (map (λ list. list.items) lists.new.items ≡ with_number n place (map (λ list. list.items) lists.old.items)) }
{
    if place < lists.len() {
        lists[place].push(n)?;
    }
    Ok(())
}
