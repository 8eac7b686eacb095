ghost use Rattle.std.specs.Prelude.{◌≡◌, ◌+◌, ◌<◌, ◌≤◌, ◌++◌, [], IfOk, OnErr, OnOk, Some, length, replicate, slice_get, slice_index_or, slice_range, slice_set};

use grid_base::{FaceId, next_number};
use std::alloc::{AllocError, Global};
use std::marker::Model;

/// Where a list stands among the items of all lists.
#[derive(Clone, Copy)]
pub struct Span {
    pub start: u32,
    pub stop: u32,
}

/// A list for each face, by its number. The items of all lists stand in one `Vec`.
#[derive(Drop)]
pub struct FaceLists<T> {
    items: Vec<T>,
    spans: Vec<Span>,
}

impl<T> Model for FaceLists<T> {
    ghost use Rattle.std.specs.Prelude.{List, All, length};
    ghost use Rattle.face_walk.specs.FaceLists.{IsWithin, lists_in};

    ghost Value = { List (List T) };

    ghost view = { λ l. lists_in l.items.items l.spans.items };

    ghost invariant = { λ l. All (IsWithin (length l.items.items)) l.spans.items };
}

impl<T: Copy> FaceLists<T> {
    /// As many empty lists as `count` says.
    pub fn empty(alloc: Global, count: u32) -> Result<FaceLists<T>, AllocError>
        ensures exact { IfOk result (λ lists. lists ≡ replicate count []) }
    {
        let spans = vec![in alloc; Span { start: 0, stop: 0 }; count as usize]?;
        Ok(FaceLists {
            items: Vec::new(alloc),
            spans,
        })
    }

    /// The list of a face. Takes no memory.
    pub fn at(&self, face: FaceId) -> &[T]
        requires there { face < length self.now }
        ensures exact { result.now ≡ slice_index_or self.now face [] }
    {
        let span = span_at(&self.spans, face.num() as usize);
        part(&self.items, span)
    }

    /// Gives a face another list. The items of the one that it had stay in memory.
    ///
    /// Errors: `AllocError` for want of memory, or where all items are more than a `u32` counts.
    pub fn put(&mut self, face: FaceId, list: &[T]) -> Result<(), AllocError>
        requires there { face < length self.old }
        ensures ok { OnOk result (self.new ≡ slice_set self.old face list.now) }
        ensures err { OnErr result (self.new ≡ self.old) }
    {
        let span = append(&mut self.items, list)?;
        self.spans[face.num() as usize] = span;
        Ok(())
    }
}

fn span_at(spans: &[Span], face: usize) -> Span
    requires there { face < length spans.now }
    ensures exact { slice_get spans.now face ≡ Some result }
{
    spans[face]
}

fn part<T>(items: &[T], span: Span) -> &[T]
    requires ordered { span.start ≤ span.stop }
    requires within { span.stop ≤ length items.now }
    ensures exact { result.now ≡ slice_range items.now span.start span.stop }
{
    &items[span.start as usize..span.stop as usize]
}

// Adds a list at the end, and answers where it stands.
fn append<T: Copy>(items: &mut Vec<T>, list: &[T]) -> Result<Span, AllocError>
    ensures ok { OnOk result (items.new.items ≡ items.old.items ++ list.now) }
    ensures err { OnErr result (items.new.items ≡ items.old.items) }
    ensures start { IfOk result (λ span. span.start ≡ length items.old.items) }
    ensures stop { IfOk result (λ span. span.stop ≡ length items.old.items + length list.now) }
{
    let start = next_number(items.len())?;
    let stop = next_number(items.len().saturating_add(list.len()))?;
    items.extend_from_slice(list)?;
    Ok(Span { start, stop })
}
