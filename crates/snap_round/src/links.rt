ghost use Rattle.std.specs.Prelude.{◌≡◌, IfOk};
ghost use Rattle.lists.specs.Lists.{ascending};
ghost use Rattle.plane_model.specs.Points.{link_before};

use grid_base::{Link, LinkList};
use std::alloc::AllocError;

/// The links of a list in ascending order, each once.
pub fn links_in_order(found: Vec<Link>) -> Result<LinkList, AllocError>
    ensures exact { IfOk result (λ links. links ≡ ascending link_before found.items) }
{
    let mut links = found;
    links.sort_unstable();
    links.dedup();
    links.shrink_to_fit();
    LinkList::from_vec(links)
}
