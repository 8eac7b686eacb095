ghost use Rattle.std.specs.Prelude.{◌≡◌, ◌++◌, ◌∷◌, OnOk};
ghost use Rattle.std.specs.Option.{option_to_list};
ghost use Rattle.hot_pixels.specs.Links.{link_along, path_links};

use grid_base::{Link, Pt};
use std::alloc::AllocError;

/// Adds the link between two points; none, where they are equal.
pub fn push_link(links: &mut Vec<Link>, p: Pt, q: Pt) -> Result<(), AllocError>
    ensures added { OnOk result (links.new.items ≡ links.old.items ++ option_to_list (link_along (record { start = p; stop = q }))) }
{
    if let Some(link) = Link::of(p, q) {
        links.push(link)?;
    }
    Ok(())
}

/// Adds the links from a point to the first of the rest, and on.
pub fn add_links_after(links: &mut Vec<Link>, from: Pt, rest: &[Pt]) -> Result<(), AllocError>
    ensures added { OnOk result (links.new.items ≡ links.old.items ++ path_links (from ∷ rest.now)) }
{
    let mut last = from;
    for p in rest {
        push_link(links, last, *p)?;
        last = *p;
    }
    Ok(())
}
