ghost use Rattle.std.specs.Prelude.{◌≡◌, ◌<◌, length};
ghost use Rattle.arc_table.specs.Direction.{is_backward, in_direction, IsForward};

use grid_base::{Pt, is_before, is_same};

/// Turns the points of an arc round, where they go against its direction: from its lesser end, or where its ends
/// are one, towards the lesser neighbour.
pub fn turn_forward(points: &mut Vec<Pt>)
    requires { 1 < length points.old.items }
    ensures turned { points.new.items ≡ in_direction points.old.items }
    ensures count { length points.new.items ≡ length points.old.items }
    ensures forward { IsForward points.new.items }
{
    turn_by_ends(points);
}

fn turn_by_ends(points: &mut Vec<Pt>)
    requires { 1 < length points.old.items }
    ensures exact { points.new.items ≡ in_direction points.old.items }
{
    if is_backward(points) {
        points.reverse();
    }
}

fn is_backward(points: &[Pt]) -> bool
    requires { 1 < length points.now }
    ensures exact { result ≡ is_backward points.now }
{
    let last = points.len() - 1;
    is_before(points[last], points[0])
        || is_same(points[last], points[0]) && is_before(points[last - 1], points[1])
}
