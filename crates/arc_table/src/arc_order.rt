use crate::half_links::{Net, Step};
use crate::numbering::Way;
use grid_base::{is_before, is_same};
use std::alloc::{AllocError, Global};

/// Where what the arcs have stands in order. It is not proved: a wrong one costs time alone.
#[derive(Drop)]
pub struct ArcOrder {
    /// For each arc where its first step stands among all steps, and where the first step back along it does.
    pub firsts: Vec<u32>,
    /// For each vertex of each arc between its ends where the step from it stands among all steps.
    pub inner: Vec<u32>,
    /// For each link of each arc its number among the links in order.
    pub links: Vec<u32>,
}

/// The order of what arcs have, arc after arc, as far as they were walked.
#[derive(Drop)]
pub struct ArcListing {
    order: ArcOrder,
    // the steps along the arc that is walked
    walked: Vec<u32>,
}

impl ArcListing {
    /// That of no arc, with room for those that go along `ways`.
    pub fn new(alloc: Global, net: &Net, ways: &[Way]) -> Result<ArcListing, AllocError> {
        let links = net.step_count() / 2;
        let order = ArcOrder {
            firsts: Vec::with_capacity(alloc, ways.len().saturating_mul(2))?,
            inner: Vec::with_capacity(alloc, links.saturating_sub(ways.len()))?,
            links: Vec::with_capacity(alloc, links)?,
        };
        Ok(ArcListing {
            order,
            walked: Vec::new(alloc),
        })
    }

    /// Goes on with the arc that goes along a way.
    pub fn add(&mut self, net: &Net, way: Way) -> Result<(), AllocError> {
        walk(&mut self.walked, net, way)?;
        turn_forward(&mut self.walked, net);
        self.order.add_arc(net, &self.walked)
    }

    /// The order of all of them.
    pub fn into_order(self) -> ArcOrder {
        let ArcListing { order, .. } = self;
        order
    }
}

impl ArcOrder {
    // Adds an arc with these steps.
    fn add_arc(&mut self, net: &Net, steps: &[u32]) -> Result<(), AllocError> {
        let Some(first) = steps.first() else {
            return Ok(());
        };
        let mut back = *first;
        for (place, h) in steps.iter().enumerate() {
            back = twin_at(net, *h);
            self.links.push(net.steps.link_at(*h))?;
            if place > 0 {
                self.inner.push(*h)?;
            }
        }
        self.firsts.push(*first)?;
        self.firsts.push(back)?;
        Ok(())
    }
}

// Where the steps along a way stand, in place of what `walked` held.
fn walk(walked: &mut Vec<u32>, net: &Net, way: Way) -> Result<(), AllocError> {
    walked.clear();
    let mut at = way.start;
    for _step in 0..way.steps {
        walked.push(at)?;
        at = number_at(&net.onward, at);
    }
    Ok(())
}

// Turns the steps round, where they go against the direction of their arc.
fn turn_forward(walked: &mut Vec<u32>, net: &Net) {
    if !is_backward(walked, net) {
        return;
    }
    walked.reverse();
    for h in walked.iter_mut() {
        *h = twin_at(net, *h);
    }
}

fn is_backward(walked: &[u32], net: &Net) -> bool {
    let (Some(first), Some(last)) = (step_at(net, walked.first()), step_at(net, walked.last()))
    else {
        return false;
    };
    is_before(last.to(), first.from())
        || is_same(last.to(), first.from()) && is_before(last.from(), first.to())
}

fn step_at(net: &Net, h: Option<&u32>) -> Option<Step> {
    net.steps.get(*h? as usize)
}

fn twin_at(net: &Net, h: u32) -> u32 {
    number_at(&net.twins, h)
}

// The number at a place, which is itself where there is none.
fn number_at(numbers: &[u32], h: u32) -> u32 {
    match numbers.get(h as usize) {
        Some(number) => *number,
        None => h,
    }
}
