ghost use Rattle.std.specs.Prelude.{◌≡◌, ◌<◌, ◌≤◌, ◌^◌, IfOk, length, slice_index, vec_len};
ghost use Rattle.face_walk.specs.Joining.{AreAlone, AreClasses, GoesDown, least_numbers, made_one};

use std::alloc::{AllocError, Global};
use std::marker::Model;

/// Numbers from 0 in classes, which grow where two numbers are joined. A class is known by its least number; contracts
/// see the list of these, number by number.
///
/// Cost: of n numbers and m joins and questions, about (n + m) log n.
#[derive(Drop)]
pub struct Joining {
    // for each number one of its class that is less, or where there is none itself
    lesser: Vec<u32>,
}

impl Model for Joining {
    ghost use Rattle.std.specs.Prelude.{List, ℕ, ◌<◌, ◌^◌, length};
    ghost use Rattle.face_walk.specs.Joining.{GoesDown, least_numbers};

    ghost Value = { List ℕ };

    ghost view = { λ j. least_numbers j.lesser.items };

    ghost invariant = { λ j. GoesDown j.lesser.items × (length j.lesser.items < 2 ^ 32) };
}

impl Joining {
    /// The numbers from 0 to below `count`, each in a class of its own.
    pub fn new(alloc: Global, count: u32) -> Result<Joining, AllocError>
        ensures count { IfOk result (λ j. length j ≡ count) }
        ensures alone { IfOk result AreAlone }
    {
        let mut lesser = Vec::with_capacity(alloc, count as usize)?;
        for n in 0..count {
            lesser.push(n)?;
        }
        Ok(Joining { lesser })
    }

    /// How many numbers there are, not classes.
    pub fn count(&self) -> u32
        ensures exact { result ≡ length self.now }
        ensures classes { AreClasses self.now }
    {
        self.lesser.len() as u32
    }

    /// The least number of the class of a number. Takes no memory.
    pub fn least(&self, n: u32) -> u32
        requires { n < length self.now }
        ensures exact { result ≡ slice_index self.now n }
        ensures lesser { result ≤ n }
    {
        least_of(&self.lesser, n)
    }

    /// Makes one class of the classes of two numbers. Takes no memory.
    pub fn join(&mut self, m: u32, n: u32)
        requires first { m < length self.old }
        requires second { n < length self.old }
        ensures exact { self.new ≡ made_one m n self.old }
        ensures count { length self.new ≡ length self.old }
    {
        join_two(&mut self.lesser, m, n)
    }
}

fn join_two(lesser: &mut [u32], m: u32, n: u32)
    requires down { GoesDown lesser.old }
    requires first { m < length lesser.old }
    requires second { n < length lesser.old }
    ensures down { GoesDown lesser.new }
    ensures count { length lesser.new ≡ length lesser.old }
    ensures exact { least_numbers lesser.new ≡ made_one m n (least_numbers lesser.old) }
{
    let first = shorten(lesser, m);
    let second = shorten(lesser, n);
    if first < second {
        lesser[second as usize] = first;
    } else {
        lesser[first as usize] = second;
    }
}

fn least_of(lesser: &[u32], n: u32) -> u32
    requires down { GoesDown lesser.now }
    requires there { n < length lesser.now }
    ensures exact { result ≡ slice_index (least_numbers lesser.now) n }
    ensures lesser { result ≤ n }
{
    let mut at = n;
    while lesser[at as usize] != at {
        at = lesser[at as usize];
    }
    at
}

// The least number of a class; on the way the numbers are led past every other one.
fn shorten(lesser: &mut [u32], n: u32) -> u32
    requires down { GoesDown lesser.old }
    requires there { n < length lesser.old }
    ensures down { GoesDown lesser.new }
    ensures count { length lesser.new ≡ length lesser.old }
    ensures classes { least_numbers lesser.new ≡ least_numbers lesser.old }
    ensures exact { result ≡ slice_index (least_numbers lesser.old) n }
    ensures least { result ≤ n }
{
    let mut at = n;
    while lesser[at as usize] != at {
        let over = lesser[at as usize];
        let next = lesser[over as usize];
        lesser[at as usize] = next;
        at = next;
    }
    at
}
