ghost use Rattle.std.specs.Prelude.{◌≡◌, ℕ, ◌-◌, ◌<◌, ◌≤◌, ◌↔◌, [], ◌++◌, true, false, length, replicate, slice_set, IsTrue, IsOk, OnOk, OnErr};
ghost use Rattle.std.specs.Bool.{OnTrue, OnFalse};
ghost use Rattle.tl_numbers.specs.Layers.{IsLayered, bit_in};
ghost use Rattle.tl_numbers.specs.Members.{HasNone, HasSome, IsGreatest, IsGreatestBelow, IsLeast, IsLeastFrom, IsMember};

use crate::word::WORD_BITS;
use crate::words::{bit, erase, first_from, grow, last_below, write};
use std::alloc::{AllocError, Global};
use std::marker::Model;

/// Every bound is below it: 16,777,216 numbers, which is what four layers of words hold.
pub const BOUND_LIMIT: usize = WORD_BITS * WORD_BITS * WORD_BITS * WORD_BITS;

/// A set of numbers below a bound. Contracts see a list as long as the bound, which says of each
/// number whether it is a member.
///
/// Bit `n` of the first layer says whether `n` is a member, and bit `n` of each other layer whether
/// word `n` of the layer below it is not zero. So every method but `room` and `clear` takes a number
/// of steps that depends on the number of layers alone, whatever the bound, and all but `room` take
/// no memory.
#[derive(Debug, Drop)]
pub struct NumberSet {
    bound: usize,
    first: Vec<u64>,
    second: Vec<u64>,
    third: Vec<u64>,
    fourth: Vec<u64>,
}

impl Model for NumberSet {
    ghost use Rattle.std.specs.Prelude.{Bool, List};
    ghost use Rattle.tl_numbers.specs.Layers.{IsLayered, members_of};

    ghost Value = { List Bool };

    ghost view = { λ s. members_of s.bound s.first.items };

    ghost invariant = { λ s. IsLayered s.bound s.first.items s.second.items s.third.items s.fourth.items };
}

impl NumberSet {
    /// The empty set below 0. It takes no memory.
    pub fn new(alloc: Global) -> NumberSet
        ensures { result ≡ [] }
    {
        NumberSet {
            bound: 0,
            first: Vec::new(alloc),
            second: Vec::new(alloc),
            third: Vec::new(alloc),
            fourth: Vec::new(alloc),
        }
    }

    /// Makes room, so that the numbers below `bound` may be members. The members stay, and the bound
    /// never shrinks. `Err` is want of memory, or a bound that is not below `BOUND_LIMIT`, and changes
    /// nothing.
    pub fn room(&mut self, bound: usize) -> Result<(), AllocError>
        ensures room { OnOk result
            (self.new ≡ self.old ++ replicate (bound - length self.old) false) }
        ensures err { OnErr result (self.new ≡ self.old) }
        ensures enough { bound ≤ length self.old → IsOk result }
    {
        if bound <= self.bound {
            return Ok(());
        }
        if bound >= BOUND_LIMIT {
            return Err(AllocError);
        }
        grow_all(
            &mut self.first,
            &mut self.second,
            &mut self.third,
            &mut self.fourth,
            bound,
        )?;
        self.bound = bound;
        Ok(())
    }

    /// The bound: every member is below it.
    pub fn bound(&self) -> usize
        ensures { result ≡ length self.now }
    {
        self.bound
    }

    /// Makes a number a member.
    pub fn insert(&mut self, n: usize)
        requires { n < length self.old }
        ensures { self.new ≡ slice_set self.old n true }
    {
        self.set(n, true);
    }

    /// Takes a number out. One that is no member changes nothing.
    pub fn remove(&mut self, n: usize)
        ensures { self.new ≡ slice_set self.old n false }
    {
        if n < self.bound {
            self.set(n, false);
        }
    }

    /// Whether a number is a member; one past the bound is not.
    pub fn contains(&self, n: usize) -> bool
        ensures { IsTrue result ↔ IsMember self.now n }
    {
        bit(&self.first, n)
    }

    /// Whether there is no member.
    pub fn is_empty(&self) -> bool
        ensures none { OnTrue result (HasNone self.now) }
        ensures some { OnFalse result (HasSome self.now) }
    {
        self.least().is_none()
    }

    /// The least member; `None` where there is none.
    pub fn least(&self) -> Option<usize>
        ensures { IsLeast self.now result }
    {
        self.least_from(0)
    }

    /// The greatest member; `None` where there is none.
    pub fn greatest(&self) -> Option<usize>
        ensures { IsGreatest self.now result }
    {
        self.greatest_below(self.bound)
    }

    /// The greatest member that is below `n`; `None` where there is none.
    pub fn greatest_below(&self, n: usize) -> Option<usize>
        ensures { IsGreatestBelow self.now n result }
    {
        let first = n.min(self.bound);
        let second = first / WORD_BITS;
        let third = second / WORD_BITS;
        let fourth = third / WORD_BITS;
        let found = last_below(&self.fourth, fourth, None);
        let found = last_below(&self.third, third, found);
        let found = last_below(&self.second, second, found);
        last_below(&self.first, first, found)
    }

    /// The least member that is `n` or greater; `None` where there is none.
    pub fn least_from(&self, n: usize) -> Option<usize>
        ensures { IsLeastFrom self.now n result }
    {
        let second = n / WORD_BITS + 1;
        let third = second / WORD_BITS + 1;
        let fourth = third / WORD_BITS + 1;
        let found = first_from(&self.fourth, fourth, None);
        let found = first_from(&self.third, third, found);
        let found = first_from(&self.second, second, found);
        first_from(&self.first, n, found)
    }

    /// Takes all members out. It goes over all words.
    pub fn clear(&mut self)
        ensures { self.new ≡ replicate (length self.old) false }
    {
        erase(&mut self.first);
        erase(&mut self.second);
        erase(&mut self.third);
        erase(&mut self.fourth);
    }

    // Makes a number a member, or takes it out.
    fn set(&mut self, n: usize, is_member: bool)
        requires { n < length self.old }
        ensures { self.new ≡ slice_set self.old n is_member }
    {
        let second = n / WORD_BITS;
        let third = second / WORD_BITS;
        let fourth = third / WORD_BITS;
        let marked = write(&mut self.first, n, is_member);
        let marked = write(&mut self.second, second, marked);
        let marked = write(&mut self.third, third, marked);
        write(&mut self.fourth, fourth, marked);
    }
}

// Makes the layers long enough for the numbers below a bound.
fn grow_all(
    first: &mut Vec<u64>,
    second: &mut Vec<u64>,
    third: &mut Vec<u64>,
    fourth: &mut Vec<u64>,
    bound: usize,
) -> Result<(), AllocError>
    requires { bound < BOUND_LIMIT }
    ensures same { (n : ℕ) → bit_in first.new.items n ≡ bit_in first.old.items n }
    ensures kept { (old : ℕ) →
        IsLayered old first.old.items second.old.items third.old.items fourth.old.items →
        IsLayered old first.new.items second.new.items third.new.items fourth.new.items }
    ensures grown { OnOk result ((old : ℕ) → old ≤ bound →
        IsLayered old first.old.items second.old.items third.old.items fourth.old.items →
        IsLayered bound first.new.items second.new.items third.new.items fourth.new.items) }
{
    let words = bound.div_ceil(WORD_BITS);
    grow(first, words)?;
    let words = words.div_ceil(WORD_BITS);
    grow(second, words)?;
    let words = words.div_ceil(WORD_BITS);
    grow(third, words)?;
    grow(fourth, 1)
}
