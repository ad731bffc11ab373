//! A stack over a lent slice, for values of any type.

ghost use Rattle.std.specs.Prelude.{◌≡◌, ◌≤◌, [], length, reverse, drop};
ghost use Rattle.parts.specs.Stacks.{Kept, front, depth, first_of, Pushed, Popped, PoppedTwo};

use std::marker::Model;

/// The first `len` places of the slice hold what waits, the last pushed last. A
/// lent slice and no `Vec` by a rule of the project (docs/DECISIONS.md, "Lent
/// slices").
#[derive(Drop)]
pub struct Stack<'a, E> {
    items: &'a mut [E],
    len: usize,
}

// Clauses see what waits, and what the slice holds behind it.
impl<'a, E> Model for Stack<'a, E> {
    ghost Value = { Kept E };

    ghost view = { λ s. record { waiting = front s.items.now s.len; spare = drop s.len s.items.now } };

    ghost invariant = { λ s. s.len ≤ length s.items.now };
}

impl<'a, E: Copy> Stack<'a, E> {
    /// An empty stack that can hold as many values as the slice.
    pub fn new(items: &'a mut [E]) -> Stack<'a, E>
        ensures { result ≡ record { waiting = []; spare = items.old } }
    {
        Stack { items, len: 0 }
    }

    // What waits, the first pushed first.
    fn held(&self) -> &[E]
        ensures { reverse result.now ≡ self.now.waiting }
    {
        &self.items[0..self.len]
    }

    /// How many values wait.
    pub fn len(&self) -> usize
        ensures { result ≡ depth self.now }
    {
        self.held().len()
    }

    /// The value pushed last, if any waits.
    pub fn last(&self) -> Option<E>
        ensures { result ≡ first_of self.now.waiting }
    {
        match self.held() {
            [.., top] => Some(*top),
            [] => None,
        }
    }

    /// Lets a value wait; a full stack hands it back.
    pub fn push(&mut self, value: E) -> Result<(), E>
        ensures { Pushed self.old value result self.new }
    {
        if self.len >= self.items.len() {
            return Err(value);
        }
        self.items[self.len] = value;
        self.len += 1;
        Ok(())
    }

    /// The value pushed last, which waits no more.
    pub fn pop(&mut self) -> Option<E>
        ensures { Popped self.old result self.new }
    {
        if self.len == 0 {
            return None;
        }
        self.len -= 1;
        Some(self.items[self.len])
    }

    /// The two values pushed last, the earlier one first, which wait no more.
    pub fn pop_two(&mut self) -> Option<(E, E)>
        ensures { PoppedTwo self.old result self.new }
    {
        if self.len < 2 {
            return None;
        }
        self.len -= 2;
        Some((self.items[self.len], self.items[self.len + 1]))
    }
}
