//! A node is found by its number.
ghost use Rattle.std.specs.Prelude.{◌≡◌, ◌<◌};
ghost use Rattle.paged_stack.specs.Links.{place_of};

use super::{Nodes, Place};

impl<T> Nodes<T> {
    // Walks from the nearer end.
    pub(crate) fn find(&self, number: usize) -> Place
        requires { number < self.now.len }
        ensures { result.ptr ≡ place_of self.now.links number }
    {
        if number < self.len() - number {
            self.find_forward(number)
        } else {
            self.find_backward(number)
        }
    }

    fn find_forward(&self, number: usize) -> Place
        requires { number < self.now.len }
        ensures { result.ptr ≡ place_of self.now.links number }
    {
        let mut at = self.head();
        for k in 0..number {
            at = self.next(at, k);
        }
        at
    }

    fn find_backward(&self, number: usize) -> Place
        requires { number < self.now.len }
        ensures { result.ptr ≡ place_of self.now.links number }
    {
        let mut k = self.len() - 1;
        let mut at = self.tail();
        while k > number {
            at = self.prev(at, k);
            k -= 1;
        }
        at
    }
}
