//! The steps that link a node in at an end, or take one out.
ghost use Rattle.std.specs.Prelude.{◌≡◌, ◌+◌, ◌^◌, ◌<◌, [], ◌∷◌, ◌++◌};
ghost use Rattle.paged_stack.specs.Links.{places_of};

use super::{Node, Nodes, Room};

impl<T> Nodes<T> {
    pub(crate) fn new() -> Nodes<T>
        ensures { (result.items ≡ []) × (result.links ≡ []) }
    {
        let none: [u8; 0] = [];
        let nowhere = &raw const none as *const Node<T>;
        Nodes {
            head: nowhere,
            tail: nowhere,
            len: 0,
        }
    }

    pub(crate) fn link_first(&mut self, room: Room<Node<T>>, elem: T)
        requires { self.old.len ≡ 0 }
        ensures { (self.new.items ≡ elem ∷ []) × (places_of self.new.links ≡ room.ptr ∷ []) }
    {
        let Room { ptr } = room;
        unsafe {
            ptr.write(Node {
                next: ptr,
                prev: ptr,
                elem,
            });
        }
        self.head = ptr;
        self.tail = ptr;
        self.len = 1;
    }

    pub(crate) fn link_front(&mut self, room: Room<Node<T>>, elem: T)
        requires { (0 < self.old.len) × (self.old.len + 1 < 2 ^ 63) }
        ensures { (self.new.items ≡ elem ∷ self.old.items) × (places_of self.new.links ≡ room.ptr ∷ places_of self.old.links) }
    {
        let Room { ptr } = room;
        let head = self.head.cast_mut();
        unsafe {
            ptr.write(Node {
                next: head,
                prev: ptr,
                elem,
            });
            (*head).prev = ptr;
        }
        self.head = ptr;
        self.len = self.len + 1;
    }

    pub(crate) fn link_back(&mut self, room: Room<Node<T>>, elem: T)
        requires { (0 < self.old.len) × (self.old.len + 1 < 2 ^ 63) }
        ensures { (self.new.items ≡ self.old.items ++ elem ∷ []) × (places_of self.new.links ≡ places_of self.old.links ++ room.ptr ∷ []) }
    {
        let Room { ptr } = room;
        let tail = self.tail.cast_mut();
        unsafe {
            ptr.write(Node {
                next: ptr,
                prev: tail,
                elem,
            });
            (*tail).next = ptr;
        }
        self.tail = ptr;
        self.len = self.len + 1;
    }

    pub(crate) fn unlink_front(&mut self) -> (T, Room<Node<T>>)
        requires { 0 < self.old.len }
        ensures { (self.old.items ≡ result.0 ∷ self.new.items) × (places_of self.old.links ≡ result.1.ptr ∷ places_of self.new.links) }
    {
        let ptr = self.head.cast_mut();
        self.len = self.len - 1;
        unsafe {
            self.head = (*ptr).next;
            let elem = (&raw const (*ptr).elem).read();
            (elem, Room { ptr })
        }
    }

    pub(crate) fn unlink_back(&mut self) -> (T, Room<Node<T>>)
        requires { 0 < self.old.len }
        ensures { (self.old.items ≡ self.new.items ++ result.0 ∷ []) × (places_of self.old.links ≡ places_of self.new.links ++ result.1.ptr ∷ []) }
    {
        let ptr = self.tail.cast_mut();
        self.len = self.len - 1;
        unsafe {
            self.tail = (*ptr).prev;
            let elem = (&raw const (*ptr).elem).read();
            (elem, Room { ptr })
        }
    }

    // Ends an empty chain. Its nodes were taken out before.
    pub(crate) fn end(self)
        requires { self.len ≡ 0 }
    {
        let Nodes {
            head: _,
            tail: _,
            len: _,
        } = self;
    }
}
