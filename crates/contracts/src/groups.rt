//! Groups of items, one after another in one list.

ghost use Rattle.std.proofs.Props.{props};
ghost use Rattle.contracts.specs.Spans.{AreWithin};

/// Groups of items. One list has the items of all groups, and each group begins where the previous one ends.
#[derive(Drop)]
pub struct Groups<T> {
    pub items: Vec<T>,
    pub ends: Vec<usize>,
    pub ghost within: { AreWithin items.items ends.items } by { Prim.hlevel props },
}

impl<T> Groups<T> {
    ghost use Rattle.std.specs.Prelude.{◌≡◌, ◌<◌, ◌≤◌, get_or, length};
    ghost use Rattle.contracts.specs.Graphs.{groups, group_at};
    ghost use Rattle.contracts.specs.Spans.{start_of};

    /// Returns the number of groups.
    pub fn len(&self) -> usize
        ensures { result ≡ length (groups self.now) }
    {
        self.ends.len()
    }

    /// Returns the group at an index.
    pub fn group(&self, at: usize) -> &[T]
        requires { at < length (groups self.now) }
        ensures { result.now ≡ group_at (groups self.now) at }
    {
        let from = self.start(at);
        let to = self.end(at);
        &self.items[from..to]
    }

    /// Returns where the group at an index begins.
    fn start(&self, at: usize) -> usize
        requires { at < length (groups self.now) }
        ensures start { result ≡ start_of 0 self.now.ends.items at }
        ensures before { result ≤ get_or self.now.ends.items at 0 }
    {
        if at == 0 { 0 } else { self.ends[at - 1] }
    }

    /// Returns where the group at an index ends.
    fn end(&self, at: usize) -> usize
        requires { at < length (groups self.now) }
        ensures end { result ≡ get_or self.now.ends.items at 0 }
        ensures within { result ≤ length self.now.items.items }
    {
        self.ends[at]
    }
}
