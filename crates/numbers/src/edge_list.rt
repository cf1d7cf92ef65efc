// A list of edges in fixed memory.
ghost use Rattle.std.specs.Prelude.{◌≡◌, ◌++◌, ◌∷◌, [], ◌+◌, ◌<◌, ◌≤◌, take};

use crate::sizes::MOST_EDGES;

// The first count entries are the numbers of the listed edges.
#[derive(Clone, Copy)]
pub struct EdgeList {
    pub list: [u8; MOST_EDGES],
    pub count: usize,
    ghost few: { count ≤ 63 },
}

impl EdgeList {
    // No edge.
    pub fn new() -> EdgeList
        ensures { result.count ≡ 0 }
    {
        EdgeList {
            list: [0; MOST_EDGES],
            count: 0,
        }
    }

    // Edge e goes last.
    pub fn push(&mut self, e: u8)
        requires { self.old.count < 63 }
        ensures longer { self.new.count ≡ self.old.count + 1 }
        ensures listed { take self.new.count self.new.list ≡ take self.old.count self.old.list ++ (e ∷ []) }
    {
        self.list[self.count] = e;
        self.count += 1;
    }

    pub fn len(&self) -> usize
        ensures { result ≡ self.now.count }
    {
        self.count
    }

    pub fn as_slice(&self) -> &[u8]
        ensures { result.now ≡ take self.now.count self.now.list }
    {
        &self.list[..self.count]
    }
}
