// Sets of nodes as a forest of parents: each node alone, the root of a node, and the sets of two nodes made one. The theory is in specs/.
#![tactic(auto)]

ghost use Rattle.std.specs.Prelude.{◌≡◌, not, ◌≤◌, ◌<◌, eqb, length, replicate};
ghost use Rattle.sets.specs.Forest.{Falls, at, root as root_of, union, Alone, max_nodes};

// The root of a node: up from parent to parent.
#[tactic(auto, using(crate::specs::Laws::Unions::root_step, crate::specs::Laws::Unions::root_here))]
pub fn root(parents: &[u16], node: usize) -> usize
    requires { Falls (at parents.now) × (node < length parents.now) }
    ensures { (result ≡ root_of parents.now node) × (result ≤ node) }
{
    let mut i = node;
    loop {
        let up = usize::from(parents[i]);
        if up == i {
            return i;
        }
        i = up;
    }
}

// A forest in lent memory. A node is an index, and its parent is not above it; a root is its own parent. Indices stand for links, since there is no heap.
// `same_reference` in the clauses lets who lent the memory know what it holds afterwards.
#[derive(Drop)]
pub struct Forest<'a> {
    pub parents: &'a mut [u16],
    ghost few: { length parents.now ≤ max_nodes },
    ghost falls: { Falls (at parents.now) },
}

impl<'a> Forest<'a> {
    // All nodes in one set, in what is lent.
    pub fn new(parents: &'a mut [u16]) -> Self
        requires { length parents.old ≤ max_nodes }
        ensures zeros { result.parents.now ≡ replicate (length parents.old) 0 }
        ensures same_reference { result.parents.ghost_name ≡ parents.entry.ghost_name }
    {
        parents.fill(0);
        Forest { parents }
    }

    // Makes each of the first n nodes its own parent.
    pub fn set_apart(&mut self, n: usize)
        requires { n ≤ length self.old.parents.now }
        ensures alone { Alone n self.new.parents.now }
        ensures same_length { length self.new.parents.now ≡ length self.old.parents.now }
        ensures same_reference { self.new.parents.ghost_name ≡ self.old.parents.ghost_name }
    {
        // over an index: it is what is written
        for i in 0..n {
            // as: a node is below 2^16, since there are no more than that
            self.parents[i] = i as u16;
        }
    }

    // The root of a node.
    pub fn root(&self, node: usize) -> usize
        requires { node < length self.now.parents.now }
        ensures { (result ≡ root_of self.now.parents.now node) × (result ≤ node) }
    {
        root(self.parents, node)
    }

    // Makes one set of the sets of two nodes, and says whether they were two. The higher root goes below the lower.
    #[tactic(auto, using(crate::specs::Laws::Unions::unite_same, crate::specs::Laws::Unions::unite_two))]
    pub fn unite(&mut self, i: usize, j: usize) -> bool
        requires { (i < length self.old.parents.now) × (j < length self.old.parents.now) }
        ensures same_length { length self.new.parents.now ≡ length self.old.parents.now }
        ensures same_reference { self.new.parents.ghost_name ≡ self.old.parents.ghost_name }
        ensures united { (self.new.parents.now ≡ union self.old.parents.now i j)
            × (result ≡ not (eqb (root_of self.old.parents.now i) (root_of self.old.parents.now j))) }
    {
        let a = self.root(i);
        let b = self.root(j);
        if a == b {
            return false;
        }
        // as: a node is below 2^16, since there are no more than that
        self.parents[a.max(b)] = a.min(b) as u16;
        true
    }
}
