// The order in which the nodes of a graph are worked, and its circles.
#![tactic(auto)]

ghost use Rattle.std.specs.Prelude.{⊤, ◌≡◌, ℕ, ◌<◌, ◌≤◌, true, false, length, take, Decides, IsTrue, MatchOption, MatchResult, slice_index, slice_index_or};
ghost use Rattle.std.specs.List.{ContainsAt as Has};
ghost use Rattle.order.specs.Order.{NextOrNone, LowestOrNone, Next, Stuck, Order, Planned, Unworkable, Marked, Ready, Barred, MarksOf, Below};
ghost use Rattle.order.specs.Ways.{NoCircle, Endless};

// A graph of numbered nodes, told by a ghost relation and the test for a way that is still open.
pub trait Graph {
    // what the tests ask for; nothing, where the graph's type says it
    ghost can: { Self → Type 0 } = { λ _. ⊤ };

    // the nodes are the numbers below it that `node` holds of
    ghost nodes: { Self → ℕ };

    ghost node: { Self → ℕ → Type 0 };

    // some way of the first leads to the second
    ghost leads: { Self → ℕ → ℕ → Type 0 };

    // Whether the number k is a node.
    fn is_node(&self, k: usize) -> bool
        requires { (can self.now) × (k < nodes self.now) }
        ensures { Decides result (node self.now k) };

    // A node that is not marked and to which a way of node k leads; none where all its ways lead to marked nodes.
    fn barred(&self, k: usize, marks: &[bool]) -> Option<usize>
        requires { (can self.now) × ((node self.now k) × ((k < nodes self.now) × (length marks.now ≡ nodes self.now))) }
        ensures { MatchOption result (Ready (leads self.now) (Marked marks.now) k) (Barred (Below (nodes self.now) (node self.now)) (leads self.now) (Marked marks.now) k) };
}

// A graph while its nodes are worked: one mark for each number, set where its node was worked.
#[derive(Drop)]
struct Working<'a, G: Graph> {
    graph: &'a G,
    marks: &'a mut [bool],
    ghost one_each: { length marks.now ≡ G.nodes graph.now },
}

impl<'a, G: Graph> Working<'a, G> {
    // Whether k is an unmarked node.
    fn is_left(&self, k: usize) -> bool
        requires can { G.can self.now.graph.now }
        requires number { k < length self.now.marks.now }
        ensures { Decides result (G.node self.now.graph.now k × (Marked self.now.marks.now k → ⊥)) }
    {
        self.graph.is_node(k) && !self.marks[k]
    }

    // Whether k is an unmarked node whose ways all lead to marked ones; an unmarked one that is not has a way to another.
    fn is_ready(&self, k: usize) -> bool
        requires can { G.can self.now.graph.now }
        requires number { k < length self.now.marks.now }
        ensures ready { IsTrue result → G.node self.now.graph.now k × (Marked self.now.marks.now k → ⊥) × Ready (G.leads self.now.graph.now) (Marked self.now.marks.now) k }
        ensures barred { result ≡ false → G.node self.now.graph.now k → (Marked self.now.marks.now k → ⊥) → (d : ℕ) × Barred (Below (G.nodes self.now.graph.now) (G.node self.now.graph.now)) (G.leads self.now.graph.now) (Marked self.now.marks.now) k d }
    {
        self.is_left(k) && self.graph.barred(k, self.marks).is_none()
    }

    // The next node to work.
    fn next(&self) -> Option<usize>
        requires { G.can self.now.graph.now }
        ensures { NextOrNone (Below (G.nodes self.now.graph.now) (G.node self.now.graph.now)) (G.leads self.now.graph.now) (Marked self.now.marks.now) result }
    {
        (0..self.marks.len()).find(|k| self.is_ready(*k))
    }

    // The lowest node that is not marked.
    fn lowest_left(&self) -> Option<usize>
        requires { G.can self.now.graph.now }
        ensures { LowestOrNone (Below (G.nodes self.now.graph.now) (G.node self.now.graph.now)) (Marked self.now.marks.now) result }
    {
        (0..self.marks.len()).find(|t| self.is_left(*t))
    }

    // Marks the nodes that can be worked, writes them in working order, and answers how many there are.
    fn run(&mut self, order: &mut [usize]) -> usize
        requires can { G.can self.old.graph.now }
        requires rows { length self.old.marks.now ≤ length order.old }
        ensures graph { self.new.graph.now ≡ self.old.graph.now }
        ensures within { result ≤ length order.new }
        ensures order { Order (Below (G.nodes self.new.graph.now) (G.node self.new.graph.now)) (G.leads self.new.graph.now) (take result order.new) }
        ensures marks { MarksOf self.new.marks.now (take result order.new) }
        ensures none { Stuck (Below (G.nodes self.new.graph.now) (G.node self.new.graph.now)) (G.leads self.new.graph.now) (Has (take result order.new)) }
    {
        self.marks.fill(false);
        let mut k = 0;
        // each turn asks with the marks that the turn before it wrote, so this is no chain
        while let Some(s) = self.next() {
            self.marks[s] = true;
            order[k] = s;
            k += 1;
        }
        k
    }
}

// The working order of all nodes, in the first rows of `order`, and how many they are; or the lowest node that cannot be worked.
// It asks for as many marks as there are numbers and for as many rows; what the marks and further rows hold afterwards is free.
// An order of all nodes says that there is no circle; from a node that cannot be worked there are ways of every length.
// What is refused is a node, and a node is its number: the refusals of the crates above name it as what it is there.
pub fn plan<G: Graph>(graph: &G, marks: &mut [bool], order: &mut [usize]) -> Result<usize, usize>
    requires can { G.can graph.now }
    requires marks { length marks.old ≡ G.nodes graph.now }
    requires rows { length marks.old ≤ length order.old }
    ensures order { MatchResult result (Planned (Below (G.nodes graph.now) (G.node graph.now)) (G.leads graph.now) order.new) (Unworkable (Below (G.nodes graph.now) (G.node graph.now)) (G.leads graph.now)) }
    ensures circles { MatchResult result (λ _. NoCircle (Below (G.nodes graph.now) (G.node graph.now)) (G.leads graph.now)) (Endless (G.leads graph.now)) }
{
    let mut working = Working { graph, marks };
    let count = working.run(order);
    match working.lowest_left() {
        Some(s) => Err(s),
        None => Ok(count),
    }
}

#[cfg(test)]
mod tests {
    use crate::{Graph, plan};

    // Number k is a node where `here` says so; it leads to number `next[k]`, if that is a node.
    #[derive(Drop)]
    struct Links {
        next: [usize; 6],
        here: [bool; 6],
    }

    impl Graph for Links {
        ghost nodes = { λ g. 6 };

        ghost node = { λ g k. slice_index_or g.here k false ≡ true };

        ghost leads = { λ g s d. (slice_index g.next s ≡ d) × ((d < 6) × (slice_index_or g.here d false ≡ true)) };

        fn is_node(&self, k: usize) -> bool {
            self.here[k]
        }

        fn barred(&self, k: usize, marks: &[bool]) -> Option<usize> {
            let d = self.next[k];
            (d < 6 && self.here[d] && !marks[d]).then_some(d)
        }
    }

    // Three numbers, of which `here` says whether each is a node; none leads anywhere. Its test asks that `here` be that long, and no type says so.
    #[derive(Drop)]
    struct Heads<'a> {
        here: &'a [bool],
    }

    impl<'a> Graph for Heads<'a> {
        ghost can = { λ g. 3 ≤ length g.here.now };

        ghost nodes = { λ g. 3 };

        ghost node = { λ g k. slice_index_or g.here.now k false ≡ true };

        ghost leads = { λ g s d. ⊥ };

        fn is_node(&self, k: usize) -> bool {
            self.here[k]
        }

        fn barred(&self, k: usize, marks: &[bool]) -> Option<usize> {
            None
        }
    }

    #[test]
    fn a_graph_that_asks(rt: HostRuntime) {
        let graph = Heads {
            here: &[true, false, true],
        };
        let mut marks = [true; 3];
        let mut order = [9; 3];
        assert_eq!(rt; plan(&graph, &mut marks, &mut order), Ok(2));
        assert_eq!(rt; order, [0, 2, 9]);
    }

    #[test]
    fn four_of_six(rt: HostRuntime) {
        let graph = Links {
            next: [1, 4, 9, 0, 9, 9],
            here: [true, true, false, true, true, false],
        };
        let mut marks = [true; 6];
        let mut order = [9; 6];
        assert_eq!(rt; plan(&graph, &mut marks, &mut order), Ok(4));
        assert_eq!(rt; order.first_chunk(), Some(&[4, 1, 0, 3]));
    }

    #[test]
    fn lowest_before_a_circle(rt: HostRuntime) {
        let graph = Links {
            next: [9, 3, 0, 4, 3, 9],
            here: [true, true, true, true, true, false],
        };
        let mut marks = [false; 6];
        let mut order = [9; 6];
        assert_eq!(rt; plan(&graph, &mut marks, &mut order), Err(1));
    }
}
