//! A graph with where the first step of each node leads at hand.

ghost use Rattle.std.specs.Prelude.{◌≡◌, ℕ, ◌<◌, suc, length};
ghost use Rattle.dw_types.specs.Graphs.{AreFirsts, Graph, steps_of, step_at};

use crate::graph::StepGraph;

/// A number that tells where the first step of a node leads: one more than the target. 0 if that exceeds u32.
#[inline(always)]
pub(crate) fn first_of<G: StepGraph>(graph: &G, node: usize) -> u32
    requires node { node < length (G.graph graph.now) }
    requires some { 0 < length (steps_of (G.graph graph.now) node) }
    ensures { (to : ℕ) → result ≡ suc to → step_at (G.graph graph.now) node 0 ≡ to }
{
    let to = graph.step(node, 0);
    if to < 0xffff_ffff { to as u32 + 1 } else { 0 }
}

/// A graph, with where the first step of each node leads. A walk along first steps waits for one number at a node, not
/// for the place of its steps and then for a step.
#[derive(Drop)]
pub(crate) struct WithFirsts<'g, G: StepGraph> {
    pub graph: &'g G,
    /// What `first_of` returns for each node; 0 for a node without steps.
    pub firsts: Vec<u32>,
    ghost firsts_are: { AreFirsts (G.graph graph.now) firsts.items },
}

impl<'g, G: StepGraph> StepGraph for WithFirsts<'g, G> {
    ghost graph = { λ it. G.graph it.graph.now };

    ghost leads_to_nodes = { λ it. G.leads_to_nodes it.graph.now };

    fn nodes(&self) -> usize {
        self.graph.nodes()
    }

    #[inline(always)]
    fn steps(&self, node: usize) -> usize {
        self.graph.steps(node)
    }

    #[inline(always)]
    fn step(&self, node: usize, k: usize) -> usize {
        if k == 0 && node < self.firsts.len() {
            let first = self.firsts[node];
            if first > 0 {
                return first as usize - 1;
            }
        }
        self.graph.step(node, k)
    }
}
