//! Graphs of steps, a graph in two vectors, and an order of the nodes of a graph.

ghost use Rattle.std.specs.Prelude.{◌≡◌, ◌<◌, length, slice_index, IfOk};
ghost use Rattle.dw_types.specs.Graphs.{Graph, LeadsToNodes, steps_of, step_at};
ghost use Rattle.dw_types.specs.Packing.{cut, begin_of, CutsInOrder, LeadsBelow};
ghost use Rattle.dw_types.specs.RanksListed.{ranks_listed};
ghost use Rattle.dw_types.specs.StepFlags.{TellSteps};

use crate::flags::Flags;
use crate::numbers::{NoMemory, Numbers};
use std::alloc::{AllocError, Global};
use std::marker::Model;

/// Nodes with steps between them. A node is a number below the count of nodes, and steps of a node are
/// numbered from 0 too.
pub trait StepGraph {
    /// The nodes that the steps of each node lead to, in order.
    ghost graph: { Self → Graph };

    /// How many nodes there are.
    fn nodes(&self) -> usize
        ensures { result ≡ length (graph self.now) };

    /// How many steps a node has.
    fn steps(&self, node: usize) -> usize
        requires { node < length (graph self.now) }
        ensures { result ≡ length (steps_of (graph self.now) node) };

    /// Where the `k`-th step of a node leads.
    fn step(&self, node: usize, k: usize) -> usize
        requires node_in { node < length (graph self.now) }
        requires step_in { k < length (steps_of (graph self.now) node) }
        ensures { result ≡ step_at (graph self.now) node k };

    /// A flag for each node, which says whether it has steps.
    fn with_steps(&self, alloc: Global) -> Result<Flags, AllocError>
        ensures { IfOk result (TellSteps (graph self.now)) }
    {
        let mut flags = Flags::none(alloc, self.nodes())?;
        for node in 0..self.nodes() {
            flags.set_if(node, self.steps(node) > 0);
        }
        Ok(flags)
    }

    /// Each step leads to a node.
    ghost leads_to_nodes: { (it : Self) → LeadsToNodes (graph it) };
}

/// How many steps a graph has, where they can be counted.
fn step_count<G: StepGraph>(graph: &G) -> usize {
    let mut count: usize = 0;
    for node in 0..graph.nodes() {
        count = count.saturating_add(graph.steps(node));
    }
    count
}

/// A graph in two vectors: the steps of all nodes, one node after another, and where those of each node end.
#[derive(Drop)]
pub struct Packed {
    steps: Numbers,
    ends: Numbers,
    ghost in_order: { CutsInOrder steps ends },
    ghost leads: { LeadsBelow steps (length ends) },
}

impl Packed {
    /// The same graph: its nodes, and the steps of each in their order.
    pub fn new<G: StepGraph>(alloc: Global, graph: &G) -> Result<Self, NoMemory>
        ensures { IfOk result (λ packed. ⟦<Packed as StepGraph>⟧.graph packed ≡ G.graph graph.now) }
    {
        let nodes = graph.nodes();
        let mut steps = Numbers::with_room(alloc, step_count(graph))?;
        let mut ends = Numbers::with_room(alloc, nodes)?;
        for node in 0..nodes {
            let count = graph.steps(node);
            for k in 0..count {
                steps.push(graph.step(node, k))?;
            }
            ends.push(steps.len())?;
        }
        Ok(Packed { steps, ends })
    }

    /// The graph of these steps, one node after another, where those of each node end here.
    pub fn from_rows(steps: Numbers, ends: Numbers) -> Self
        requires in_order { CutsInOrder steps ends }
        requires leads { LeadsBelow steps (length ends) }
        ensures { ⟦<Packed as StepGraph>⟧.graph result ≡ cut steps 0 ends }
    {
        Packed { steps, ends }
    }

    /// The place of a node's first step among all.
    fn begin(&self, node: usize) -> usize
        requires { node < length self.now.ends }
        ensures { result ≡ begin_of self.now.ends node }
    {
        if node == 0 {
            0
        } else {
            self.ends.get(node - 1)
        }
    }
}

impl StepGraph for Packed {
    ghost use Rattle.dw_types.specs.PackingLaws.{cut-leads};

    ghost graph = { λ it. cut it.steps 0 it.ends };

    ghost leads_to_nodes = { λ it. cut-leads it.steps it.ends it.in_order it.leads };

    fn nodes(&self) -> usize {
        self.ends.len()
    }

    fn steps(&self, node: usize) -> usize {
        self.ends.rise(node)
    }

    fn step(&self, node: usize, k: usize) -> usize {
        self.steps.get_behind(self.begin(node), k)
    }
}

/// The ranks of a graph's nodes, from 0: each step leads to a node of smaller rank.
#[derive(Drop)]
pub struct Order {
    pub(crate) nodes: usize,
    pub(crate) by_rank: Numbers,
    pub(crate) turns: u128,
    /// How many of the first nodes by rank have no steps, as far as that is known.
    pub(crate) leaves: usize,
}

impl Model for Order {
    ghost use Rattle.dw_types.specs.Orders.{Ranking};
    ghost use Rattle.dw_types.specs.RanksListed.{ranks_listed};

    ghost Value = { Ranking };

    ghost view = { λ it. record {
      ranks = ranks_listed it.nodes it.by_rank;
      by_rank = it.by_rank;
      turns = it.turns;
      leaves = it.leaves;
    } };
}

impl Order {
    /// The rank of a node. It is searched, since the nodes alone are kept, in the order of their ranks.
    pub fn rank(&self, node: usize) -> usize
        requires { node < length self.now.ranks }
        ensures { result ≡ slice_index self.now.ranks node }
    {
        let mut rank = 0;
        for place in 0..self.by_rank.len() {
            if self.by_rank.get(place) == node {
                rank = place;
            }
        }
        rank
    }

    /// The nodes by rising rank.
    pub fn by_rank(&self) -> &Numbers
        ensures { result.now ≡ self.now.by_rank }
    {
        &self.by_rank
    }

    /// How many turns the walk took. A turn is one node taken up or one step looked at.
    pub fn turns(&self) -> u128
        ensures { result ≡ self.now.turns }
    {
        self.turns
    }

    /// How many of the first nodes by rank are known to have no steps.
    pub(crate) fn leaves(&self) -> usize
        ensures { result ≡ self.now.leaves }
    {
        self.leaves
    }

    /// How many ranks there are.
    pub fn count(&self) -> usize
        ensures { result ≡ length self.now.by_rank }
    {
        self.by_rank.len()
    }

    /// The node of a rank.
    pub fn node(&self, rank: usize) -> usize
        requires { rank < length self.now.by_rank }
        ensures { result ≡ slice_index self.now.by_rank rank }
    {
        self.by_rank.get(rank)
    }
}
