//! The state of a walk over a graph.

ghost use Rattle.std.specs.Prelude.{◌≡◌, ◌+◌, ◌^◌, ◌<◌, [], false, length, IfOk, MatchOption, OnOk};
ghost use Rattle.dw_types.specs.Graphs.{AreFirsts};
ghost use Rattle.dw_types.specs.Orders.{AreLeaves};
ghost use Rattle.dw_types.specs.StepFlags.{TellSteps};
ghost use Rattle.dw_types.specs.Walks.{HasLeaves, IsKept};
ghost use Rattle.dw_types.specs.WalkStates.{mark_in, opened, ranked, turned, with_hand, without_stack};

use crate::firsts::first_of;
use crate::flags::Flags;
use crate::graph::{Order, StepGraph};
use crate::numbers::Numbers;
use std::alloc::{AllocError, Global};
use std::marker::Model;

/// How far a walk has come with a node.
#[derive(Clone, Copy, Debug, PartialEq, Eq)]
pub(crate) enum Mark {
    /// Not taken up yet.
    Fresh,
    /// On the stack, or given up.
    Open,
    /// All its steps were looked at, and it has its rank.
    Ranked,
}

/// A node that was taken up and has no rank yet, and how many of its steps were looked at.
#[derive(Clone, Copy)]
pub(crate) struct Hand {
    pub node: usize,
    pub looked: usize,
}

/// A walk over a graph, which keeps its way in a stack: the nodes that wait for the one that it is at. Nodes are given
/// up if they reach a cycle: they stay open, but are not on the stack.
#[derive(Drop)]
pub(crate) struct Walk {
    marks: Vec<Mark>,
    nodes: usize,
    by_rank: Numbers,
    stack: Numbers,
    /// How many steps of each node on the stack were looked at.
    looked: Numbers,
    turns: u128,
    gave_up: bool,
}

impl Model for Walk {
    ghost use Rattle.dw_types.specs.RanksListed.{ranks_listed};
    ghost use Rattle.dw_types.specs.WalkStates.{Kept};

    ghost Value = { Kept };

    ghost view = { λ w. record {
      marks = w.marks.items;
      ranks = ranks_listed w.nodes w.by_rank;
      by_rank = w.by_rank;
      stack = w.stack;
      looked = w.looked;
      turns = w.turns;
      gave_up = w.gave_up;
    } };
}

impl Walk {
    /// Where the first step of each node leads, and the walk before it takes up a node with steps, by the flags of
    /// these. Each node without steps has its rank already, which took one turn.
    pub(crate) fn new<G: StepGraph>(
        alloc: Global,
        graph: &G,
        with_steps: &Flags,
    ) -> Result<(Vec<u32>, Self), AllocError>
        requires { TellSteps (G.graph graph.now) with_steps.now }
        ensures firsts { IfOk result (λ made. AreFirsts (G.graph graph.now) made.0.items) }
        ensures kept { IfOk result (λ made. IsKept (G.graph graph.now) made.1) }
        ensures leaves { IfOk result
            (λ made. AreLeaves (G.graph graph.now) made.1.by_rank (length made.1.by_rank)) }
        ensures others { IfOk result (λ made. HasLeaves (G.graph graph.now) made.1.marks) }
        ensures empty { IfOk result (λ made. made.1.stack ≡ []) }
        ensures gave_up { IfOk result (λ made. made.1.gave_up ≡ false) }
    {
        let nodes = graph.nodes();
        let small = nodes.min(1 << 32);
        let mut firsts = vec![in alloc; 0; small]?;
        let mut marks = vec![in alloc; Mark::Fresh; nodes]?;
        let mut leaves = Vec::with_capacity(alloc, small)?;
        let mut from = 0;
        while from < small {
            let node = with_steps.next(from, small);
            for leaf in from..node {
                marks[leaf] = Mark::Ranked;
                leaves.push_reserved(leaf as u32);
            }
            if node < small {
                firsts[node] = first_of(graph, node);
            }
            from = node + 1;
        }
        let mut by_rank = Numbers::from_small(alloc, leaves);
        for large in small..nodes {
            if !with_steps.get(large) {
                marks[large] = Mark::Ranked;
                by_rank.push(large)?;
            }
        }
        let turns = by_rank.len() as u128;
        let walk = Walk {
            marks,
            nodes,
            by_rank,
            stack: Numbers::with_room(alloc, 0)?,
            looked: Numbers::with_room(alloc, 0)?,
            turns,
            gave_up: false,
        };
        Ok((firsts, walk))
    }

    /// How far it has come with a node.
    pub(crate) fn mark(&self, node: usize) -> Mark
        requires { node < length self.now.marks }
        ensures { result ≡ mark_in self.now.marks node }
    {
        self.marks[node]
    }

    /// The nodes that were taken up and have no rank yet, each a step from the one before.
    pub(crate) fn stack(&self) -> &Numbers
        ensures { result.now ≡ self.now.stack }
    {
        &self.stack
    }

    /// Takes up a node, none of whose steps was looked at.
    pub(crate) fn take_up(&mut self, node: usize) -> Hand
        requires node_in { node < length self.old.marks }
        requires room { self.old.turns + 1 < 2 ^ 128 }
        ensures state { self.new ≡ opened self.old node }
        ensures hand { result ≡ record { node = node; looked = 0 } }
    {
        self.marks[node] = Mark::Open;
        self.turns += 1;
        Hand { node, looked: 0 }
    }

    /// Counts so many steps as looked at.
    pub(crate) fn count(&mut self, steps: usize)
        requires { self.old.turns + steps < 2 ^ 128 }
        ensures { self.new ≡ turned self.old steps }
    {
        self.turns += steps as u128;
    }

    /// Puts a node on the stack, which waits for the one that its last step leads to.
    #[inline(always)]
    pub(crate) fn push(&mut self, hand: Hand) -> Result<(), AllocError>
        ensures { OnOk result (self.new ≡ with_hand self.old hand.node hand.looked) }
    {
        self.stack.push(hand.node)?;
        self.looked.push(hand.looked)
    }

    /// Takes the last node off the stack, if there is one.
    #[inline(always)]
    pub(crate) fn pop(&mut self) -> Option<Hand>
        requires { length self.old.looked ≡ length self.old.stack }
        ensures { MatchOption result ((self.old.stack ≡ []) × (self.new ≡ self.old))
            (λ hand. self.old ≡ with_hand self.new hand.node hand.looked) }
    {
        let node = self.stack.pop()?;
        let looked = self.looked.pop()?;
        Some(Hand { node, looked })
    }

    /// Gives the next rank to a node that is not on the stack.
    #[inline(always)]
    pub(crate) fn rank(&mut self, node: usize) -> Result<(), AllocError>
        requires { node < length self.old.marks }
        ensures { OnOk result (self.new ≡ ranked self.old node) }
    {
        self.by_rank.push(node)?;
        self.marks[node] = Mark::Ranked;
        Ok(())
    }

    /// How many nodes have a rank.
    pub(crate) fn count_ranked(&self) -> usize
        ensures { result ≡ length self.now.by_rank }
    {
        self.by_rank.len()
    }

    /// Gives up the nodes on the stack.
    pub(crate) fn give_up(&mut self)
        ensures { self.new ≡ without_stack self.old }
    {
        self.stack.clear();
        self.looked.clear();
        self.gave_up = true;
    }

    /// The nodes that have a rank, in the order of their ranks.
    pub(crate) fn into_ranked(self) -> Numbers
        ensures { result ≡ self.by_rank }
    {
        self.by_rank
    }

    /// The ranks and the turns of a walk, and how many nodes had their ranks first.
    pub(crate) fn into_order(self, leaves: usize) -> Order
        ensures { result
            ≡ record { ranks = self.ranks; by_rank = self.by_rank; turns = self.turns; leaves = leaves } }
    {
        Order {
            nodes: self.nodes,
            by_rank: self.by_rank,
            turns: self.turns,
            leaves,
        }
    }
}
