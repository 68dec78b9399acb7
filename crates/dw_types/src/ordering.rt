//! The order of a graph, or a cycle in it: one walk with a stack, which looks at each step once.

ghost use Rattle.std.specs.Prelude.{◌≡◌, ◌≢◌, ℕ, ◌+◌, ◌-◌, ◌^◌, ◌<◌, ◌≤◌, [], ◌∷◌, ◌++◌, None, length, take, drop};
ghost use Rattle.std.specs.Prelude.{slice_index, Contains, IfErr, IfOk, OnOk};
ghost use Rattle.dw_types.specs.Cycles.{AreClear};
ghost use Rattle.dw_types.specs.Graphs.{steps_of, step_at, FollowsSteps, IsStep, IsCycle, HasNoCycle};
ghost use Rattle.dw_types.specs.LongestRows.{AreLongest, IsOneMore};
ghost use Rattle.dw_types.specs.OrderFaults.{IsOrderFault};
ghost use Rattle.dw_types.specs.Orders.{IsOrderOf};
ghost use Rattle.dw_types.specs.Walks.{HasWalked, IsKept, LooksOn};
ghost use Rattle.dw_types.specs.WalkStates.{mark_in, opened, with_hand};
ghost use Rattle.dw_types.specs.declared.ordering.OrderFault.TheVariants.{Memory};
ghost use Rattle.dw_types.specs.declared.walk.Mark.TheVariants.{Fresh};

use crate::firsts::WithFirsts;
use crate::graph::{Order, StepGraph};
use crate::numbers::Numbers;
use crate::walk::{Hand, Mark, Walk};
use std::alloc::{AllocError, Global};

/// Why a graph has no order.
#[derive(Drop)]
pub enum OrderFault {
    /// Nodes, each a step from the one before, that begin and end with the least of them and have every
    /// other node once. Where a graph has several, any of them.
    Cycle(Vec<usize>),
    /// A growth was refused.
    Memory,
}

impl From<AllocError> for OrderFault {
    ghost from_gives = { λ _ fault. fault ≡ Memory };

    fn from(_e: AllocError) -> OrderFault {
        OrderFault::Memory
    }
}

/// Ranks that fall along each step of a graph, or a cycle in it. Each node is taken up once, and each step
/// looked at once.
pub fn order<G: StepGraph>(alloc: Global, graph: &G) -> Result<Order, OrderFault>
    ensures ok { IfOk result (IsOrderOf (G.graph graph.now)) }
    ensures no_cycle { OnOk result (HasNoCycle (G.graph graph.now)) }
    ensures err { IfErr result (IsOrderFault (G.graph graph.now)) }
{
    let nodes = graph.nodes();
    let with_steps = graph.with_steps(alloc)?;
    let (firsts, mut walk) = Walk::new(alloc, graph, &with_steps)?;
    let leaves = walk.count_ranked();
    let with_firsts = WithFirsts { graph, firsts };
    let mut start = with_steps.next(0, nodes);
    while start < nodes {
        if let Mark::Fresh = walk.mark(start) {
            if let Some(to) = walk_from(&with_firsts, &mut walk, start)? {
                let cycle = cycle_to(alloc, graph, walk.stack(), to)?;
                return Err(OrderFault::Cycle(cycle));
            }
        }
        start = with_steps.next(start + 1, nodes);
    }
    Ok(walk.into_order(leaves))
}

/// The nodes of a graph that reach no cycle, by rising rank: each after those that its steps lead to. This is the walk
/// of `order`, which goes on past each cycle.
pub fn clear_nodes<G: StepGraph>(alloc: Global, graph: &G) -> Result<Numbers, AllocError>
    ensures { IfOk result (AreClear (G.graph graph.now)) }
{
    let nodes = graph.nodes();
    let with_steps = graph.with_steps(alloc)?;
    let (firsts, mut walk) = Walk::new(alloc, graph, &with_steps)?;
    let with_firsts = WithFirsts { graph, firsts };
    let mut node = with_steps.next(0, nodes);
    while node < nodes {
        if let Mark::Fresh = walk.mark(node) {
            if let Some(_) = walk_from(&with_firsts, &mut walk, node)? {
                walk.give_up();
            }
        }
        node = with_steps.next(node + 1, nodes);
    }
    Ok(walk.into_ranked())
}

/// How many steps the longest row from each clear node has. Each clear node comes after those that its steps lead to.
pub fn longest_rows<G: StepGraph>(
    alloc: Global,
    graph: &G,
    clear: &Numbers,
) -> Result<Numbers, AllocError>
    requires { AreClear (G.graph graph.now) clear.now }
    ensures { IfOk result (λ counts. AreLongest (G.graph graph.now) clear.now (slice_index counts)) }
{
    let mut counts = Numbers::zeros(alloc, graph.nodes())?;
    for rank in 0..clear.len() {
        let node = clear.get(rank);
        let most = one_above(graph, &counts, node);
        counts.set(alloc, node, most)?;
    }
    Ok(counts)
}

/// The count of a node; 0 where there is none.
pub fn longest_at(counts: &Numbers, node: usize) -> usize
    ensures { result ≡ slice_index counts.now node }
{
    if node < counts.len() {
        counts.get(node)
    } else {
        0
    }
}

/// One more than the largest count at the steps of a node, and 0 if it has none.
fn one_above<G: StepGraph>(graph: &G, counts: &Numbers, node: usize) -> usize
    requires node { node < length (G.graph graph.now) }
    requires counts { length counts.now ≡ length (G.graph graph.now) }
    requires fits { (k : ℕ) → k < length (steps_of (G.graph graph.now) node)
        → slice_index counts.now (step_at (G.graph graph.now) node k) + 1 < 2 ^ 64 }
    ensures { IsOneMore (G.graph graph.now) counts.now node result }
{
    let mut most = 0;
    for k in 0..graph.steps(node) {
        let count = counts.get(graph.step(node, k)) + 1;
        if most < count {
            most = count;
        }
    }
    most
}

/// Takes up a fresh node, and walks on until each node that was taken up has its rank, or until a step closes a cycle.
/// Then it returns the node that the step leads to.
#[inline(always)]
fn walk_from<G: StepGraph>(
    graph: &G,
    walk: &mut Walk,
    start: usize,
) -> Result<Option<usize>, AllocError>
    requires kept { IsKept (G.graph graph.now) walk.old }
    requires empty { walk.old.stack ≡ [] }
    requires start { start < length (G.graph graph.now) }
    requires fresh { mark_in walk.old.marks start ≡ Fresh }
    ensures { IfOk result (HasWalked (G.graph graph.now) (opened walk.old start) walk.new) }
{
    let hand = walk.take_up(start);
    walk_on(graph, walk, hand)
}

/// Walks on from a node at hand until each node that was taken up has its rank, or until a step closes a cycle.
#[inline(never)]
fn walk_on<G: StepGraph>(
    graph: &G,
    walk: &mut Walk,
    hand: Hand,
) -> Result<Option<usize>, AllocError>
    requires { IsKept (G.graph graph.now) (with_hand walk.old hand.node hand.looked) }
    ensures { IfOk result (HasWalked (G.graph graph.now) walk.old walk.new) }
{
    let mut at = Some(hand);
    while let Some(hand) = at {
        let (looked, other) = look_on(graph, walk, hand.node, hand.looked);
        walk.count(looked - hand.looked);
        at = match other {
            None => {
                walk.rank(hand.node)?;
                walk.pop()
            }
            Some(to) => {
                walk.push(Hand { looked, ..hand })?;
                match walk.mark(to) {
                    Mark::Fresh => Some(walk.take_up(to)),
                    _ => return Ok(Some(to)),
                }
            }
        };
    }
    Ok(None)
}

/// Looks at the steps of a node from one on, up to the first that leads to a node without a rank. Returns how many of
/// its steps are looked at then, and the node that this one leads to, if there is one.
#[inline(always)]
fn look_on<G: StepGraph>(graph: &G, walk: &Walk, node: usize, from: usize) -> (usize, Option<usize>)
    requires node { node < length (G.graph graph.now) }
    requires from { from ≤ length (steps_of (G.graph graph.now) node) }
    requires marks { length walk.now.marks ≡ length (G.graph graph.now) }
    ensures { LooksOn (G.graph graph.now) walk.now.marks node from result.0 result.1 }
{
    let steps = graph.steps(node);
    for k in from..steps {
        let to = graph.step(node, k);
        if !matches!(walk.mark(to), Mark::Ranked) {
            return (k + 1, Some(to));
        }
    }
    (steps, None)
}

/// The cycle that a step from the top of the stack to a node on it closes, turned to begin with its least node.
fn cycle_to<G: StepGraph>(
    alloc: Global,
    graph: &G,
    stack: &Numbers,
    to: usize,
) -> Result<Vec<usize>, AllocError>
    requires on_stack { Contains stack.now to }
    requires once { (i j : ℕ) → i < j → j < length stack.now → slice_index stack.now i ≢ slice_index stack.now j }
    requires steps { FollowsSteps (G.graph graph.now) stack.now }
    requires closes { IsStep (G.graph graph.now) (slice_index stack.now (length stack.now - 1)) to }
    ensures { IfOk result (λ cycle. IsCycle (G.graph graph.now) cycle.items) }
{
    let stack = stack.to_vec(alloc)?;
    let stack = stack.as_slice();
    let ring = &stack[place_of(stack, to)..];
    Ok(round_from(alloc, ring, place_of_least(ring))?)
}

/// The place of a node among others.
fn place_of(nodes: &[usize], node: usize) -> usize
    requires { Contains nodes.now node }
    ensures place_in { result < length nodes.now }
    ensures found { slice_index nodes.now result ≡ node }
{
    nodes.iter().position(|other| *other == node).unwrap()
}

/// The place of the least node.
fn place_of_least(nodes: &[usize]) -> usize
    requires { 0 < length nodes.now }
    ensures place_in { result < length nodes.now }
    ensures least { (k : ℕ) → k < length nodes.now → slice_index nodes.now result ≤ slice_index nodes.now k }
{
    nodes
        .iter()
        .enumerate()
        .min_by_key(|pair| *pair.1)
        .unwrap()
        .0
}

/// A closed walk round a ring of nodes, from the one at a place back to it.
fn round_from(alloc: Global, ring: &[usize], place: usize) -> Result<Vec<usize>, AllocError>
    requires { place < length ring.now }
    ensures { IfOk result (λ round. round.items
        ≡ (drop place ring.now ++ take place ring.now) ++ slice_index ring.now place ∷ []) }
{
    let mut round = Vec::new(alloc);
    round.extend_from_slice(&ring[place..])?;
    round.extend_from_slice(&ring[..place])?;
    round.push(ring[place])?;
    Ok(round)
}
