//! The order of small graphs and of a long chain, each plain and packed.

ghost use Rattle.std.specs.Prelude.{◌≡◌, length};
ghost use Rattle.dw_types.specs.Graphs.{LeadsToNodes};
ghost use Rattle.dw_tests.specs.Rows.{row_items};

use dw_types::{OrderFault, Packed, StepGraph, order};
use std::alloc::{AllocError, Global};
use std::cell::Cell;
use std::test::Fail;

/// A graph by rows: the steps of each node. It counts how often a step is looked at.
#[derive(Drop)]
struct Rows {
    rows: Vec<Vec<usize>>,
    looks: Cell<u64>,
    ghost leads: { LeadsToNodes (row_items rows.items) },
}

impl Rows {
    /// The graph with these rows, where each step leads to a row.
    fn new(rows: Vec<Vec<usize>>) -> Option<Self> {
        let nodes = rows.len();
        for row in &rows {
            for to in row {
                if *to >= nodes {
                    return None;
                }
            }
        }
        Some(Rows {
            rows,
            looks: Cell::new(0),
        })
    }
}

impl StepGraph for Rows {
    ghost graph = { λ it. row_items it.rows.items };

    ghost leads_to_nodes = { λ it. it.leads };

    fn nodes(&self) -> usize {
        self.rows.len()
    }

    fn steps(&self, node: usize) -> usize {
        self.rows[node].len()
    }

    fn step(&self, node: usize, k: usize) -> usize {
        self.looks.set(self.looks.get().wrapping_add(1));
        self.rows[node][k]
    }
}

/// The graph of constant rows.
fn graph_of(alloc: Global, rows: &[&[usize]]) -> Result<Rows, Fail> {
    let mut all = Vec::new(alloc);
    for row in rows {
        all.push(Vec::from_slice(alloc, row)?)?;
    }
    match Rows::new(all) {
        Some(graph) => Ok(graph),
        None => Err("no graph".into()),
    }
}

/// A graph with a step from each node to the next.
fn chain_of(alloc: Global, nodes: usize) -> Result<Rows, Fail> {
    let mut rows = Vec::new(alloc);
    for next in 1..nodes {
        rows.push(Vec::from_slice(alloc, &[next])?)?;
    }
    rows.push(Vec::new(alloc))?;
    match Rows::new(rows) {
        Some(graph) => Ok(graph),
        None => Err("no graph".into()),
    }
}

/// The turns of a graph's order and after them the rank of each node; or 0 and the nodes of a cycle.
fn ordered<G: StepGraph>(alloc: Global, graph: &G) -> Result<(u128, Vec<usize>), AllocError> {
    match order(alloc, graph) {
        Ok(order) => {
            let mut ranks = Vec::new(alloc);
            for node in 0..graph.nodes() {
                ranks.push(order.rank(node))?;
            }
            Ok((order.turns(), ranks))
        }
        Err(OrderFault::Cycle(nodes)) => Ok((0, nodes)),
        Err(OrderFault::Memory) => Err(AllocError),
    }
}

/// The turns of a graph's order; or 0 if it has a cycle.
fn turns_of<G: StepGraph>(alloc: Global, graph: &G) -> Result<u128, AllocError> {
    match order(alloc, graph) {
        Ok(order) => Ok(order.turns()),
        Err(OrderFault::Cycle(_)) => Ok(0),
        Err(OrderFault::Memory) => Err(AllocError),
    }
}

/// A graph, how many steps are looked at at most, and what `ordered` returns. These ranks are the only ones if the walk
/// begins with node 0.
const GRAPHS: [(&[&[usize]], u64, u128, &[usize]); 7] = [
    (&[], 0, 0, &[]),
    (&[&[1], &[2], &[]], 2, 5, &[2, 1, 0]),
    (&[&[1, 1], &[]], 2, 4, &[1, 0]),
    (&[&[], &[0], &[1, 0]], 3, 6, &[0, 1, 2]),
    (&[&[0]], 1, 0, &[0, 0]),
    (&[&[2], &[2], &[3], &[1]], 4, 0, &[1, 2, 3, 1]),
    (&[&[], &[3], &[1, 0], &[0, 2]], 5, 0, &[1, 3, 2, 1]),
];

#[test]
fn orders(rt: HostRuntime) -> Result<(), Fail> {
    for (rows, most, turns, nodes) in &GRAPHS {
        let graph = graph_of(rt.alloc(), rows)?;
        let packed = Packed::new(rt.alloc(), &graph).ok().ok_or("no memory")?;
        graph.looks.set(0);
        for (found, ranks) in [ordered(rt.alloc(), &graph)?, ordered(rt.alloc(), &packed)?] {
            assert_eq!(rt; (found, ranks.as_slice()), (*turns, *nodes));
        }
        assert!(rt; graph.looks.get() <= *most);
    }
    Ok(())
}

// A chain of 100,000 nodes has 99,999 steps. Its ranks are not looked up: each look-up searches all nodes.
#[test]
fn orders_a_chain(rt: HostRuntime) -> Result<(), Fail> {
    let graph = chain_of(rt.alloc(), 100_000)?;
    let packed = Packed::new(rt.alloc(), &graph).ok().ok_or("no memory")?;
    graph.looks.set(0);
    assert_eq!(rt; turns_of(rt.alloc(), &graph)?, 199_999);
    assert!(rt; graph.looks.get() <= 99_999);
    assert_eq!(rt; turns_of(rt.alloc(), &packed)?, 199_999);
    Ok(())
}
