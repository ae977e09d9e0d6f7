// Graphs in which three edges meet at each vertex, and the circuits that Cai, Fürer and Immerman make of them.
use super::netlist::Netlist;
use std::alloc::{AllocError, Global};

#[derive(Clone, Copy)]
struct Edge {
    from: u64,
    to: u64,
}

#[derive(Drop)]
pub struct Graph {
    vertices: u64,
    edges: Vec<Edge>,
}

impl Graph {
    /// A ring of n, spokes, and n inner vertices joined k apart: the cube is 4, 1, Petersen's graph 5, 2, and that of Möbius and Kantor 8, 3.
    pub fn ring_and_star(heap: Global, n: u64, k: u64) -> Result<Graph, AllocError> {
        let mut edges = Vec::new(heap);
        for i in 0..n {
            let inner = n.saturating_add(i);
            edges.push(Edge {
                from: i,
                to: i.saturating_add(1) % n,
            })?;
            edges.push(Edge { from: i, to: inner })?;
            edges.push(Edge {
                from: inner,
                to: n.saturating_add(i.saturating_add(k) % n),
            })?;
        }
        Ok(Graph {
            vertices: n.saturating_mul(2),
            edges,
        })
    }

    // The nets of an edge's end: one for each of two values.
    fn end(edge: usize, at_to: bool, value: bool) -> u64 {
        let first = (edge as u64).saturating_mul(4).saturating_add(1);
        let end = first.saturating_add(if at_to { 2 } else { 0 });
        end.saturating_add(if value { 1 } else { 0 })
    }

    // Four nets for a vertex, one for each even choice among its three edges, joined with the chosen values of their ends.
    fn add_vertex(&self, out: &mut Netlist, vertex: u64) -> Result<(), AllocError> {
        let first = out.nets;
        let mut met: u64 = 0;
        for (i, edge) in self.edges.as_slice().iter().enumerate() {
            if (edge.from != vertex) & (edge.to != vertex) {
                continue;
            }
            for choice in 0..4u64 {
                let chosen = (choice != 0) & (choice.saturating_add(met) != 3);
                let net = Graph::end(i, edge.to == vertex, chosen);
                out.add(0, first.saturating_add(choice), net)?;
            }
            met = met.saturating_add(1);
        }
        out.nets = first.saturating_add(4);
        Ok(())
    }

    /// The circuit of a graph; twisted, the values of one edge are crossed.
    pub fn circuit(&self, heap: Global, twisted: bool) -> Result<Netlist, AllocError> {
        let ends = (self.edges.len() as u64)
            .saturating_mul(4)
            .saturating_add(1);
        let mut out = Netlist::new(heap, ends);
        for vertex in 0..self.vertices {
            self.add_vertex(&mut out, vertex)?;
        }
        for i in 0..self.edges.len() {
            let crossed = twisted & (i == 0);
            out.add(0, Graph::end(i, false, false), Graph::end(i, true, crossed))?;
            out.add(0, Graph::end(i, false, true), Graph::end(i, true, !crossed))?;
        }
        Ok(out)
    }
}
