//! The depth-first walk along the links of a graph, which finds its strongly connected components.
ghost use Rattle.std.specs.Prelude.{◌≡◌, ◌≢◌, ◌<◌, ◌≤◌, [], ℕ, true, false, ◌⊎◌, IsTrue, ◌↔◌, IfOk, OnOk, ◌-◌, ◌+◌, length, map, replicate, take, Contains};
ghost use Rattle.opgen_components.specs.Graph.{IsGraph, graph_of, links_of};
ghost use Rattle.opgen_components.specs.Walk.{IsWalk, IsTop, IsAscending, KeepsMet, mark_of, marked, component_at, closed_marks, last_bound, work, LinksBack, Entered, Follows, Finished, Closed};

use crate::Component;
use crate::bounds::{cut, top};
use std::alloc::{AllocError, Global};

/// How far the walk has come with a node.
#[derive(Clone, Copy)]
pub enum Mark {
    New,
    /// At that place of the path.
    Open(usize),
    Done(Component),
}

/// A walk along the links of a graph.
#[derive(Drop)]
pub struct Walk {
    pub marks: Vec<Mark>,
    /// How many links of each node were followed.
    pub next: Vec<usize>,
    /// The nodes that are neither new nor done, as they were met.
    pub path: Vec<usize>,
    /// The places of the path at which groups of nodes begin that are known to lie in one component.
    pub bounds: Vec<usize>,
    /// The places of the path whose nodes may have links to follow.
    pub open_places: Vec<usize>,
    /// The nodes that are done.
    pub done: Vec<usize>,
}

// The nodes that a node leads to.
fn links_of(graph: &[Vec<usize>], node: usize) -> &[usize]
    requires { node < length graph.now }
    ensures { result.now ≡ links_of (graph_of graph.now) node }
{
    &graph[node]
}

// Gives each of the nodes a mark.
fn mark_all(marks: &mut Vec<Mark>, nodes: &[usize], mark: Mark)
    requires { (n : ℕ) → Contains nodes.now n → n < length marks.old.items }
    ensures { marks.new.items ≡ marked marks.old.items nodes.now mark }
{
    for node in nodes {
        marks[*node] = mark;
    }
}

impl Walk {
    pub fn new(alloc: Global, nodes: usize) -> Result<Walk, AllocError>
        ensures marks { IfOk result (λ w. w.marks.items ≡ replicate nodes Mark.New) }
        ensures next { IfOk result (λ w. w.next.items ≡ replicate nodes 0) }
        ensures path { IfOk result (λ w. w.path.items ≡ []) }
        ensures bounds { IfOk result (λ w. w.bounds.items ≡ []) }
        ensures open_places { IfOk result (λ w. w.open_places.items ≡ []) }
    {
        Ok(Walk {
            marks: vec![in alloc; Mark::New; nodes]?,
            next: vec![in alloc; 0; nodes]?,
            path: Vec::new(alloc),
            bounds: Vec::new(alloc),
            open_places: Vec::new(alloc),
            done: Vec::new(alloc),
        })
    }

    /// Whether the walk has not met a node.
    pub fn is_new(&self, node: usize) -> bool
        requires { node < length self.now.marks.items }
        ensures { IsTrue result ↔ (mark_of self.now.marks.items node ≡ Mark.New) }
    {
        matches!(self.marks[node], Mark::New)
    }

    /// Walks from a new node until all that it leads to is done.
    pub fn visit(&mut self, graph: &[Vec<usize>], root: usize) -> Result<(), AllocError>
        requires graph { IsGraph (graph_of graph.now) }
        requires walk { IsWalk (graph_of graph.now) self.old }
        requires path { self.old.path.items ≡ [] }
        requires there { root < length graph.now }
        requires new { mark_of self.old.marks.items root ≡ Mark.New }
        ensures walk { OnOk result (IsWalk (graph_of graph.now) self.new) }
        ensures path { OnOk result (self.new.path.items ≡ []) }
        ensures kept { OnOk result (KeepsMet self.old self.new) }
        ensures met { OnOk result (mark_of self.new.marks.items root ≢ Mark.New) }
    {
        self.enter(root)?;
        'steps: while let Some(place) = top(&self.open_places) {
            self.step(graph, place)?;
        }
        Ok(())
    }

    // Follows a link of the last open node, or leaves that node where there is none.
    fn step(&mut self, graph: &[Vec<usize>], place: usize) -> Result<(), AllocError>
        requires graph { IsGraph (graph_of graph.now) }
        requires walk { IsWalk (graph_of graph.now) self.old }
        requires top { IsTop self.old.open_places.items place }
        ensures walk { OnOk result (IsWalk (graph_of graph.now) self.new) }
        ensures kept { OnOk result (KeepsMet self.old self.new) }
        ensures less { OnOk result (work (graph_of graph.now) self.new < work (graph_of graph.now) self.old) }
    {
        let node = self.path[place];
        let at = self.next[node];
        let links = links_of(graph, node);
        if at < links.len() {
            self.follow(links[at])?;
            self.next[node] = at + 1;
            Ok(())
        } else {
            let cyclic = self.is_cycle(links, place);
            self.leave(place, cyclic)
        }
    }

    // Whether a path leads back to the node at a place of the path, which has these links, once all links from there on are followed.
    fn is_cycle(&self, links: &[usize], place: usize) -> bool
        requires { place < length self.now.path.items }
        ensures turns { result ≡ true → (place + 1 < length self.now.path.items) ⊎ LinksBack self.now place links.now }
        ensures ends { result ≡ false → (length self.now.path.items ≡ place + 1) × (LinksBack self.now place links.now → ⊥) }
    {
        self.path.len() - place > 1 || links.contains(&self.path[place])
    }

    // Enters a new node, or joins the groups from an open node on.
    fn follow(&mut self, node: usize) -> Result<(), AllocError>
        requires there { node < length self.old.marks.items }
        requires up { IsAscending self.old.bounds.items }
        ensures { OnOk result (Follows (mark_of self.old.marks.items node) self.old node self.new) }
    {
        match self.marks[node] {
            Mark::New => self.enter(node),
            Mark::Open(place) => {
                cut(&mut self.bounds, place);
                Ok(())
            }
            Mark::Done(_) => Ok(()),
        }
    }

    // Puts a new node at the end of the path.
    fn enter(&mut self, node: usize) -> Result<(), AllocError>
        requires { node < length self.old.marks.items }
        ensures { OnOk result (Entered self.old node self.new) }
    {
        let place = self.path.len();
        self.path.push(node)?;
        self.bounds.push(place)?;
        self.open_places.push(place)?;
        self.marks[node] = Mark::Open(place);
        Ok(())
    }

    // Leaves the last open node, and closes the group that begins with it.
    fn leave(&mut self, place: usize, cyclic: bool) -> Result<(), AllocError>
        requires bounds { 0 < length self.old.bounds.items }
        requires within { place ≤ length self.old.path.items }
        requires nodes { (n : ℕ) → Contains self.old.path.items n → n < length self.old.marks.items }
        ensures closes { last_bound self.old ≡ place → OnOk result (Closed self.old place cyclic self.new) }
        ensures goes_on { last_bound self.old ≢ place → OnOk result (Finished self.old self.new) }
    {
        self.open_places.pop();
        if self.bounds[self.bounds.len() - 1] == place {
            self.bounds.pop();
            self.close(place, cyclic)
        } else {
            Ok(())
        }
    }

    // Makes a component of the nodes from a place on.
    fn close(&mut self, place: usize, cyclic: bool) -> Result<(), AllocError>
        requires within { place ≤ length self.old.path.items }
        requires nodes { (n : ℕ) → Contains self.old.path.items n → n < length self.old.marks.items }
        ensures marks { OnOk result (self.new.marks.items ≡ closed_marks self.old place cyclic) }
        ensures path { OnOk result (self.new.path.items ≡ take place self.old.path.items) }
        ensures done { OnOk result (length self.new.done.items ≡ length self.old.done.items + (length self.old.path.items - place)) }
        ensures next { self.new.next.items ≡ self.old.next.items }
        ensures bounds { self.new.bounds.items ≡ self.old.bounds.items }
        ensures open_places { self.new.open_places.items ≡ self.old.open_places.items }
    {
        let component = Component {
            number: self.done.len(),
            cyclic,
        };
        mark_all(&mut self.marks, &self.path[place..], Mark::Done(component));
        self.done.extend_from_slice(&self.path[place..])?;
        self.path.truncate(place);
        Ok(())
    }

    /// The components, once all nodes are done.
    pub fn components(&self, alloc: Global) -> Result<Vec<Component>, AllocError>
        ensures { IfOk result (λ cs. cs.items ≡ map component_at self.now.marks.items) }
    {
        let mut found = Vec::new(alloc);
        for mark in &self.marks {
            found.push(component(*mark))?;
        }
        Ok(found)
    }
}

// The component of a node that is done.
fn component(mark: Mark) -> Component
    ensures { result ≡ component_at mark }
{
    match mark {
        Mark::Done(component) => component,
        _ => Component {
            number: 0,
            cyclic: false,
        },
    }
}
