//! In which order `gathering` has the nodes of a numbered graph looked at. Only the time that this
//! takes depends on it.

ghost use Rattle.std.specs.Prelude.{◌<◌, IfSome, length};

use crate::labels::{Edge, Labelled};
use crate::numbered::Numbered;
use std::alloc::{AllocError, Global};

/// A place on the way down, and how many of its edges were gone over.
#[derive(Clone, Copy)]
struct Stop {
    place: u32,
    edges: usize,
}

/// A walk down the edges of a graph.
#[derive(Drop)]
struct Descent {
    /// Which places the walk has come to.
    begun: Vec<bool>,
    /// The stops on the way to where the walk is.
    above: Vec<Stop>,
    /// The places from which the walk went up again.
    done: Vec<u32>,
}

/// The places that are reached from the start, each after those to which its edges lead, unless
/// these lead back to it. No clause says so. The error is that memory ran out.
pub(crate) fn ends_first<G: Labelled>(
    alloc: Global,
    graph: &Numbered<'_, G>,
    start: u32,
) -> Result<Vec<u32>, AllocError> {
    let mut descent = Descent::new(alloc, graph.len())?;
    descent.enter(start)?;
    for _turn in 0..u64::MAX {
        let Some(stop) = descent.above.pop() else {
            break;
        };
        descent.go_on(stop, graph.leaving(stop.place))?;
    }
    Ok(descent.into_done())
}

impl Descent {
    /// Before the start, with so many places.
    fn new(alloc: Global, places: usize) -> Result<Self, AllocError> {
        let mut begun = Vec::new(alloc);
        for _ in 0..places {
            begun.push(false)?;
        }
        Ok(Descent {
            begun,
            above: Vec::new(alloc),
            done: Vec::new(alloc),
        })
    }

    /// Goes down to the place.
    fn enter(&mut self, place: u32) -> Result<(), AllocError> {
        if let Some(begun) = self.begun.get_mut(place as usize) {
            *begun = true;
            self.above.push(Stop { place, edges: 0 })?;
        }
        Ok(())
    }

    /// Goes down the first of the edges left that leads to a new place, or up if there is none.
    fn go_on<L: Drop>(&mut self, stop: Stop, edges: &[Edge<u32, L>]) -> Result<(), AllocError> {
        match self.first_new(stop.edges, edges) {
            Some(next) => {
                self.above.push(Stop {
                    place: stop.place,
                    edges: next,
                })?;
                self.enter(edges[next].to)
            }
            None => {
                self.done.push(stop.place)?;
                Ok(())
            }
        }
    }

    /// The first of the edges, from one on, that leads to a new place.
    fn first_new<L: Drop>(&self, first: usize, edges: &[Edge<u32, L>]) -> Option<usize>
        ensures { IfSome result (λ next. next < length edges.now) }
    {
        for next in first..edges.len() {
            if self.begun.get(edges[next].to as usize) == Some(&false) {
                return Some(next);
            }
        }
        None
    }

    /// The places in the order in which the walk went up from them.
    fn into_done(self) -> Vec<u32> {
        let Descent {
            begun: _,
            above: _,
            done,
        } = self;
        done
    }
}
