ghost use Rattle.std.specs.Prelude.{◌≡◌, ◌<◌, List, map, IfOk, IfSome, IsSome};
ghost use Rattle.indexmap.specs.IndexMap.{get};
ghost use Rattle.fs_paths.specs.declared.path_found.PathFound.{PathFound as PathFoundOf};
ghost use Rattle.fs_paths.specs.Links.{same_node};
ghost use Rattle.fs_paths.specs.Places.{numbered, HasFirstPaths, with_one_more};

use crate::path_found::PathFound;
use crate::{NodeId, PathTo};
use fs_rows::Memory;
use indexmap::IndexMap;
use std::alloc::Global;

/// Where the first path to an object stands, and how many there are.
#[derive(Clone, Copy, Debug)]
struct FirstPath {
    /// The number of the first path, counted from 0.
    first: usize,
    /// How many paths there are.
    names: u64,
}

/// The paths with the place of the first one to the same object, and the number of those.
pub fn number(alloc: Global, found: Vec<PathFound>) -> Result<Vec<PathTo>, Memory>
    ensures { IfOk result (λ list. list.items ≡ map (numbered found.items) found.items) }
{
    let places = note_all(alloc, &found)?;
    let mut list = Vec::new(alloc);
    for each in found {
        list.push(with_place(&places, each))?;
    }
    Ok(list)
}

/// The place of each object that a path leads to.
fn note_all(alloc: Global, found: &Vec<PathFound>) -> Result<IndexMap<NodeId, FirstPath>, Memory>
    ensures { IfOk result (λ places. HasFirstPaths places found.now.items) }
{
    let mut places = IndexMap::new(alloc);
    for i in 0..found.len() {
        let target = found[i].target;
        let place = with_one_more(places.get(&target).copied(), i);
        places.insert(target, place)?;
    }
    Ok(places)
}

/// The place of an object with one path more, which is number `i`.
fn with_one_more(place: Option<FirstPath>, i: usize) -> FirstPath
    requires { IfSome place (λ p. p.names < u64.MAX) }
    ensures { result ≡ with_one_more place i }
{
    match place {
        None => FirstPath { first: i, names: 1 },
        Some(place) => FirstPath {
            first: place.first,
            names: place.names + 1,
        },
    }
}

/// A path with the place of its object.
fn with_place(places: &IndexMap<NodeId, FirstPath>, found: PathFound) -> PathTo
    requires { IsSome (get same_node places.now found.target) }
    ensures { (all : List PathFoundOf) → HasFirstPaths places.now all → result ≡ numbered all found }
{
    let place = *places.get(&found.target).unwrap();
    PathTo {
        path: found.path,
        target: found.target,
        least: place.first,
        names: place.names,
    }
}
