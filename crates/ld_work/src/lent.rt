// What is lent to each worker.
use crate::bounds::Bounds;
use ld_cache::Cache;
use ld_graph::Graph;
use std::alloc::Global;

#[derive(Clone, Copy)]
pub(crate) struct Lent<'a> {
    pub(crate) alloc: Global,
    pub(crate) graph: &'a Graph,
    pub(crate) cache: &'a Cache,
    pub(crate) bounds: Bounds,
}
