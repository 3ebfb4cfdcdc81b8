use tl_store::Store;

// What is in a worker's memory, and how often the worker was lost.
#[derive(Drop)]
pub(crate) struct Worker {
    pub(crate) store: Store,
    pub(crate) incarnation: u64,
}
