//! A client: a desk, a handle of the checkpoint store, and the worker on which its reads run what
//! they need.

ghost use Rattle.std.specs.Prelude.{◌≡◌};
ghost use Rattle.tl_clients.specs.Ready.{IsReady};

use tl_desk::Desk;
use tl_io::Depot;
use tl_types::WorkerId;

/// What one client does. After each call it has no read, claim or save open.
#[derive(Drop)]
pub struct Client<K: Desk<D::Ticket>, D: Depot> {
    pub(crate) desk: K,
    pub(crate) depot: D,
    pub(crate) worker: WorkerId,
    ghost ready: { IsReady K.whole (K.post (K.home desk)) worker (K.seen desk) },
}

impl<K: Desk<D::Ticket>, D: Depot> Client<K, D> {
    /// A client with this desk, which is at rest.
    pub fn new(desk: K, depot: D, worker: WorkerId) -> Client<K, D>
        requires { IsReady K.whole (K.post (K.home desk)) worker (K.seen desk) }
        ensures desk { result.desk ≡ desk }
        ensures depot { result.depot ≡ depot }
        ensures worker { result.worker ≡ worker }
    {
        Client {
            desk,
            depot,
            worker,
        }
    }

    /// The desk and the handle.
    pub fn into_parts(self) -> (K, D)
        ensures parts { result ≡ (self.desk, self.depot) }
        ensures ready { IsReady K.whole (K.post (K.home self.desk)) self.worker (K.seen self.desk) }
    {
        (self.desk, self.depot)
    }
}
