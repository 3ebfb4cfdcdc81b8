//! The cluster that actors share, each in its turn.

ghost use Rattle.std.specs.Prelude.{◌≡◌};

use crate::named::Named;
use std::marker::PhantomData;
use tl_cluster::Cluster;
use tl_io::Ticket;
use tl_model::Event;
use tl_turn::Told;

/// A cluster with the header that `N` names. Its log is its journal, and the seat that makes an
/// event has its actor's number.
#[derive(Drop)]
pub struct Shared<T: Ticket, N: Named> {
    cluster: Cluster<T>,
    of: PhantomData<N>,
    ghost named: { cluster.header ≡ N.header },
}

impl<T: Ticket, N: Named> Shared<T, N> {
    /// The cluster, to be shared.
    pub fn new(cluster: Cluster<T>) -> Shared<T, N>
        requires named { cluster.header ≡ N.header }
        ensures cluster { result.cluster ≡ cluster }
    {
        Shared {
            cluster,
            of: PhantomData,
        }
    }

    /// The cluster.
    pub fn into_cluster(self) -> Cluster<T>
        ensures cluster { result ≡ self.cluster }
        ensures named { result.header ≡ N.header }
    {
        self.cluster
    }
}

impl<T: Ticket, N: Named> Told for Shared<T, N> {
    ghost use Rattle.tl_seats.specs.Seats.{number_of};

    type Entry = Event<T>;

    ghost maker = { number_of };

    ghost log = { λ s. s.cluster.events };

    fn entries(&self) -> u64 {
        self.cluster.journal().len()
    }
}
