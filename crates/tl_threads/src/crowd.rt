//! Clients and a crew, played at once.

ghost use Rattle.std.specs.Prelude.{◌≡◌, ◌≤◌, [], All, IfOk, vec_len, vec_capacity};
ghost use Rattle.std.specs.List.{AllZip};

use crate::each::play_each;
use crate::part::{Part, Played};
use std::alloc::{AllocError, Global};
use std::snapshot::Snapshot;
use std::sync::Wait;
use std::sync::atomic::AtomicBool;
use std::sync::atomic::Ordering::SeqCst;
use std::thread;
use std::thread::{Scope, Threads};

/// What the parts of a crowd gave, those of the clients and those of the crew in their orders.
#[derive(Drop)]
pub struct Crowd<X, Y> {
    pub clients: Vec<X>,
    pub crew: Vec<Y>,
}

// Tells the crew that the clients have ended, which is so where each of them has its result.
fn tell_end<P: Part>(ended: &AtomicBool, _clients: Snapshot<Vec<P>>, _outs: &Vec<P::Out>)
    requires { AllZip P.plays _clients.value.items _outs.now.items }
{
    ended.store(true, SeqCst);
}

// Plays the clients to their ends, and then tells the crew.
fn play_clients<'s, E, R: Threads, C: Part<Out: 's> + 's>(
    rt: &R,
    scope: &'s Scope<'s, E>,
    ended: &AtomicBool,
    clients: Vec<C>,
    outs: &mut Vec<C::Out>,
)
    requires ready { All C.ready clients.items }
    requires empty { outs.old.items ≡ [] }
    requires room { vec_len clients ≤ vec_capacity outs.old }
    ensures plays { AllZip C.plays clients.items outs.new.items }
{
    let all = Snapshot::of(&clients);
    play_each(rt, scope, clients, outs);
    tell_end::<C>(ended, all, outs);
}

// Starts the crew, plays the clients meanwhile, and takes in what the crew gives once it is told.
// Those of the crew whose thread the system refuses are played here, after the end was told.
fn play_around<'s, E, R: Threads, C: Part<Out: 's> + 's, W: Part<Out: 's> + 's>(
    rt: &R,
    scope: &'s Scope<'s, E>,
    ended: &AtomicBool,
    clients: Vec<C>,
    mut crew: Vec<W>,
    outs: &mut Crowd<C::Out, W::Out>,
)
    requires clients { All C.ready clients.items }
    requires crew { All W.ready crew.items }
    requires empty { (outs.old.clients.items ≡ []) × (outs.old.crew.items ≡ []) }
    requires rooms { vec_len clients ≤ vec_capacity outs.old.clients }
    requires room { vec_len crew ≤ vec_capacity outs.old.crew }
    ensures clients { AllZip C.plays clients.items outs.new.clients.items }
    ensures crew { AllZip W.plays crew.items outs.new.crew.items }
    ensures many { vec_len outs.new.crew ≡ vec_len crew }
    ensures room { vec_capacity outs.new.crew ≡ vec_capacity outs.old.crew }
{
    let Some(part) = crew.pop() else {
        return play_clients(rt, scope, ended, clients, &mut outs.clients);
    };
    let promise = Played(Snapshot::of(&part));
    let played = move || -> W::Out
        requires { W.ready part }
        ensures { W.plays part result }
    { part.play() };
    let started = scope.spawn_with(promise, played);
    play_around(rt, scope, ended, clients, crew, outs);
    outs.crew.push_reserved(match started {
        Ok(thread) => thread.join(rt),
        Err(refused) => (refused.value)(),
    });
}

/// Plays the clients and the crew at once, each part on a thread of its own, and gives what each
/// gave, one for each part, in their orders. Once all clients have ended `ended` is set, which tells
/// the crew to end too. Where the system refuses a thread its part is played here: a client's once
/// all other parts were started, and one of the crew once the clients have ended.
///
/// `AllocError` where memory for what is given ran out; then no part was played, and `ended` is as
/// it was.
pub fn play_crowd<R: Threads + Wait + Sync, C: Part, W: Part>(
    rt: &R,
    alloc: Global,
    clients: Vec<C>,
    crew: Vec<W>,
    ended: &AtomicBool,
) -> Result<Crowd<C::Out, W::Out>, AllocError>
    requires clients { All C.ready clients.items }
    requires crew { All W.ready crew.items }
    ensures clients { IfOk result (λ outs. AllZip C.plays clients.items outs.clients.items) }
    ensures crew { IfOk result (λ outs. AllZip W.plays crew.items outs.crew.items) }
{
    let mut outs = Crowd {
        clients: Vec::with_capacity(alloc.clone()?, clients.len())?,
        crew: Vec::with_capacity(alloc, crew.len())?,
    };
    Ok(thread::scope(
        thread::scope_env(),
        rt,
        move |scope| -> Crowd<C::Out, W::Out>
            requires { All C.ready clients.items × All W.ready crew.items
                × (outs.clients.items ≡ []) × (outs.crew.items ≡ [])
                × (vec_len clients ≤ vec_capacity outs.clients)
                × (vec_len crew ≤ vec_capacity outs.crew) }
            ensures { AllZip C.plays clients.items result.clients.items
                × AllZip W.plays crew.items result.crew.items }
        {
            let mut outs = outs;
            play_around(rt, scope, ended, clients, crew, &mut outs);
            outs
        },
    ))
}
