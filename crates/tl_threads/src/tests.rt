//! Clients and crews on threads of their own.

ghost use Rattle.std.specs.Prelude.{◌≡◌, ⊤};

use crate::{Part, play_crowd};
use std::alloc::AllocError;
use std::sync::Wait;
use std::sync::atomic::Ordering::SeqCst;
use std::sync::atomic::{AtomicBool, AtomicU64};
use std::thread;

// Gives its number once it has yielded so often, and counts those that have ended.
#[derive(Drop)]
struct Counted<'a> {
    number: u32,
    many_ended: &'a AtomicU64,
}

impl<'a> Part for Counted<'a> {
    type Out = u32;

    ghost ready = { λ _. ⊤ };

    ghost plays = { λ part out. out ≡ part.number };

    fn play(self) -> u32 {
        for _ in 0..self.number {
            thread::yield_now();
        }
        self.many_ended.fetch_add(1, SeqCst);
        self.number
    }
}

// Waits for the end, and gives how many have ended by then.
#[derive(Drop)]
struct Watching<'a, R> {
    rt: &'a R,
    ended: &'a AtomicBool,
    many_ended: &'a AtomicU64,
}

impl<'a, R: Wait + Sync> Part for Watching<'a, R> {
    type Out = u64;

    ghost ready = { λ _. ⊤ };

    ghost plays = { λ _ _. ⊤ };

    fn play(self) -> u64 {
        for _ in self.rt.forever() {
            if self.ended.load(SeqCst) {
                break;
            }
            thread::yield_now();
        }
        self.many_ended.load(SeqCst)
    }
}

#[test]
fn the_crew_ends_after_the_clients(rt: HostRuntime) -> Result<(), AllocError> {
    let ended = AtomicBool::new(false);
    let many_ended = AtomicU64::new(0);
    let mut clients = Vec::new(rt.alloc());
    for number in 0..8u32 {
        let many_ended = &many_ended;
        clients.push(Counted { number, many_ended })?;
    }
    let mut crew = Vec::new(rt.alloc());
    for _ in 0..3 {
        crew.push(Watching {
            rt: &rt,
            ended: &ended,
            many_ended: &many_ended,
        })?;
    }
    let crowd = play_crowd(&rt, rt.alloc(), clients, crew, &ended)?;
    assert_eq!(rt;
        crowd.clients.as_slice(),
        [0, 1, 2, 3, 4, 5, 6, 7].as_slice()
    );
    assert_eq!(rt; crowd.crew.as_slice(), [8, 8, 8].as_slice());
    Ok(())
}

#[test]
fn nobody_at_all(rt: HostRuntime) -> Result<(), AllocError> {
    let ended = AtomicBool::new(false);
    let clients: Vec<Counted> = Vec::new(rt.alloc());
    let crew: Vec<Counted> = Vec::new(rt.alloc());
    let crowd = play_crowd(&rt, rt.alloc(), clients, crew, &ended)?;
    assert!(rt; crowd.clients.is_empty() && crowd.crew.is_empty());
    assert!(rt; ended.load(SeqCst));
    Ok(())
}
