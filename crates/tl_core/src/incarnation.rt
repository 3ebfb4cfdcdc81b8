//! How often workers were lost.

ghost use Rattle.std.specs.Prelude.{◌≡◌, ◌≤◌, length, reverse};
ghost use Rattle.tl_core.specs.Claims.{incarnation, loses};

use tl_model::{Act, Event};
use tl_types::WorkerId;

/// How often the worker was lost.
pub(crate) fn incarnation<T>(events: &[Event<T>], worker: WorkerId) -> u64
    ensures value { result ≡ incarnation (reverse events.now) worker }
    ensures bound { result ≤ length events.now }
{
    let mut count = 0;
    for event in events {
        if loses(worker, &event.act) {
            count += 1;
        }
    }
    count
}

// Whether the act loses the worker.
fn loses<T>(worker: WorkerId, act: &Act<T>) -> bool
    ensures { result ≡ loses worker act.now }
{
    match act {
        Act::Lose(lost) => worker == *lost,
        _ => false,
    }
}
