//! Many parts, played at once.

ghost use Rattle.std.specs.Prelude.{◌≡◌, ◌≤◌, [], All, vec_len, vec_capacity};
ghost use Rattle.std.specs.List.{AllZip};

use crate::part::{Part, Played};
use std::snapshot::Snapshot;
use std::thread::{Scope, Threads};

/// Plays each of the parts on a thread of its own, and puts what they give behind one another in
/// the order of the parts. Those whose thread the system refuses are played here, once all others
/// were started.
pub(crate) fn play_each<'s, E, R: Threads, P: Part<Out: 's> + 's>(
    rt: &R,
    scope: &'s Scope<'s, E>,
    mut parts: Vec<P>,
    outs: &mut Vec<P::Out>,
)
    requires ready { All P.ready parts.items }
    requires empty { outs.old.items ≡ [] }
    requires room { vec_len parts ≤ vec_capacity outs.old }
    ensures plays { AllZip P.plays parts.items outs.new.items }
    ensures many { vec_len outs.new ≡ vec_len parts }
    ensures room { vec_capacity outs.new ≡ vec_capacity outs.old }
{
    let Some(part) = parts.pop() else {
        return;
    };
    let promise = Played(Snapshot::of(&part));
    let played = move || -> P::Out
        requires { P.ready part }
        ensures { P.plays part result }
    { part.play() };
    let started = scope.spawn_with(promise, played);
    play_each(rt, scope, parts, outs);
    outs.push_reserved(match started {
        Ok(thread) => thread.join(rt),
        Err(refused) => (refused.value)(),
    });
}
