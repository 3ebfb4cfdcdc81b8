ghost use Rattle.std.specs.Prelude.{◌≡◌, [], ◌∷◌, ◌++◌, if◌then◌else◌, IfOk, MatchOption};
ghost use Rattle.tl_eval.specs.Frames.{Leads, names_of, goes_on, at_item, at_fold_item, kept_after};
ghost use Rattle.tl_eval.specs.Held.{meant};
ghost use Rattle.tl_eval.specs.Walks.{later};
ghost use Rattle.tl_eval.specs.declared.frame.Frame.TheVariants as frame;
ghost use Rattle.tl_lang.specs.Fuel.{give};
ghost use Rattle.tl_lang.specs.Meaning.{each_from, folded};
ghost use Rattle.tl_lang.specs.Value.{list};

use crate::fault::Fault;
use crate::frame::Frame;
use crate::gathered::Gathered;
use crate::next::Next;
use crate::node::Node;
use crate::stack::Stack;
use crate::text::Text;
use crate::value::Value;
use crate::wait::wait;
use crate::walk::Walk;
use std::alloc::Global;
use std::sync::Arc;
use tl_lang::{Items, Name};
use tl_types::{NoMemory, Shared};

/// Begins an `each` on its list.
pub fn begin_each(
    alloc: Global,
    name: Shared<Name>,
    body: Arc<Node>,
    value: Value,
    stack: &mut Stack,
) -> Result<Next, NoMemory>
    ensures { IfOk result (λ next. Leads next stack.old stack.new (goes_on (frame.Each name body) (names_of stack.old) (meant value))) }
{
    let Value::List(items) = value else {
        return Ok(Next::Stop(Fault::NoMeaning));
    };
    let walk = Walk::begin(name, body, items)?;
    each(alloc, walk, Gathered::new(alloc), stack)
}

/// Goes on with what the body of an `each` gave.
pub fn go_on_each(
    alloc: Global,
    walk: Walk,
    results: Gathered,
    value: Value,
    stack: &mut Stack,
) -> Result<Next, NoMemory>
    ensures { IfOk result (λ next. Leads next stack.old stack.new (goes_on (frame.EachItem walk results) (names_of stack.old) (meant value))) }
{
    let Value::Text(text) = value else {
        return Ok(Next::Stop(Fault::NoMeaning));
    };
    let mut results = results;
    let fits = results.push(text)?;
    if !fits {
        return Ok(Next::Stop(Fault::TooLong));
    }
    let walk = walk.go_on()?;
    each(alloc, walk, results, stack)
}

/// The body of an `each` at an item, or its end.
fn each(
    alloc: Global,
    walk: Option<Walk>,
    results: Gathered,
    stack: &mut Stack,
) -> Result<Next, NoMemory>
    ensures { IfOk result (λ next. MatchOption walk
        (Leads next stack.old stack.new (give (list results)))
        (λ w. Leads next stack.old stack.new (each_from (at_item w (names_of stack.old)) (list results) (w.item ∷ later w)))) }
{
    match walk {
        None => Ok(Next::Give(results.into_list(alloc)?)),
        Some(walk) => {
            let body = Arc::try_clone(&walk.body)?;
            wait(stack, Frame::EachItem(walk, results), &body)
        }
    }
}

/// Begins a `keep` on its list.
pub fn begin_keep(
    alloc: Global,
    name: Shared<Name>,
    body: Arc<Node>,
    value: Value,
    stack: &mut Stack,
) -> Result<Next, NoMemory>
    ensures { IfOk result (λ next. Leads next stack.old stack.new (goes_on (frame.Keep name body) (names_of stack.old) (meant value))) }
{
    let Value::List(items) = value else {
        return Ok(Next::Stop(Fault::NoMeaning));
    };
    let walk = Walk::begin(name, body, items)?;
    keep(alloc, walk, Items::new(alloc), stack)
}

/// Goes on with what the body of a `keep` gave.
pub fn go_on_keep(
    alloc: Global,
    walk: Walk,
    texts: Items<Text>,
    value: Value,
    stack: &mut Stack,
) -> Result<Next, NoMemory>
    ensures { IfOk result (λ next. Leads next stack.old stack.new (goes_on (frame.KeepItem walk texts) (names_of stack.old) (meant value))) }
{
    let Some(drops) = value.is_zero() else {
        return Ok(Next::Stop(Fault::NoMeaning));
    };
    let texts = keep_item(texts, &walk.item, drops)?;
    let walk = walk.go_on()?;
    keep(alloc, walk, texts, stack)
}

/// The texts so far, and the item unless it is dropped.
fn keep_item(texts: Items<Text>, item: &Text, drops: bool) -> Result<Items<Text>, NoMemory>
    ensures { IfOk result (λ more. more ≡ (if drops then texts else texts ++ item.now ∷ [])) }
{
    let mut texts = texts;
    if !drops {
        texts.push(item.try_clone()?)?;
    }
    Ok(texts)
}

/// The body of a `keep` at an item, or its end.
fn keep(
    alloc: Global,
    walk: Option<Walk>,
    texts: Items<Text>,
    stack: &mut Stack,
) -> Result<Next, NoMemory>
    ensures { IfOk result (λ next. MatchOption walk
        (Leads next stack.old stack.new (give (list texts)))
        (λ w. Leads next stack.old stack.new (kept_after texts (at_item w (names_of stack.old)) (w.item ∷ later w)))) }
{
    match walk {
        None => Ok(Next::Give(Value::List(Shared::new(alloc, texts)?))),
        Some(walk) => {
            let body = Arc::try_clone(&walk.body)?;
            wait(stack, Frame::KeepItem(walk, texts), &body)
        }
    }
}

/// Begins a `fold` on its list and its start.
pub fn begin_fold(
    state: Shared<Name>,
    name: Shared<Name>,
    items: Value,
    body: Arc<Node>,
    start: Value,
    stack: &mut Stack,
) -> Result<Next, NoMemory>
    ensures { IfOk result (λ next. Leads next stack.old stack.new (goes_on (frame.FoldStart state name items body) (names_of stack.old) (meant start))) }
{
    let Value::List(items) = items else {
        return Ok(Next::Stop(Fault::NoMeaning));
    };
    let walk = Walk::begin(name, body, items)?;
    fold(state, start, walk, stack)
}

/// Goes on with what the body of a `fold` gave: it is the value so far.
pub fn go_on_fold(
    state: Shared<Name>,
    walk: Walk,
    value: Value,
    stack: &mut Stack,
) -> Result<Next, NoMemory>
    ensures { IfOk result (λ next. Leads next stack.old stack.new (folded (at_fold_item state walk (names_of stack.old)) (meant value) (later walk))) }
{
    let walk = walk.go_on()?;
    fold(state, value, walk, stack)
}

/// The body of a `fold` at an item, or its end.
fn fold(
    state: Shared<Name>,
    so_far: Value,
    walk: Option<Walk>,
    stack: &mut Stack,
) -> Result<Next, NoMemory>
    ensures { IfOk result (λ next. MatchOption walk
        (Leads next stack.old stack.new (give (meant so_far)))
        (λ w. Leads next stack.old stack.new (folded (at_fold_item state w (names_of stack.old)) (meant so_far) (w.item ∷ later w)))) }
{
    match walk {
        None => Ok(Next::Give(so_far)),
        Some(walk) => {
            let body = Arc::try_clone(&walk.body)?;
            wait(stack, Frame::FoldItem(state, so_far, walk), &body)
        }
    }
}
