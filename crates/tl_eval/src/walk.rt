ghost use Rattle.std.specs.Prelude.{◌≡◌, [], ◌∷◌, IfOk, option_map};
ghost use Rattle.tl_eval.specs.Held.{meant};
ghost use Rattle.tl_eval.specs.Walks.{Begins, GoesOn};
ghost use Rattle.tl_lang.specs.Names.{visible};
ghost use Rattle.tl_lang.specs.Value.{text as as_text};

use crate::node::Node;
use crate::text::Text;
use crate::value::{Texts, Value};
use std::sync::Arc;
use tl_lang::Name;
use tl_types::{NoMemory, Shared};

/// A body at an item of a list: the item has a name, and `next` is the place of the next item.
#[derive(Debug, Drop)]
pub struct Walk {
    pub name: Shared<Name>,
    pub body: Arc<Node>,
    pub items: Texts,
    pub item: Text,
    pub next: usize,
}

impl Walk {
    /// The body at the first item; `None` where there is none.
    pub fn begin(
        name: Shared<Name>,
        body: Arc<Node>,
        items: Texts,
    ) -> Result<Option<Walk>, NoMemory>
        ensures { IfOk result (Begins name body items) }
    {
        let texts = items.get().as_slice();
        if texts.is_empty() {
            return Ok(None);
        }
        let item = texts[0].try_clone()?;
        Ok(Some(Walk {
            name,
            body,
            items,
            item,
            next: 1,
        }))
    }

    /// The body at the next item; `None` where this was the last.
    pub fn go_on(self) -> Result<Option<Walk>, NoMemory>
        ensures { IfOk result (GoesOn self) }
    {
        let texts = self.items.get().as_slice();
        if self.next >= texts.len() {
            return Ok(None);
        }
        let item = texts[self.next].try_clone()?;
        Ok(Some(Walk {
            name: self.name,
            body: self.body,
            items: self.items,
            item,
            next: self.next + 1,
        }))
    }

    /// The item, where the name is its.
    pub fn find(&self, name: &Name) -> Result<Option<Value>, NoMemory>
        ensures { IfOk result (λ found. option_map meant found ≡ visible name.now ((self.now.name, as_text self.now.item) ∷ [])) }
    {
        if name == self.name.get() {
            return Ok(Some(Value::Text(self.item.try_clone()?)));
        }
        Ok(None)
    }
}
