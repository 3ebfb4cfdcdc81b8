//! An event's line: its actor, the word of its act, and what stands behind that.

ghost use Rattle.std.specs.Prelude.{◌≡◌, ◌≢◌, ◌∷◌, ◌++◌, ℕ, List, IfSome, IfNone, IfOk, IfErr};
ghost use Rattle.tl_model.specs.declared.event.Act.{Act};
ghost use Rattle.tl_model.specs.declared.event.Event.{Event};
ghost use Rattle.tl_spelling.specs.Events.{event_text};
ghost use Rattle.tl_spelling.specs.Shown.{IsAct, IsEvent, shown, shown_act};
ghost use Rattle.tl_reading.specs.Acts.{about, deed_of, deed_text};
ghost use Rattle.tl_reading.specs.Stops.{StopsFor};

use crate::act::act_said;
use crate::call::call_said;
use crate::deed::{Deed, deed_of};
use crate::stop::Stop;
use crate::token::actor_before;
use std::alloc::Global;
use tl_model::{Act, Event, Header};
use tl_script::{front_of, token_of};
use tl_types::Bytes;

// The word of an act that stands before a space, and what stands behind that.
fn deed_before(text: &[u8]) -> Option<(Deed, &[u8])>
    ensures found { IfSome result (λ r. text.now ≡ deed_text r.0 ++ 0x20 ∷ r.1.now) }
    ensures none { IfNone result ((word : Deed) (rest : List ℕ)
        → text.now ≢ deed_text word ++ 0x20 ∷ rest) }
{
    let (word, rest) = token_of(text);
    let rest = front_of(rest)?;
    let deed = deed_of(word)?;
    Some((deed, rest))
}

// The act of this word that the text says behind the word and a space.
fn act_behind(alloc: Global, word: Deed, text: &[u8], header: &Header) -> Result<Act<Bytes>, Stop>
    ensures word { IfOk result (λ act. deed_of act ≡ word) }
    ensures within { IfOk result (IsAct header.now) }
    ensures found { IfOk result (λ act. text.now ≡ about act) }
    ensures shown { IfOk result (λ act. shown_act act ≡ act) }
    ensures none { IfErr result (StopsFor ((act : Act (List ℕ)) → deed_of act ≡ word
        → IsAct header.now act → text.now ≢ about act)) }
{
    if let Deed::Call = word {
        return call_said(alloc, text, header);
    }
    match act_said(word, text) {
        Some(act) => Ok(act),
        None => Err(Stop::Unread),
    }
}

/// The event of a journal of this header that the line says, without the line feed that ends it.
/// A put's length and digest are those of its bytes, which stand for its ticket; 0 and zeros stand
/// for the size and the digest of what was saved.
pub fn event_said(alloc: Global, line: &[u8], header: &Header) -> Result<Event<Bytes>, Stop>
    ensures within { IfOk result (IsEvent header.now) }
    ensures found { IfOk result (λ event. line.now ≡ event_text event) }
    ensures shown { IfOk result (λ event. shown event ≡ event) }
    ensures none { IfErr result (StopsFor ((event : Event (List ℕ)) → IsEvent header.now event
        → line.now ≢ event_text event)) }
{
    let Some((actor, rest)) = actor_before(line) else {
        return Err(Stop::Unread);
    };
    let Some((word, rest)) = deed_before(rest) else {
        return Err(Stop::Unread);
    };
    let act = act_behind(alloc, word, rest, header)?;
    Ok(Event { actor, act })
}
