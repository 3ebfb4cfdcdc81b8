//! Events of other actors leave an actor what it has open.

ghost use Rattle.std.specs.Prelude.{◌≡◌, ◌++◌, List, None, Some};
ghost use Rattle.tl_types.specs.declared.actor.Actor.{Actor};
ghost use Rattle.tl_model.specs.declared.event.Event.{Event};
ghost use Rattle.tl_model.specs.Past.{without_tickets};
ghost use Rattle.tl_model.specs.Actors.{OpenClaim, open_claim, open_read, open_save};
ghost use Rattle.tl_laws.specs.Others.{AreOfOthers, LoseNot};

/// After events of other actors, permitted or not, an actor's read and save are open as before
/// (`reads`, `saves`), its open claim is unless the worker was lost (`claims`), and where it had none
/// it has none (`rests`).
pub fn others_close_nothing<T>()
    ensures reads { (actor : Actor) (more events : List (Event T)) → AreOfOthers actor more →
        open_read (without_tickets (more ++ events)) actor
        ≡ open_read (without_tickets events) actor }
    ensures saves { (actor : Actor) (more events : List (Event T)) → AreOfOthers actor more →
        open_save (without_tickets (more ++ events)) actor
        ≡ open_save (without_tickets events) actor }
    ensures claims { (actor : Actor) (more events : List (Event T)) (claim : OpenClaim) →
        AreOfOthers actor more → LoseNot claim.worker more →
        open_claim (without_tickets events) actor ≡ Some claim →
        open_claim (without_tickets (more ++ events)) actor ≡ Some claim }
    ensures rests { (actor : Actor) (more events : List (Event T)) → AreOfOthers actor more →
        open_claim (without_tickets events) actor ≡ None →
        open_claim (without_tickets (more ++ events)) actor ≡ None }
{}
