//! Published calls alone change names.

ghost use Rattle.std.specs.Prelude.{◌≡◌, ◌≤◌, ℕ, false, ◌++◌, ◌∷◌, List, length};
ghost use Rattle.tl_model.specs.declared.command.Command.TheVariants.{Stat};
ghost use Rattle.tl_model.specs.History.{CallOf, HistoryOf, names_of, reply_after};
ghost use Rattle.tl_model.specs.Namespace.{PathOf};
ghost use Rattle.tl_pieces.specs.Published.{glimpse, is_published, published};

/// A call that isn't published leaves the names as they were.
pub fn others_publish_nothing<T>()
    ensures { (call : CallOf T) (calls : HistoryOf T) → is_published call ≡ false →
        names_of (call ∷ calls) ≡ names_of calls }
{}

/// A glimpse of all published calls is the reply of a stat after the whole history.
pub fn a_glimpse_of_all_is_the_reply<T>()
    ensures { (calls : HistoryOf T) (path : PathOf) →
        glimpse calls (length (published calls)) path ≡ reply_after calls (Stat path) }
{}

/// A glimpse of calls that were published stays as it is, however long the history gets.
pub fn glimpses_of_the_past_stay<T>()
    ensures { (more calls : HistoryOf T) (u : ℕ) (path : PathOf) → u ≤ length (published calls) →
        glimpse (more ++ calls) u path ≡ glimpse calls u path }
{}
