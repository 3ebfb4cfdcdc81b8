//! The files that stay in memory whatever it costs.

ghost use Rattle.std.specs.Prelude.{◌≡◌, true, not};
ghost use Rattle.tl_model.specs.Eviction.{may_go};
ghost use Rattle.tl_model.specs.Past.{without_tickets};
ghost use Rattle.tl_model.specs.Rules.{all_permitted, lawful_judge};

use std::marker::Model;
use tl_fleet::Excepted;
use tl_io::Ticket;
use tl_ledger::Ledger;
use tl_types::FileId;

// The pinned and the wanted files of a journal whose events are permitted. They are not dropped.
#[derive(Drop)]
pub(crate) struct Protected<'a, T: Ticket> {
    pub(crate) ledger: &'a Ledger<T>,
}

impl<'a, T: Ticket> Model for Protected<'a, T> {
    ghost use Rattle.std.specs.Prelude.{◌≡◌, true};
    ghost use Rattle.std.specs.Coded.{codes};
    ghost use Rattle.tl_lang.specs.contracts.expr.Expr as expr;
    ghost use Rattle.tl_model.specs.Journal.{Ledger as Events};
    ghost use Rattle.tl_model.specs.Rules.{all_permitted, lawful_judge};

    ghost Value = { Events T };

    ghost coded = { Prim.hlevel (codes, expr.the_row.coded, T.code) };

    ghost view = { λ p. p.ledger.now };

    ghost invariant = { λ p. all_permitted lawful_judge p.ledger.now.header p.ledger.now.events
        ≡ true };
}

impl<'a, T: Ticket> Excepted for Protected<'a, T> {
    ghost use Rattle.std.specs.Prelude.{not};
    ghost use Rattle.tl_model.specs.Eviction.{may_go};
    ghost use Rattle.tl_model.specs.Past.{without_tickets};

    ghost excepted = { λ protected f. not (may_go (without_tickets protected.events) f) };

    fn holds(&self, f: FileId) -> bool {
        is_protected(self.ledger, f)
    }
}

// Whether the file is pinned or wanted.
fn is_protected<T: Ticket>(ledger: &Ledger<T>, f: FileId) -> bool
    requires { all_permitted lawful_judge ledger.now.header ledger.now.events ≡ true }
    ensures { result ≡ not (may_go (without_tickets ledger.now.events) f) }
{
    ledger.is_pinned(f) || ledger.is_wanted(f)
}
