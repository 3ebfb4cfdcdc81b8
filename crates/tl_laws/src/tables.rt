//! What is found from the greatest record number down is the only answer that agrees with itself.

ghost use Rattle.std.specs.Prelude.{◌≡◌, ℕ, Bool};
ghost use Rattle.tl_model.specs.declared.record.Record.{Record};
ghost use Rattle.tl_model.specs.Past.{Past};
ghost use Rattle.tl_model.specs.Tables.{Table};
ghost use Rattle.tl_model.specs.History.{records};
ghost use Rattle.tl_model.specs.Plan.{task_among, tasks, prio_among, prios};
ghost use Rattle.tl_model.specs.Needs.{needed_among, needs};
ghost use Rattle.tl_laws.specs.Solves.{Solves};

/// Which records are tasks is the one table in which each answer follows from those of later records.
pub fn tasks_are_theirs_alone()
    ensures solves { (past : Past) → Solves (task_among past) (records past) (tasks past) }
    ensures only { (past : Past) (table : Table Record Bool) → Solves (task_among past) (records past) table → table ≡ tasks past }
{}

/// The priorities are likewise.
pub fn prios_are_theirs_alone()
    ensures solves { (past : Past) → Solves (prio_among past) (records past) (prios past) }
    ensures only { (past : Past) (table : Table Record ℕ) → Solves (prio_among past) (records past) table → table ≡ prios past }
{}

/// Which records are needed is likewise.
pub fn needs_are_theirs_alone()
    ensures solves { (past : Past) → Solves (needed_among past) (records past) (needs past) }
    ensures only { (past : Past) (table : Table Record Bool) → Solves (needed_among past) (records past) table → table ≡ needs past }
{}
