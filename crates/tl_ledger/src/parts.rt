//! What is kept beside the journal: which records are tasks and what is wanted, which record is
//! next, the records, which file is saved next, and which record may be let go.

ghost use Rattle.std.specs.Prelude.{◌≡◌, ◌+◌, ◌<◌, ◌≤◌, ◌^◌, ◌∷◌, ◌++◌, [], List, None, Some, OnOk};
ghost use Rattle.std.specs.Prelude.{true, false, length, map};
ghost use Rattle.std.specs.Option.{option_copied};
ghost use Rattle.tl_model.specs.declared.event.Event.{Event as EventOf};
ghost use Rattle.tl_model.specs.declared.header.Header.{Header as HeaderOf};
ghost use Rattle.tl_model.specs.declared.record.Record.{Record as RecordOf};
ghost use Rattle.tl_model.specs.Actors.{open_read};
ghost use Rattle.tl_model.specs.Checkpoints.{next_save};
ghost use Rattle.tl_model.specs.History.{id_of};
ghost use Rattle.tl_model.specs.Needs.{garbage};
ghost use Rattle.tl_model.specs.Past.{Past, act_with, without_tickets};
ghost use Rattle.tl_model.specs.Plan.{is_ready, is_task, is_wanted, next};
ghost use Rattle.tl_model.specs.Residency.{is_available, place};
ghost use Rattle.tl_lineage.specs.Slots.{record_of};
ghost use Rattle.tl_lineage.specs.declared.slot.Slot.TheVariants.{Kept};
ghost use Rattle.tl_lineage.specs.Standing.{slots_after};
ghost use Rattle.tl_ledger.specs.Parts.{HaveRoom, IsAdded, IsAtHand, MayFollow, StandFor};
ghost use Rattle.tl_ledger.specs.Parts.{count_after, list_of};
ghost use Rattle.tl_plan.specs.Standing as plans;
ghost use Rattle.tl_prio.specs.Standing as orders;
ghost use Rattle.tl_steps.specs.Steps.{accepts, added};

use std::alloc::Global;
use std::marker::Model;
use tl_edge::Edge;
use tl_gc::Gc;
use tl_lineage::Graph;
use tl_model::{Act, Event, Facts, Header, Record};
use tl_plan::Plan;
use tl_prio::Order;
use tl_steps::{OpenRead, accepts};
use tl_types::{Actor, FileId, NoMemory, RecordId, WorkerId};

/// The parts that are kept in step with a journal. Contracts see what each keeps.
#[derive(Drop)]
pub(crate) struct Parts {
    plan: Plan,
    order: Order,
    graph: Graph,
    edge: Edge,
    gc: Gc,
}

impl Model for Parts {
    ghost use Rattle.std.specs.Coded.{codes};
    ghost use Rattle.tl_lang.specs.contracts.expr.Expr as expr;
    ghost use Rattle.tl_ledger.specs.Parts.{PartsData};

    ghost Value = { PartsData };

    ghost coded = { Prim.hlevel (codes, expr.the_row.coded) };

    ghost view = { λ p.
        record { plan = p.plan; order = p.order; graph = p.graph; edge = p.edge; gc = p.gc } };
}

impl Parts {
    /// They stand for the empty journal.
    pub(crate) fn new(alloc: Global, header: Header) -> Parts
        ensures stand { StandFor header result [] }
        ensures rule { result.order.turns.rule ≡ header.order }
        ensures slots { result.graph.slots ≡ [] }
    {
        Parts {
            plan: Plan::new(alloc, header),
            order: Order::new(alloc, header),
            graph: Graph::new(alloc),
            edge: Edge::new(alloc, header),
            gc: Gc::new(alloc, header),
        }
    }

    /// Makes the places for the record of the next number. What the parts stand for stays.
    pub(crate) fn room(&mut self, alloc: Global, rec: &Record) -> Result<(), NoMemory>
        ensures room { OnOk result (HaveRoom self.new rec.now) }
        ensures stand { (header : HeaderOf) (past : Past) →
            StandFor header self.old past → StandFor header self.new past }
        ensures rule { self.new.order.turns.rule ≡ self.old.order.turns.rule }
        ensures slots { self.new.graph.slots ≡ self.old.graph.slots }
    {
        self.plan.room(alloc, rec)?;
        self.order.room(alloc, rec)?;
        self.edge.room(alloc, rec)?;
        self.gc.room(alloc, rec)?;
        self.graph.room(rec)
    }

    /// Takes note of an event that adds no record, and leaves the file `gone` without a name.
    pub(crate) fn note<T>(&mut self, event: &Event<T>, gone: Option<FileId>)
        requires { accepts (act_with (λ _. tt) event.now.act) ≡ false }
        ensures stand { (header : HeaderOf) (past : List (EventOf T)) →
            StandFor header self.old (without_tickets past) →
            MayFollow header past event.now gone →
            StandFor header self.new (without_tickets (event.now ∷ past)) }
        ensures rule { self.new.order.turns.rule ≡ self.old.order.turns.rule }
        ensures slots { (past : Past) →
            let act = act_with (λ _. tt) event.now.act in
            self.new.graph.slots ≡ slots_after past act self.old.graph.slots }
    {
        count_claim(&self.plan, &mut self.order, &event.act);
        self.plan.note(event, gone);
        self.order.note(event, gone);
        self.edge.note(event, gone);
        self.gc.note(event, gone);
        remove_collected(&mut self.graph, &event.act);
    }

    /// Takes note of a call that adds the record, for which there are places, and leaves the file
    /// `gone` without a name.
    pub(crate) fn accept<T>(&mut self, event: &Event<T>, rec: Record, gone: Option<FileId>)
        requires room { HaveRoom self.old rec }
        requires next { (id_of rec).0 ≡ length self.old.graph.slots }
        requires limit { length self.old.graph.slots < 1048576 }
        requires call { accepts (act_with (λ _. tt) event.now.act) ≡ true }
        ensures stand { (header : HeaderOf) (past : List (EventOf T)) →
            StandFor header self.old (without_tickets past) →
            added (without_tickets past) (act_with (λ _. tt) event.now.act) ≡ rec ∷ [] →
            MayFollow header past event.now gone →
            StandFor header self.new (without_tickets (event.now ∷ past)) }
        ensures rule { self.new.order.turns.rule ≡ self.old.order.turns.rule }
        ensures slots { self.new.graph.slots ≡ self.old.graph.slots ++ Kept rec ∷ [] }
    {
        self.plan.note(event, gone);
        self.order.note(event, gone);
        self.edge.note(event, gone);
        self.gc.note(event, gone);
        self.graph.add(rec);
    }

    /// The record that is next.
    pub(crate) fn next(&mut self) -> Option<RecordId>
        ensures next { (header : HeaderOf) (past : Past) → StandFor header self.old past →
            result ≡ next self.old.order.turns.rule past }
        ensures same { self.new ≡ self.old }
    {
        self.order.next(&self.plan)
    }

    /// The file that is saved next.
    pub(crate) fn next_save(&self) -> Option<FileId>
        ensures { (header : HeaderOf) (past : Past) → StandFor header self.now past →
            result ≡ next_save header past }
    {
        self.edge.pick()
    }

    /// The least record that is kept and not needed.
    pub(crate) fn garbage(&mut self) -> Option<RecordId>
        ensures garbage { (header : HeaderOf) (past : Past) → StandFor header self.old past →
            result ≡ garbage past }
        ensures same { self.new ≡ self.old }
    {
        self.gc.garbage(&self.plan)
    }

    /// Whether the record is a task.
    pub(crate) fn is_task(&self, made: RecordId) -> bool
        ensures { (header : HeaderOf) (past : Past) → StandFor header self.now past →
            result ≡ is_task past made }
    {
        self.plan.is_task(made)
    }

    /// Whether the record is a task that can be run.
    pub(crate) fn is_ready(&self, made: RecordId) -> bool
        ensures { (header : HeaderOf) (past : Past) → StandFor header self.now past →
            result ≡ is_ready past made }
    {
        self.plan.is_ready(made)
    }

    /// Whether the file is wanted.
    pub(crate) fn is_wanted(&self, file: FileId) -> bool
        ensures { (header : HeaderOf) (past : Past) → StandFor header self.now past →
            result ≡ is_wanted past file }
    {
        self.plan.is_wanted(file)
    }

    /// Whether the file is in memory or saved.
    pub(crate) fn is_available(&self, file: FileId) -> bool
        ensures { (header : HeaderOf) (past : Past) → StandFor header self.now past →
            result ≡ is_available past file }
    {
        self.plan.is_available(file)
    }

    /// The worker in whose memory the file is, if it is in one.
    pub(crate) fn place(&self, file: FileId) -> Option<WorkerId>
        ensures { (header : HeaderOf) (past : Past) → StandFor header self.now past →
            result ≡ place past file }
    {
        self.plan.place(file)
    }

    /// The read that the actor has open, if it has one. Actors of numbers from 16 on have none.
    pub(crate) fn reading(&self, actor: Actor) -> Option<OpenRead>
        ensures known { (header : HeaderOf) (past : Past) → StandFor header self.now past →
            actor.0 < 16 → result ≡ open_read past actor }
        ensures unknown { (header : HeaderOf) (past : Past) → StandFor header self.now past →
            16 ≤ actor.0 → result ≡ None }
    {
        self.plan.reading(actor)
    }

    /// The record of a number, while it is kept.
    pub(crate) fn record(&self, made: RecordId) -> Option<&Record>
        ensures { option_copied result ≡ record_of made.0 self.now.graph.slots }
    {
        self.graph.get(made)
    }
}

/// Makes the places for a record, if there is one.
pub(crate) fn make_room(
    alloc: Global,
    parts: &mut Parts,
    rec: &Option<Record>,
) -> Result<(), NoMemory>
    ensures room { OnOk result ((r : RecordOf) → rec.now ≡ Some r → HaveRoom parts.new r) }
    ensures stand { (header : HeaderOf) (past : Past) →
        StandFor header parts.old past → StandFor header parts.new past }
    ensures rule { parts.new.order.turns.rule ≡ parts.old.order.turns.rule }
    ensures slots { parts.new.graph.slots ≡ parts.old.graph.slots }
{
    match rec {
        Some(rec) => parts.room(alloc, rec),
        None => Ok(()),
    }
}

/// Takes note of a call, with the record that it adds, if it adds one, and the file that it leaves
/// without a name; answers the number of the next record after it.
pub(crate) fn note_call<T>(
    parts: &mut Parts,
    next: RecordId,
    event: &Event<T>,
    rec: Option<Record>,
    gone: Option<FileId>,
) -> RecordId
    requires slots { length parts.old.graph.slots ≡ next.0 }
    requires at_hand { IsAtHand parts.old next.0 (act_with (λ _. tt) event.now.act) rec }
    ensures stand { (header : HeaderOf) (past : List (EventOf T)) →
        StandFor header parts.old (without_tickets past) →
        IsAdded (without_tickets past) (act_with (λ _. tt) event.now.act) rec →
        MayFollow header past event.now gone →
        StandFor header parts.new (without_tickets (event.now ∷ past)) }
    ensures rule { parts.new.order.turns.rule ≡ parts.old.order.turns.rule }
    ensures slots { (past : Past) →
        let act = act_with (λ _. tt) event.now.act in
        IsAdded past act rec → parts.new.graph.slots ≡ slots_after past act parts.old.graph.slots }
    ensures count { result.0 ≡ count_after next.0 (act_with (λ _. tt) event.now.act) }
{
    if accepts(&event.act) {
        accept(parts, event, rec, gone);
        return RecordId(next.0 + 1);
    }
    parts.note(event, gone);
    next
}

// Takes note of a call that adds the record, and leaves the file `gone` without a name.
fn accept<T>(parts: &mut Parts, event: &Event<T>, rec: Option<Record>, gone: Option<FileId>)
    requires call { accepts (act_with (λ _. tt) event.now.act) ≡ true }
    requires at_hand { let act = act_with (λ _. tt) event.now.act in
        IsAtHand parts.old (length parts.old.graph.slots) act rec }
    ensures stand { (header : HeaderOf) (past : List (EventOf T)) →
        StandFor header parts.old (without_tickets past) →
        IsAdded (without_tickets past) (act_with (λ _. tt) event.now.act) rec →
        MayFollow header past event.now gone →
        StandFor header parts.new (without_tickets (event.now ∷ past)) }
    ensures rule { parts.new.order.turns.rule ≡ parts.old.order.turns.rule }
    ensures slots { parts.new.graph.slots ≡ parts.old.graph.slots ++ map Kept (list_of rec) }
{
    match rec {
        Some(rec) => parts.accept(event, rec, gone),
        None => unreachable!(),
    }
}

// Counts a claim, before it is noted.
fn count_claim<T>(plan: &Plan, order: &mut Order, act: &Act<T>)
    ensures stands { (past : Past) →
        plans.StandsFor plan.now past → orders.StandsFor order.old past → length past < 2 ^ 64 →
        orders.StandsBefore (act_with (λ _. tt) act.now) order.new past }
    ensures rule { order.new.turns.rule ≡ order.old.turns.rule }
    ensures room { order.new.next ≡ order.old.next }
{
    if let Act::Claim(_, made) = act {
        let prio = order.prio(plan, *made);
        order.claimed(prio);
    }
}

// Removes a record that is let go.
fn remove_collected<T>(graph: &mut Graph, act: &Act<T>)
    requires { accepts (act_with (λ _. tt) act.now) ≡ false }
    ensures { (past : Past) →
        graph.new.slots ≡ slots_after past (act_with (λ _. tt) act.now) graph.old.slots }
{
    if let Act::Collect(made) = act {
        graph.remove(*made);
    }
}
