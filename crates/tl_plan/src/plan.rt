ghost use Rattle.std.specs.Prelude.{◌≡◌, ◌<◌, ◌≤◌, ◌∷◌, ◌++◌, ◌||◌, [], slice_get, map, length, vec_len, vec_capacity, IfSome, OnOk, OnErr, List, None, true};
ghost use Rattle.std.specs.List.{list_all};
ghost use Rattle.std.specs.Option.{option_copied};
ghost use Rattle.tl_model.specs.declared.event.Event.{Event as EventOf};
ghost use Rattle.tl_model.specs.declared.header.Header.{Header as HeaderOf};
ghost use Rattle.tl_model.specs.Actors.{open_read};
ghost use Rattle.tl_model.specs.Past.{Past, act_with, event_with, without_tickets};
ghost use Rattle.tl_model.specs.Rules.{all_permitted, lawful_judge};
ghost use Rattle.tl_model.specs.Residency.{is_available, place};
ghost use Rattle.tl_plan.specs.Data.{awaited_at, file_at, is_here_in, job_after, outputs_after, place_at, plan_after, read_of, ready_of, tables_from, task_of, with_files, with_job};
ghost use Rattle.tl_plan.specs.Standing.{HasRoom, HasRoomForAll, StandsFor};
ghost use Rattle.tl_steps.specs.Steps.{added, is_read_at, left_room};

use crate::job::{Job, note_jobs};
use crate::kept::{Kept, kept_of};
use crate::output::{Output, is_here};
use crate::outputs::{Outputs, note_files};
use crate::tables::make_tables;
use std::alloc::Global;
use std::marker::Model;
use tl_model::{Act, Event, Facts, Header, Record};
use tl_steps::{OpenRead, SEATS, Seat, accepts, is_read, is_running, new_seats, note_seats};
use tl_types::{Actor, FileId, NoMemory, RecordId, WorkerId};

/// Which of the accepted records are tasks, which of these can be run, and which files are wanted.
/// Contracts see what is kept of records, files and actors, and the record for which there is a place;
/// `StandsFor` says for which past it stands. It is kept in step with a journal event by event.
#[derive(Debug, Drop)]
pub struct Plan {
    jobs: Vec<Job>,
    files: Vec<Outputs>,
    seats: [Seat; SEATS],
    next: Option<Kept>,
}

impl Model for Plan {
    ghost use Rattle.std.specs.Prelude.{◌≡◌, ◌<◌, IfSome, vec_len, vec_capacity};
    ghost use Rattle.tl_plan.specs.Data.{PlanData};

    ghost Value = { PlanData };

    ghost view = { λ p. record { jobs = p.jobs.items; files = p.files.items; seats = p.seats; next = p.next } };

    ghost invariant = { λ p. (vec_len p.jobs ≡ vec_len p.files) × IfSome p.next (λ _. (vec_len p.jobs < vec_capacity p.jobs) × (vec_len p.files < vec_capacity p.files)) };
}

impl Plan {
    /// A plan that stands for the empty journal.
    pub fn new(alloc: Global, _header: Header) -> Plan
        ensures stands { StandsFor result [] }
        ensures next { result.next ≡ None }
    {
        Plan {
            jobs: Vec::new(alloc),
            files: Vec::new(alloc),
            seats: new_seats(),
            next: None,
        }
    }

    /// Makes the place for the record of the next number. The last one made counts. `Err` changes
    /// nothing.
    pub fn room(&mut self, alloc: Global, rec: &Record) -> Result<(), NoMemory>
        ensures room { OnOk result (HasRoom self.new rec.now) }
        ensures stands { (past : Past) → StandsFor self.old past → StandsFor self.new past }
        ensures jobs { self.new.jobs ≡ self.old.jobs }
        ensures files { self.new.files ≡ self.old.files }
        ensures seats { self.new.seats ≡ self.old.seats }
        ensures err { OnErr result (self.new ≡ self.old) }
    {
        let kept = kept_of(alloc, rec)?;
        self.jobs.reserve(1)?;
        self.files.reserve(1)?;
        self.next = Some(kept);
        Ok(())
    }

    /// Takes note of an event that the rules permit after the past. The record that it adds, if it adds
    /// one, has room. It takes no memory. The file that the event leaves without a name, if there is one,
    /// changes nothing here.
    pub fn note<T>(&mut self, event: &Event<T>, _gone: Option<FileId>)
        ensures stands { (header : HeaderOf) (past : List (EventOf T)) → StandsFor self.old (without_tickets past) →
            HasRoomForAll self.old (added (without_tickets past) (act_with (λ _. tt) event.now.act)) →
            all_permitted lawful_judge header (event.now ∷ past) ≡ true → StandsFor self.new (without_tickets (event.now ∷ past)) }
        ensures room { self.new.next ≡ left_room (act_with (λ _. tt) event.now.act) self.old.next }
    {
        self.note_event(event);
    }

    /// The worker in whose memory the file is, if it is in one.
    pub fn place(&self, file: FileId) -> Option<WorkerId>
        ensures { (past : Past) → StandsFor self.now past → result ≡ place past file }
    {
        self.found_place(file)
    }

    /// Whether the file is in memory or saved.
    pub fn is_available(&self, file: FileId) -> bool
        ensures { (past : Past) → StandsFor self.now past → result ≡ is_available past file }
    {
        self.is_here(file)
    }

    /// The read that the actor has open, if it has one (`known`). Actors are numbered from 0 to 15;
    /// of any other the answer is `None` (`unknown`).
    pub fn reading(&self, actor: Actor) -> Option<OpenRead>
        ensures known { (past : Past) → StandsFor self.now past → actor.0 < 16 →
            result ≡ open_read past actor }
        ensures unknown { (past : Past) → StandsFor self.now past → 16 ≤ actor.0 → result ≡ None }
    {
        self.found_read(actor)
    }

    // What is kept after an event.
    fn note_event<T>(&mut self, event: &Event<T>)
        ensures { self.new ≡ plan_after (event_with (λ _. tt) event.now) self.old }
    {
        note_all(
            &mut self.jobs,
            &mut self.files,
            &mut self.seats,
            &mut self.next,
            event,
        );
    }

    // The worker that is kept for the file.
    fn found_place(&self, file: FileId) -> Option<WorkerId>
        ensures { result ≡ place_at (file_at file self.now.files) }
    {
        place_at(find(&self.files, file))
    }

    // Whether a place or that it was saved is kept for the file.
    fn is_here(&self, file: FileId) -> bool
        ensures { result ≡ is_here_in self.now.files file }
    {
        is_here_in(&self.files, file)
    }

    // The read that is kept at the actor's seat.
    fn found_read(&self, actor: Actor) -> Option<OpenRead>
        ensures { result ≡ read_of (slice_get self.now.seats actor.0) }
    {
        read_of(seat_at(&self.seats, actor))
    }

    // Whether it is kept that the record is a task.
    fn found_task(&self, made: RecordId) -> bool
        ensures { result ≡ task_of (slice_get self.now.jobs made.0) }
    {
        task_of(self.jobs.get(made.0 as usize))
    }

    // Whether the record can be run by what is kept.
    fn found_ready(&self, made: RecordId) -> bool
        ensures { result ≡ ready_of self.now.seats self.now.files (slice_get self.now.jobs made.0) }
    {
        ready_of(&self.seats, &self.files, self.jobs.get(made.0 as usize))
    }

    // Whether a read or a task that wants the file is kept.
    fn found_wanted(&self, file: FileId) -> bool
        ensures { result ≡ (is_read_at self.now.seats file || awaited_at (file_at file self.now.files)) }
    {
        is_read(&self.seats, file) || awaited_at(find(&self.files, file))
    }
}

impl Facts for Plan {
    ghost use Rattle.tl_plan.specs.Standing.{StandsFor};

    ghost speaks_of = { λ plan past. StandsFor plan past };

    fn is_task(&self, made: RecordId) -> bool {
        self.found_task(made)
    }

    fn is_ready(&self, made: RecordId) -> bool {
        self.found_ready(made)
    }

    fn is_wanted(&self, file: FileId) -> bool {
        self.found_wanted(file)
    }
}

// Takes note of an event.
fn note_all<T>(
    jobs: &mut Vec<Job>,
    files: &mut Vec<Outputs>,
    seats: &mut [Seat; SEATS],
    next: &mut Option<Kept>,
    event: &Event<T>,
)
    requires lengths { vec_len jobs.old ≡ vec_len files.old }
    requires places { IfSome next.old (λ _. (vec_len jobs.old < vec_capacity jobs.old) × (vec_len files.old < vec_capacity files.old)) }
    ensures after { record { jobs = jobs.new.items; files = files.new.items; seats = seats.new; next = next.new }
        ≡ plan_after (event_with (λ _. tt) event.now) (record { jobs = jobs.old.items; files = files.old.items; seats = seats.old; next = next.old }) }
    ensures lengths { vec_len jobs.new ≡ vec_len files.new }
    ensures places { IfSome next.new (λ _. (vec_len jobs.new < vec_capacity jobs.new) × (vec_len files.new < vec_capacity files.new)) }
{
    note_seats(seats, event);
    change_jobs(jobs, &event.act);
    change_files(files, &event.act);
    if accepts(&event.act) {
        add_next(jobs, files, next);
    }
    make_all(jobs, files, seats);
}

// The records after an act.
fn change_jobs<T>(jobs: &mut Vec<Job>, act: &Act<T>)
    ensures jobs { jobs.new.items ≡ map (job_after (act_with (λ _. tt) act.now)) jobs.old.items }
    ensures len { vec_len jobs.new ≡ vec_len jobs.old }
    ensures capacity { vec_capacity jobs.new ≡ vec_capacity jobs.old }
{
    note_jobs(jobs, act);
}

// The files after an act.
fn change_files<T>(files: &mut Vec<Outputs>, act: &Act<T>)
    ensures files { files.new.items ≡ map (outputs_after (act_with (λ _. tt) act.now)) files.old.items }
    ensures len { vec_len files.new ≡ vec_len files.old }
    ensures capacity { vec_capacity files.new ≡ vec_capacity files.old }
{
    note_files(files, act);
}

// Makes the tables of all records.
fn make_all(jobs: &mut Vec<Job>, files: &mut Vec<Outputs>, seats: &[Seat])
    requires { vec_len jobs.old ≡ vec_len files.old }
    ensures tables { (jobs.new.items, files.new.items) ≡ tables_from seats.now 0 jobs.old.items files.old.items }
    ensures jobs { vec_len jobs.new ≡ vec_len jobs.old }
    ensures files { vec_len files.new ≡ vec_len files.old }
    ensures jobs_capacity { vec_capacity jobs.new ≡ vec_capacity jobs.old }
    ensures files_capacity { vec_capacity files.new ≡ vec_capacity files.old }
{
    make_tables(jobs, files, seats);
}

// Adds the record for which there is a place, if there is one.
fn add_next(jobs: &mut Vec<Job>, files: &mut Vec<Outputs>, next: &mut Option<Kept>)
    requires lengths { vec_len jobs.old ≡ vec_len files.old }
    requires places { IfSome next.old (λ _. (vec_len jobs.old < vec_capacity jobs.old) × (vec_len files.old < vec_capacity files.old)) }
    ensures jobs { jobs.new.items ≡ with_job next.old jobs.old.items }
    ensures files { files.new.items ≡ with_files next.old files.old.items }
    ensures lengths { vec_len jobs.new ≡ vec_len files.new }
    ensures next { next.new ≡ None }
{
    if let Some(kept) = next.take() {
        let Kept { job, outputs } = kept;
        push_job(jobs, job);
        push_outputs(files, outputs);
    }
}

// Appends a record to a vector that has room for it.
fn push_job(jobs: &mut Vec<Job>, job: Job)
    requires { vec_len jobs.old < vec_capacity jobs.old }
    ensures { jobs.new.items ≡ jobs.old.items ++ job ∷ [] }
{
    if jobs.push(job).is_err() {
        unreachable!();
    }
}

// Appends the files of a record to a vector that has room for them.
fn push_outputs(files: &mut Vec<Outputs>, outputs: Outputs)
    requires { vec_len files.old < vec_capacity files.old }
    ensures { files.new.items ≡ files.old.items ++ outputs ∷ [] }
{
    if files.push(outputs).is_err() {
        unreachable!();
    }
}

// The file, if a record makes it.
fn find(files: &[Outputs], file: FileId) -> Option<&Output>
    ensures { option_copied result ≡ file_at file files.now }
{
    files.get(file.rec.0 as usize)?.get(file.out)
}

// The worker that has the file.
fn place_at(found: Option<&Output>) -> Option<WorkerId>
    ensures { result ≡ place_at (option_copied found.entry) }
{
    match found {
        Some(output) => output.place,
        None => None,
    }
}

// Whether the file is in memory or saved.
fn is_here_in(files: &[Outputs], file: FileId) -> bool
    ensures { result ≡ is_here_in files.now file }
{
    match find(files, file) {
        Some(output) => is_here(output),
        None => false,
    }
}

// The actor's seat, if it has one.
fn seat_at(seats: &[Seat], actor: Actor) -> Option<&Seat>
    ensures { option_copied result ≡ slice_get seats.now actor.0 }
{
    seats.get(actor.0 as usize)
}

// The read that is open at the seat.
fn read_of(found: Option<&Seat>) -> Option<OpenRead>
    ensures { result ≡ read_of (option_copied found.entry) }
{
    match found {
        Some(seat) => seat.read,
        None => None,
    }
}

// Whether a task that isn't running has the file as input.
fn awaited_at(found: Option<&Output>) -> bool
    ensures { result ≡ awaited_at (option_copied found.entry) }
{
    match found {
        Some(output) => output.is_awaited,
        None => false,
    }
}

// Whether the record is a task.
fn task_of(found: Option<&Job>) -> bool
    ensures { result ≡ task_of (option_copied found.entry) }
{
    match found {
        Some(job) => job.is_task,
        None => false,
    }
}

// Whether the record is a task that isn't running, and all its inputs are in memory or saved.
fn ready_of(seats: &[Seat], files: &[Outputs], found: Option<&Job>) -> bool
    ensures { result ≡ ready_of seats.now files.now (option_copied found.entry) }
{
    match found {
        Some(job) => {
            job.is_task && !is_running(seats, job.made) && all_here(files, job.inputs.as_slice())
        }
        None => false,
    }
}

// Whether all these files are in memory or saved.
fn all_here(files: &[Outputs], inputs: &[FileId]) -> bool
    ensures { result ≡ list_all (is_here_in files.now) inputs.now }
{
    inputs.iter().all(|input| is_here_in(files, *input))
}
