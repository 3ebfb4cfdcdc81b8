//! Laws of what files hold, over all journals whose bytes are told. Each is the contract of a function
//! with an empty body.
#![tactic(auto)]

ghost use Rattle.std.specs.Prelude.{◌≡◌, ◌<◌, ◌∷◌, ℕ, true, List, Some, length, map, slice_get};
ghost use Rattle.tl_types.specs.declared.file_id.FileId.{FileId};
ghost use Rattle.tl_types.specs.declared.record_id.RecordId.{RecordId};
ghost use Rattle.tl_lang.specs.declared.job.JobSpecCore.{JobSpecCore};
ghost use Rattle.tl_lang.specs.Job.{job_mean};
ghost use Rattle.tl_model.specs.declared.event.Event.{Event};
ghost use Rattle.tl_model.specs.declared.header.Header.{Header};
ghost use Rattle.tl_model.specs.declared.record.Record.TheVariants as kind;
ghost use Rattle.tl_model.specs.Past.{Told};
ghost use Rattle.tl_model.specs.History.{calls_of, records_of};
ghost use Rattle.tl_model.specs.Rules.{is_lawful};
ghost use Rattle.tl_model.specs.Values.{outcomes_of, value};

/// The outputs of an accepted job hold, in order, what its program means of what its inputs hold, with
/// the whole of its fuel, whatever was done since.
pub fn job_outputs_are_what_the_program_means()
    ensures { (header : Header) (past : Told) → is_lawful header past ≡ true →
        (i : ℕ) (id : RecordId) (core : JobSpecCore) (prio : ℕ) (inputs : List FileId) (outputs : ℕ) →
        slice_get (records_of (calls_of past)) i ≡ Some (kind.Job id core prio inputs outputs) →
        slice_get (outcomes_of (calls_of past)) i ≡ Some (job_mean core (map (value past) inputs)) }
{}

/// What a file holds of an accepted record is the same after any event more.
pub fn values_stay()
    ensures { (past : Told) (event : Event (List ℕ)) (f : FileId) → f.rec.0 < length (records_of (calls_of past)) →
        value (event ∷ past) f ≡ value past f }
{}
