//! Laws that tie the slots of a graph to the records of a journal. Each is the contract of a function
//! with an empty body.

ghost use Rattle.std.specs.Prelude.{◌≡◌, ◌∷◌, [], false, true, count_by, length, if◌then◌else◌, List, None};
ghost use Rattle.tl_types.specs.declared.file_id.FileId.{FileId};
ghost use Rattle.tl_types.specs.declared.record_id.RecordId.{RecordId};
ghost use Rattle.tl_model.specs.declared.event.Event.{Event};
ghost use Rattle.tl_model.specs.declared.header.Header.{Header};
ghost use Rattle.tl_model.specs.Past.{without_tickets, Past, Plain};
ghost use Rattle.tl_model.specs.History.{has_input, record_at, records};
ghost use Rattle.tl_model.specs.Residency.{is_kept};
ghost use Rattle.tl_model.specs.Rules.{is_lawful};
ghost use Rattle.tl_lineage.specs.declared.slot.Slot.{Slot};
ghost use Rattle.tl_lineage.specs.Slots.{reader_count, record_of};
ghost use Rattle.tl_lineage.specs.Standing.{is_gone, slots_after, slots_of, Stand};

/// No slots stand for the empty journal. Slots that stand for a journal, of which no record of the
/// next number was collected, stand for the journal with the next event once the record that a call
/// makes is added, and the record that was collected is removed.
pub fn slots_follow_the_journal()
    ensures empty { Stand [] [] }
    ensures next { (past : Past) (slots : List Slot) (event : Plain) → Stand past slots → is_gone past (length slots) ≡ false →
        Stand (event ∷ past) (slots_after past event.act slots) }
{}

/// The slots that the events of a lawful journal leave, one after another, stand for it.
pub fn lawful_journals_have_slots<T>()
    ensures { (header : Header) (past : List (Event T)) → is_lawful header past ≡ true →
        Stand (without_tickets past) (slots_of (without_tickets past)) }
{}

/// Where slots stand for a journal, the readers of a file are all accepted records that have it as an
/// input, removed ones too.
pub fn readers_are_of_all_records()
    ensures { (past : Past) (slots : List Slot) (f : FileId) → Stand past slots → reader_count f slots ≡ count_by (has_input f) (records past) }
{}

/// Where slots stand for a journal, the record of a number is the accepted one while it is kept.
pub fn records_are_found_while_kept()
    ensures { (past : Past) (slots : List Slot) (made : RecordId) → Stand past slots →
        record_of made.0 slots ≡ (if is_kept past made then record_at past made else None) }
{}
