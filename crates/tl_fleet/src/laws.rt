//! The events that concern several files in memory, or none, keep the order of the blocks. Each
//! change counts what it moves.

ghost use Rattle.std.specs.Prelude.{◌≡◌, ◌+◌, ◌<◌, ◌≤◌, ◌&&◌, ◌∷◌, ℕ, Bool, List, None, Some, false, true, is_none, length};
ghost use Rattle.std.specs.List.{AllByRecursion};
ghost use Rattle.tl_types.specs.Block.{FileOutcome};
ghost use Rattle.tl_types.specs.declared.actor.Actor.{Actor};
ghost use Rattle.tl_types.specs.declared.file_id.FileId.{FileId};
ghost use Rattle.tl_types.specs.declared.record_id.RecordId.{RecordId};
ghost use Rattle.tl_types.specs.declared.worker_id.WorkerId.{WorkerId};
ghost use Rattle.tl_model.specs.declared.header.Header.{Header};
ghost use Rattle.tl_model.specs.Eviction.{Sizes};
ghost use Rattle.tl_model.specs.History.{is_output};
ghost use Rattle.tl_model.specs.Past.{Past, Plain};
ghost use Rattle.tl_model.specs.Residency.{is_resident, place, reads_of_claim};
ghost use Rattle.tl_store.specs.Contents.{Blocks, block_size, without};
ghost use Rattle.tl_fleet.specs.Events.{after_claim, after_done, among, concerns_memory, files_of, installed_each, touched_each};
ghost use Rattle.tl_fleet.specs.Order.{Ascends, StandsInOrder, is_made};
ghost use Rattle.tl_fleet.specs.Workers.{IsOnce, Workers, all_touched, all_without, changed_at, copies, dropped, first_to_drop, found, held_count, installed, lost, new_workers, with_blocks};

/// A done brings the outputs that are resident nowhere. Installed at its worker in ascending order,
/// so that the greatest output is in front, they leave the fleet standing in order.
pub fn done_keeps_order()
    ensures { (sizes : Sizes) (header : Header) (past : Past) (actor : Actor) (w : WorkerId) (made : RecordId) (blocks : Blocks) (workers : Workers) →
        StandsInOrder sizes header past workers → w.0 < header.workers → Ascends (files_of blocks) →
        ((f : FileId) → among f (files_of blocks) ≡ (is_output past f made && is_none (place past f))) →
        AllByRecursion (λ block. block_size block ≡ sizes block.file) blocks →
        StandsInOrder sizes header (after_done actor w made past) (installed_each w blocks workers) }
{}

/// A claim uses the inputs that are in memory. Touched in ascending order, each once, they leave the
/// fleet standing in order. A file that is nowhere in memory may be touched too.
pub fn claim_keeps_order()
    ensures { (sizes : Sizes) (header : Header) (past : Past) (actor : Actor) (w : WorkerId) (made : RecordId) (files : List FileId) (workers : Workers) →
        StandsInOrder sizes header past workers → Ascends files →
        ((f : FileId) → is_resident past f ≡ true → among f files ≡ reads_of_claim past f made) →
        StandsInOrder sizes header (after_claim actor w made past) (touched_each files workers) }
{}

/// An event that concerns no file in memory leaves the fleet standing in order as it is, also by
/// other sizes, where they are the same of each file that a record made before.
pub fn other_events_keep_order()
    ensures { (before sizes : Sizes) (header : Header) (past : Past) (event : Plain) (workers : Workers) →
        concerns_memory event.act ≡ false → ((f : FileId) → is_made past f ≡ true → sizes f ≡ before f) →
        StandsInOrder before header past workers → StandsInOrder sizes header (event ∷ past) workers }
{}

/// How many blocks are held after each change of the workers' memory. A block that comes is one
/// more. Where each file is in memory once at most, a use changes nothing, and a drop takes one. A
/// free takes as many as there are of the file.
pub fn a_change_counts_what_it_moves()
    ensures empty { (count capacity : ℕ) → held_count (new_workers count capacity) ≡ 0 }
    ensures installed { (w : WorkerId) (block : FileOutcome) (workers : Workers) →
        w.0 < length workers → held_count (installed w block workers) ≡ held_count workers + 1 }
    ensures each { (w : WorkerId) (blocks : Blocks) (workers : Workers) →
        w.0 < length workers → held_count (installed_each w blocks workers) ≡ held_count workers + length blocks }
    ensures touched { (f : FileId) (workers : Workers) → IsOnce workers →
        held_count (all_touched f workers) ≡ held_count workers }
    ensures each_touched { (files : List FileId) (workers : Workers) → IsOnce workers →
        held_count (touched_each files workers) ≡ held_count workers }
    ensures freed { (f : FileId) (workers : Workers) →
        held_count (all_without f workers) + copies f workers ≡ held_count workers }
    ensures no_more_freed { (f : FileId) (workers : Workers) →
        held_count (all_without f workers) ≤ held_count workers }
    ensures no_more_lost { (w : WorkerId) (workers : Workers) →
        held_count (lost w workers) ≤ held_count workers }
    ensures dropped { (f : FileId) (w : WorkerId) (block : FileOutcome) (workers : Workers) →
        found f workers ≡ Some (w, block) → IsOnce workers →
        held_count (changed_at w.0 (with_blocks (without f)) workers) + 1 ≡ held_count workers }
    ensures settled { (excepted : FileId → Bool) (drop : WorkerId × FileId) (workers : Workers) →
        first_to_drop excepted workers ≡ Some drop → IsOnce workers →
        held_count (dropped (Some drop) workers) + 1 ≡ held_count workers }
{}
