//! What is found of a file after each change of the workers' memory, and how often each worker was
//! lost by then.

ghost use Rattle.std.specs.Prelude.{◌≡◌, ◌+◌, ◌<◌, ◌&&◌, Bool, false, true, List, None, Some, if◌then◌else◌, is_some, length, slice_get};
ghost use Rattle.std.specs.List.{AllByRecursion};
ghost use Rattle.std.specs.Option.{option_map, option_map_or};
ghost use Rattle.tl_types.specs.Block.{FileOutcome};
ghost use Rattle.tl_types.specs.Same.{file_same, worker_same};
ghost use Rattle.tl_types.specs.declared.file_id.FileId.{FileId};
ghost use Rattle.tl_types.specs.declared.worker_id.WorkerId.{WorkerId};
ghost use Rattle.tl_model.specs.declared.header.Header.{Header};
ghost use Rattle.tl_model.specs.Eviction.{Sizes};
ghost use Rattle.tl_model.specs.Past.{Past};
ghost use Rattle.tl_model.specs.Residency.{is_at, place};
ghost use Rattle.tl_store.specs.Contents.{Blocks, block_of, without};
ghost use Rattle.tl_fleet.specs.Events.{files_of, installed_each, touched_each};
ghost use Rattle.tl_fleet.specs.Order.{Ascends, StandsInOrder};
ghost use Rattle.tl_fleet.specs.Workers.{IsOnce, Workers, all_touched, all_without, changed_at, first_to_drop, found, incarnation_of, installed, is_resident, lost, with_blocks, worker_found};

/// A block that is brought to a worker is found there, and each other file is found as before.
pub fn a_brought_block_is_found()
    ensures { (g : FileId) (w : WorkerId) (block : FileOutcome) (workers : Workers) →
        w.0 < length workers → is_resident block.file workers ≡ false →
        found g (installed w block workers) ≡ (if file_same g block.file then Some (w, block) else found g workers) }
{}

/// Blocks that are brought to a worker in ascending order of their files are found there, and each
/// other file is found as before.
pub fn brought_blocks_are_found()
    ensures { (g : FileId) (w : WorkerId) (blocks : Blocks) (workers : Workers) →
        w.0 < length workers → AllByRecursion (λ block. is_resident block.file workers ≡ false) blocks → Ascends (files_of blocks) →
        found g (installed_each w blocks workers) ≡ option_map_or (λ block. Some (w, block)) (block_of g blocks) (found g workers) }
{}

/// A file that is touched, and each other file, is found as before.
pub fn touching_moves_nothing()
    ensures one { (g f : FileId) (workers : Workers) → found g (all_touched f workers) ≡ found g workers }
    ensures each { (g : FileId) (files : List FileId) (workers : Workers) → found g (touched_each files workers) ≡ found g workers }
{}

/// A freed file is found no more, and each other file is found as before.
pub fn a_freed_file_is_found_no_more()
    ensures { (g f : FileId) (workers : Workers) →
        found g (all_without f workers) ≡ (if file_same g f then None else found g workers) }
{}

/// The files of a lost worker are found no more, and each other file is found as before.
pub fn a_loss_takes_what_was_there()
    ensures { (g : FileId) (w : WorkerId) (workers : Workers) → IsOnce workers →
        found g (lost w workers) ≡ (if is_at w (option_map worker_found (found g workers)) then None else found g workers) }
{}

/// A file that its worker drops is found no more. Each other file, and a file that the worker does not
/// have, is found as before.
pub fn a_dropped_file_is_found_no_more()
    ensures { (g f : FileId) (w : WorkerId) (workers : Workers) → IsOnce workers →
        found g (changed_at w.0 (with_blocks (without f)) workers)
        ≡ (if file_same g f && is_at w (option_map worker_found (found g workers)) then None else found g workers) }
{}

/// What is found of a file is a block of this file, on a worker of the fleet.
pub fn it_is_of_the_file()
    ensures file { (g : FileId) (v : WorkerId) (b : FileOutcome) (workers : Workers) → found g workers ≡ Some (v, b) → b.file ≡ g }
    ensures worker { (g : FileId) (v : WorkerId) (b : FileOutcome) (workers : Workers) → found g workers ≡ Some (v, b) → v.0 < length workers }
{}

/// Where each file is in memory once at most, the file that must be dropped is found on the worker
/// that must drop it.
pub fn what_must_go_is_found()
    ensures { (excepted : FileId → Bool) (drop : WorkerId × FileId) (workers : Workers) →
        first_to_drop excepted workers ≡ Some drop → IsOnce workers →
        (block : FileOutcome) × (found drop.1 workers ≡ Some (drop.0, block)) }
{}

/// A fleet that stands in order has each file where the past has it, and once at most.
pub fn it_is_where_the_past_has_it()
    ensures place { (sizes : Sizes) (header : Header) (past : Past) (workers : Workers) →
        StandsInOrder sizes header past workers →
        (f : FileId) → option_map worker_found (found f workers) ≡ place past f }
    ensures once { (sizes : Sizes) (header : Header) (past : Past) (workers : Workers) →
        StandsInOrder sizes header past workers → IsOnce workers }
{}

/// A fleet that stands in order by some sizes does so by all that give each file in memory the same.
pub fn only_resident_sizes_matter()
    ensures { (sizes other : Sizes) (header : Header) (past : Past) (workers : Workers) →
        ((f : FileId) → is_some (place past f) ≡ true → other f ≡ sizes f) →
        StandsInOrder sizes header past workers → StandsInOrder other header past workers }
{}

/// A loss raises the incarnation of its worker by one, and of no other. A change of blocks raises none.
pub fn the_incarnation_rises_at_a_loss_alone()
    ensures installed { (v w : WorkerId) (block : FileOutcome) (workers : Workers) →
        option_map incarnation_of (slice_get (installed w block workers) v.0) ≡ option_map incarnation_of (slice_get workers v.0) }
    ensures touched { (v : WorkerId) (f : FileId) (workers : Workers) →
        option_map incarnation_of (slice_get (all_touched f workers) v.0) ≡ option_map incarnation_of (slice_get workers v.0) }
    ensures freed { (v : WorkerId) (f : FileId) (workers : Workers) →
        option_map incarnation_of (slice_get (all_without f workers) v.0) ≡ option_map incarnation_of (slice_get workers v.0) }
    ensures changed { (v w : WorkerId) (change : Blocks → Blocks) (workers : Workers) →
        option_map incarnation_of (slice_get (changed_at w.0 (with_blocks change) workers) v.0) ≡ option_map incarnation_of (slice_get workers v.0) }
    ensures lost { (v w : WorkerId) (workers : Workers) →
        option_map incarnation_of (slice_get (lost w workers) v.0)
        ≡ option_map (λ incarnation. if worker_same v w then incarnation + 1 else incarnation) (option_map incarnation_of (slice_get workers v.0)) }
{}
