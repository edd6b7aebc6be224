//! The laws of NEXT cursors.
//!
//! The contract of the function is the law, and its body is empty: nothing is computed here.

ghost use Rattle.std.specs.Prelude.{◌≡◌, ℕ, Bool, List, [], if◌then◌else◌};
ghost use Rattle.cics_names.specs.Keyed.{Bytes, Map, with_value, without};
ghost use Rattle.cics_tempstor.specs.declared.images.TsImage.{TsImage};
ghost use Rattle.cics_tempstor.specs.declared.queue_rows.Row.{Row};
ghost use Rattle.cics_tempstor.specs.Queues.{is_there, has_item, queue_at, queues_of, places_of};
ghost use Rattle.cics_tempstor.specs.Queues.{ts_written, ts_rewritten, ts_deleted, after_read_item};
ghost use Rattle.cics_tempstor.specs.Places.{AreInOrder, committed, backed_out, places_there};

/// The NEXT cursors of the queues that are there, by name, over commands and ends of units of work.
/// Neither a commit nor a backout moves one. Only the cursor of a queue that a backout removes is
/// gone, and reads as 0.
///
/// The rows stay in order: their names rise, and no row without an item hides a cursor that an undo
/// would show again.
///
/// - `empty`: there is no row, and so no cursor.
/// - `written`, `rewritten`: no cursor changes. A queue that a write makes has the cursor 0.
/// - `deleted`: the cursor of the queue is gone.
/// - `read`: a read that is answered an item sets the cursor to its number.
/// - `committed`: the images' names are swept, and no cursor changes.
/// - `backed_out`: the images are undone, newest first, and then their names are swept. The cursors
///   of the queues that are there then are as before.
pub fn next_places_are_no_part_of_what_is_undone()
    ensures empty { AreInOrder [] × (places_of [] ≡ []) }
    ensures written { (rows : Map Row) (q d : Bytes) → AreInOrder rows →
        AreInOrder (ts_written rows q d) × (places_of (ts_written rows q d) ≡ places_of rows) }
    ensures rewritten { (rows : Map Row) (q : Bytes) (n : ℕ) (d : Bytes) → AreInOrder rows →
        AreInOrder (ts_rewritten rows q n d)
        × (places_of (ts_rewritten rows q n d) ≡ places_of rows) }
    ensures deleted { (keep : Bool) (rows : Map Row) (q : Bytes) → AreInOrder rows →
        AreInOrder (ts_deleted keep rows q)
        × (places_of (ts_deleted keep rows q)
        ≡ (if is_there (queue_at q rows) then without q (places_of rows) else places_of rows)) }
    ensures read { (rows : Map Row) (q : Bytes) (n : ℕ) → AreInOrder rows →
        AreInOrder (after_read_item rows q n)
        × (places_of (after_read_item rows q n)
        ≡ (if has_item (queue_at q rows) n then with_value q n (places_of rows)
        else places_of rows)) }
    ensures committed { (rows : Map Row) (images : List TsImage) → AreInOrder rows →
        AreInOrder (committed rows images)
        × (places_of (committed rows images) ≡ places_of rows) }
    ensures backed_out { (rows : Map Row) (images : List TsImage) → AreInOrder rows →
        AreInOrder (backed_out rows images)
        × (places_of (backed_out rows images)
        ≡ places_there (queues_of (backed_out rows images)) (places_of rows)) }
{}
