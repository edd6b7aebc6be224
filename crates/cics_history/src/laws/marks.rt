//! The laws of the marks at the ends of LOGICAL queues, and of transient data queues that carry
//! them.

ghost use Rattle.std.specs.Prelude.{◌≡◌, ◌≤◌, ℕ, Bool, true, false, not, length, slice_get, Option, Some, None};
ghost use Rattle.cics_names.specs.Keyed.{Bytes};
ghost use Rattle.cics_transdata.specs.Trans.{TransState, IsMarked, is_logical, queue_of, first_of};
ghost use Rattle.cics_transdata.specs.Trans.{trans_written, trans_read, trans_deleted, reader_committed, writer_committed};
ghost use Rattle.cics_transdata.specs.Undo.{IsReadyImage, undone as undone_queue, written_image, read_image, deleted_image};
ghost use Rattle.cics_transdata.specs.declared.images.TdImage.{TdImage};
ghost use Rattle.cics_history.specs.Words.{ReadingEnd, OpeningState, queue_logical, UnitsState, initial_units};
ghost use Rattle.cics_history.specs.Words.{store_of, owned, blocker_at, committed_for, is_nothing, awaited};
ghost use Rattle.cics_history.specs.Words.{unit_or_next, after_execution, after_end, after_enqueue, after_dequeue};
ghost use Rattle.cics_history.specs.Words.{after_unlock, after_ts_reading, Op, TdWrite, TdRead, TdDelete, Committed};
ghost use Rattle.cics_history.specs.Words.{BackedOut, Td, content, Writing, is_live, may_act, used, IsSound, Queues};
ghost use Rattle.cics_history.specs.Words.{seen, shown, marked, marks_of, reader_settled, writer_settled, MarkImage};
ghost use Rattle.cics_history.specs.Words.{unmarked, IsMarkReady, mark_images, Carries, CarriesIfAny, Marks};
ghost use Rattle.cics_history.specs.Words.{AreMarksOf, marks_opened, marks_executed, marks_committed};
ghost use Rattle.cics_history.specs.Words.{marks_backed_out};

/// After a command, a commit or a backout, LOGICAL queues in place hold what the history gives,
/// however the units at their ends end. The open units' images of the marks still lead back.
///
/// - `enqueues`, `dequeues`, `unlocks`, `reads`: ENQ, DEQ, UNLOCK and READQ TS leave the marks and
///   their images as they are, and both stay right.
/// - `shown`: what a queue shows is what the history gives.
/// - `committed`: if no other unit owns the reading end, a task may read what is shown, without
///   what another unit wrote.
/// - `sees`: a task whose read doesn't have to wait sees a record exactly if the queue shows one. So
///   its read marks what a read of all shown records marks.
pub fn calls_keep_marks()
    ensures begins { (o : OpeningState) → AreMarksOf (initial_units o) (marks_opened o) }
    ensures executes { (s : UnitsState) (p : Marks) (unit : Option ℕ) (op : Op) → IsSound s →
        AreMarksOf s p →
        may_act s unit ≡ true → awaited s unit op ≡ None →
        AreMarksOf (after_execution s unit op) (marks_executed s p unit op) }
    ensures commits { (s : UnitsState) (p : Marks) (unit : ℕ) → IsSound s → AreMarksOf s p →
        is_live s unit ≡ true →
        AreMarksOf (after_end s unit Committed) (marks_committed s p unit) }
    ensures backs_out { (s : UnitsState) (p : Marks) (unit : ℕ) → IsSound s → AreMarksOf s p →
        is_live s unit ≡ true →
        AreMarksOf (after_end s unit BackedOut) (marks_backed_out p unit) }
    ensures enqueues { (s : UnitsState) (p : Marks) (unit : Option ℕ) (value : Bytes) →
        AreMarksOf s p → AreMarksOf (after_enqueue s unit value) p }
    ensures dequeues { (s : UnitsState) (p : Marks) (unit : ℕ) (value : Bytes) →
        AreMarksOf s p → AreMarksOf (after_dequeue s unit value) p }
    ensures unlocks { (s : UnitsState) (p : Marks) (unit : ℕ) (file : Bytes) →
        AreMarksOf s p → AreMarksOf (after_unlock s unit file) p }
    ensures reads { (s : UnitsState) (p : Marks) (queue : Bytes) (item : ℕ) →
        AreMarksOf s p → AreMarksOf (after_ts_reading s queue item) p }
    ensures shown { (s : UnitsState) (p : Marks) → AreMarksOf s p → (queue : Bytes) →
        queue_logical s.opening queue ≡ true →
        content (store_of s) (Td queue) ≡ Some (shown (p.queues queue)) }
    ensures committed { (s : UnitsState) (asking : Option ℕ) (p : Marks) (queue : Bytes) →
        IsSound s → AreMarksOf s p →
        may_act s asking ≡ true → queue_logical s.opening queue ≡ true →
        blocker_at (owned s) asking (ReadingEnd queue) ≡ None →
        committed_for s asking queue
        ≡ seen false (not (used s.trace (unit_or_next asking s.outcomes) (Td queue) Writing))
        (p.queues queue) }
    ensures sees { (s : UnitsState) (asking : Option ℕ) (p : Marks) (queue : Bytes) →
        IsSound s → AreMarksOf s p → queue_logical s.opening queue ≡ true →
        awaited s asking (TdRead queue) ≡ None →
        let past_fresh = used s.trace (unit_or_next asking s.outcomes) (Td queue) Writing in
        is_nothing (seen false (not past_fresh) (p.queues queue))
        ≡ is_nothing (shown (p.queues queue)) }
{}

/// A transient data queue has its records in place and two counts, which stand for its marks. A
/// change does to the queue what it does to the marks. So the laws of marked queues are laws of it.
///
/// - `shown`: its records are those that its marks show.
/// - `first`: a reader gets the first record that it sees, whether or not it may see uncommitted
///   ones.
/// - `read`: a reader that may not see uncommitted records reads as if it might, if it sees a
///   record or none is shown. That is so if its read doesn't have to wait (`sees` of
///   `calls_keep_marks`).
/// - `reader_commits`: a commit at the reading end removes what was read, if no open unit wrote it.
pub fn queues_carry_their_marks()
    ensures shown { (s : TransState) → queue_of s ≡ shown (marks_of s) }
    ensures first { (s : TransState) (past_fresh : Bool) →
        first_of s past_fresh ≡ slice_get (seen false (not past_fresh) (marks_of s)) 0 }
    ensures written { (s : TransState) (queue from : Bytes) → IsMarked s →
        is_logical s.kind ≡ true →
        marks_of (trans_written s from) ≡ marked (TdWrite queue from) (marks_of s) }
    ensures read { (s : TransState) (queue : Bytes) (past_fresh : Bool) → is_logical s.kind ≡ true →
        is_nothing (seen false (not past_fresh) (marks_of s)) ≡ is_nothing (shown (marks_of s)) →
        marks_of (trans_read s past_fresh) ≡ marked (TdRead queue) (marks_of s) }
    ensures deleted { (s : TransState) (queue : Bytes) → is_logical s.kind ≡ true →
        marks_of (trans_deleted s) ≡ marked (TdDelete queue) (marks_of s) }
    ensures reader_commits { (s : TransState) → IsMarked s → s.read ≤ length (marks_of s).settled →
        marks_of (reader_committed s) ≡ reader_settled true (marks_of s) }
    ensures writer_commits { (s : TransState) →
        marks_of (writer_committed s) ≡ writer_settled true (marks_of s) }
{}

/// The before images of a LOGICAL queue are images of its marks, and to undo the one is to undo the
/// other. So the laws of the images of marks are laws of them.
///
/// - `written`, `read`, `deleted`: the image of a change is the one that the marks have. A read has
///   none exactly if the reader sees nothing.
/// - `ready`: it is ready if the image of the marks is.
/// - `undone`: undone, both leave the same marks.
/// - `marked`: the undone queue is marked again, so all this holds along a list of images.
pub fn queues_give_the_images_of_their_marks()
    ensures written { (s : TransState) (queues : Queues) (queue from : Bytes) →
        is_logical s.kind ≡ true →
        CarriesIfAny (written_image s) (mark_images (TdWrite queue from) queues) }
    ensures read { (s : TransState) (queues : Queues) (queue : Bytes) (past_fresh : Bool) →
        queues queue ≡ marks_of s → is_logical s.kind ≡ true →
        is_nothing (seen false (not past_fresh) (marks_of s)) ≡ is_nothing (shown (marks_of s)) →
        CarriesIfAny (read_image s past_fresh) (mark_images (TdRead queue) queues) }
    ensures deleted { (s : TransState) (queues : Queues) (queue : Bytes) → IsMarked s →
        queues queue ≡ marks_of s → is_logical s.kind ≡ true →
        CarriesIfAny (deleted_image s) (mark_images (TdDelete queue) queues) }
    ensures ready { (s : TransState) (i : TdImage) (m : MarkImage) → IsMarked s → Carries i m →
        IsMarkReady m (marks_of s) → IsReadyImage s i }
    ensures undone { (s : TransState) (i : TdImage) (m : MarkImage) → IsMarked s → Carries i m →
        IsMarkReady m (marks_of s) → marks_of (undone_queue s i) ≡ unmarked m (marks_of s) }
    ensures marked { (s : TransState) (i : TdImage) (m : MarkImage) → IsMarked s → Carries i m →
        IsMarkReady m (marks_of s) → IsMarked (undone_queue s i) }
{}
