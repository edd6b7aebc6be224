//! The laws of backout: what files and queues hold after any interleaving of commands, commits and
//! backouts. Any number of units may act, with ENQ, DEQ, UNLOCK and READQ TS anywhere among them.
//!
//! The contract of each function is a law. Its body is empty: nothing is computed here. The laws
//! use the definitions that the contracts of the calls use. So each is a lemma about the program
//! too.
//!
//! A unit's number is its position in the list of outcomes. A command or an ENQ without a unit
//! begins the next one. A command or an ENQ that must wait changes nothing. Neither does an event
//! of a unit that isn't open. READQ TS belongs to no unit.
//!
//! Most laws of whole runs suppose an opening in order: its names rise, and so do the keys of each
//! file. `Opening` makes no other. A delete by prefix is answered a number of records, which cells
//! determine only if keys rise.

pub mod marks;

ghost use Rattle.std.specs.Prelude.{◌≡◌, ℕ, ◌==◌, true, false, ◌&&◌, if◌then◌else◌, Option, Some, None, is_some, List, ◌++◌, All};
ghost use Rattle.std.specs.List.{list_any};
ghost use Rattle.cics_names.specs.Keyed.{Bytes, Map, value_at};
ghost use Rattle.cics_ksds.specs.Prefixes.{under};
ghost use Rattle.cics_history.specs.Words.{is_one, is_prefix, Resource, OpeningState, queue_logical, Store, initial_store, UnitsState, UnitsValue};
ghost use Rattle.cics_history.specs.Words.{initial_units, IsOpeningInOrder, apply, counted_answer, outcome_of, is_open, is_backed_out, kept, replay};
ghost use Rattle.cics_history.specs.Words.{Agrees, IsSameRecoverable, LeavesNoTrace, store_of, held_by, owned, smallest_conflict, conflicts};
ghost use Rattle.cics_history.specs.Words.{is_other, blocker_at, awaited, after_execution, after_end, after_enqueue, after_dequeue, after_unlock};
ghost use Rattle.cics_history.specs.Words.{after_ts_reading, Op, DeleteGeneric, Entry, UnitState, Committed, BackedOut, Cell, Key, Td, content};
ghost use Rattle.cics_history.specs.Words.{is_generic, cell_of, touches, effect, End, Reading, Writing, recovers, IsOrdered, IsCanonical, Event};
ghost use Rattle.cics_history.specs.Words.{is_live, may_act, run, end_of, IsHeldByOne, IsLeastHeld, used, IsOneAtEachEnd, IsSound, commit_order};
ghost use Rattle.cics_history.specs.Words.{IsSerializable, IsInOrder, Image, Cells, Leads, AllReady, AreImages, image_of, prefix_images, is_plain};
ghost use Rattle.cics_history.specs.Words.{Place, IsPlaceOf, placed, place_executed, place_committed, place_undone, queue_backed_out, marks_undone};
ghost use Rattle.cics_history.specs.Words.{AllMarksReady, Marks, AreMarksOf, content_in_place, parts_opened, run_in_place};

/// Each surviving entry has the answer that a replay of the surviving entries gives at its place.
/// The replay begins with the opening's contents and goes in order of execution. This holds
/// whatever was executed, enqueued, dequeued, unlocked, committed and backed out, in any
/// interleaving.
pub fn answers_stay()
    ensures { (o : OpeningState) (events : List Event) → IsOpeningInOrder o →
        let s = run (initial_units o) events in
        Agrees (initial_store o) (kept o s.trace s.outcomes) }
{}

/// Files and queues, changed in place, hold what a replay of the surviving entries gives. In place
/// a command changes the cells that it acts on. A commit drops the unit's images, and a backout
/// undoes them, newest first. A LOGICAL queue is marked at each of its two ends separately. ENQ,
/// DEQ, UNLOCK and READQ TS change nothing there. Cells are no list, so the run in place takes the
/// keys under a prefix from the store.
///
/// - `cells`: each key of a file, each temporary storage queue and each transient data queue holds
///   what the replay gives.
/// - `whole`: so a store in order that holds what is in place equals the replay, as whole maps.
/// - `images`: an open unit's images of keys and temporary storage queues are ready in turn, newest
///   first. Each finds what its change made.
/// - `marks`: so are its images of the ends of LOGICAL queues. No record that their undo removes is
///   marked as read.
pub fn parts_stay()
    ensures cells { (o : OpeningState) (events : List Event) (x : Cell) → IsOpeningInOrder o →
        content_in_place o (run_in_place (initial_units o) (parts_opened o) events) x
        ≡ content (store_of (run (initial_units o) events)) x }
    ensures whole { (o : OpeningState) (events : List Event) (held : Store) → IsOpeningInOrder o →
        IsCanonical held →
        ((x : Cell) → content held x ≡ content_in_place o
        (run_in_place (initial_units o) (parts_opened o) events) x) →
        held ≡ store_of (run (initial_units o) events) }
    ensures images { (o : OpeningState) (events : List Event) (unit : ℕ) → IsOpeningInOrder o →
        is_live (run (initial_units o) events) unit ≡ true →
        let p = run_in_place (initial_units o) (parts_opened o) events in
        AllReady p.place.cells (p.place.images unit) }
    ensures marks { (o : OpeningState) (events : List Event) (unit : ℕ) → IsOpeningInOrder o →
        is_live (run (initial_units o) events) unit ≡ true →
        let p = run_in_place (initial_units o) (parts_opened o) events in
        AllMarksReady p.marks.queues (p.marks.images unit) }
{}

/// A unit that runs alone and is backed out changes nothing recoverable. Suppose that all entries
/// from some point on are its own. Then each recoverable file and queue holds what the surviving
/// entries before them give.
///
/// - `alone`: this holds of every history, whenever the unit runs.
/// - `call`: it holds after the call that backs the unit out, if the store is the replay.
pub fn runs_alone()
    ensures alone { (o : OpeningState) (outcomes : List UnitState) (unit : ℕ)
        (before own : List Entry) →
        IsCanonical (initial_store o) → is_backed_out (outcome_of outcomes unit) ≡ true →
        All (λ e. e.unit ≡ unit) own →
        IsSameRecoverable o (replay (initial_store o) (kept o (before ++ own) outcomes))
        (replay (initial_store o) (kept o before outcomes)) }
    ensures call { (old : UnitsValue) (unit : ℕ) (store : Store) →
        IsOpeningInOrder old.state.opening →
        is_live old.state unit ≡ true →
        let new = after_end old.state unit BackedOut in
        store ≡ store_of new → LeavesNoTrace old (record { state = new; store = store }) unit }
{}

/// Committed units are serializable in commit order. Suppose that each unit's commands on
/// recoverable files and queues ran together, one unit after the other. Each command that was
/// answered NORMAL would have the very answer that its task was given. The recoverable files and
/// queues would hold what they hold. Commands with another answer changed nothing and lock nothing,
/// so they are left out. So are commands on something unrecoverable.
///
/// Units that are still open come behind those that committed, in any order. Open units that are
/// left out count as backed out.
///
/// - `order`: the state's list of commits has the units that committed, in the order in which the
///   events commit them.
/// - `opening`: the opening stays as it was.
/// - `serializable`: in that order, with any open units behind it, each command has the answer that
///   it was given. None is lost and none comes twice. They give what stands once every other open
///   unit is backed out. With all open units behind, they give what stands. If no unit is open,
///   committed units alone give what stands, and so do their entries in order of execution.
pub fn units_are_serializable()
    ensures order { (o : OpeningState) (events : List Event) →
        (run (initial_units o) events).commits ≡ commit_order (initial_units o) events }
    ensures opening { (o : OpeningState) (events : List Event) →
        (run (initial_units o) events).opening ≡ o }
    ensures serializable { (o : OpeningState) (events : List Event) → IsOpeningInOrder o →
        let s = run (initial_units o) events in
        IsSerializable (record { state = s; store = store_of s }) }
{}

/// Each call keeps the committed units in commit order (`IsInOrder`). A commit adds its unit at the
/// end, and no other call changes the list. `serializable` follows, if the state is sound and the
/// store is the replay.
pub fn calls_keep_the_order()
    ensures begins { (o : OpeningState) → IsOpeningInOrder o → IsInOrder (initial_units o) }
    ensures executes { (s : UnitsState) (unit : Option ℕ) (op : Op) → IsSound s → IsInOrder s →
        may_act s unit ≡ true → IsInOrder (after_execution s unit op) }
    ensures commits { (s : UnitsState) (unit : ℕ) → IsInOrder s → is_live s unit ≡ true →
        IsInOrder (after_end s unit Committed) }
    ensures backs_out { (s : UnitsState) (unit : ℕ) → IsInOrder s → is_live s unit ≡ true →
        IsInOrder (after_end s unit BackedOut) }
    ensures enqueues { (s : UnitsState) (unit : Option ℕ) (value : Bytes) → IsInOrder s →
        IsInOrder (after_enqueue s unit value) }
    ensures dequeues { (s : UnitsState) (unit : ℕ) (value : Bytes) → IsInOrder s →
        IsInOrder (after_dequeue s unit value) }
    ensures unlocks { (s : UnitsState) (unit : ℕ) (file : Bytes) → IsInOrder s →
        IsInOrder (after_unlock s unit file) }
    ensures reads { (s : UnitsState) (queue : Bytes) (item : ℕ) → IsInOrder s →
        IsInOrder (after_ts_reading s queue item) }
    ensures serializable { (v : UnitsValue) → IsSound v.state → IsInOrder v.state →
        IsCanonical (initial_store v.state.opening) → v.store ≡ store_of v.state →
        IsSerializable v }
{}

/// A resource has at most one owner.
///
/// - `one`: after every run, two units that own conflicting resources are the same unit.
/// - `ends`: so at most one open unit has used an end of a recoverable cell.
/// - `found`: if the resource is no prefix of keys, another unit that owns something conflicting is
///   the blocker.
/// - `holds`: the blocker at any resource isn't the unit that asks, and owns something that
///   conflicts with the resource.
/// - `least`: the smallest conflict is owned by another unit and conflicts with the resource. No
///   other such resource comes before it in byte order.
/// - `somebody`: if another unit owns something that conflicts with the resource, there is a
///   blocker.
/// - `none`: if no other unit owns something that conflicts with it, there is no blocker.
pub fn each_resource_has_one_holder()
    ensures one { (o : OpeningState) (events : List Event) → IsOpeningInOrder o →
        IsHeldByOne (run (initial_units o) events) }
    ensures ends { (s : UnitsState) → IsSound s →
        IsOneAtEachEnd s.opening s.trace (outcome_of s.outcomes) }
    ensures found { (s : UnitsState) (asking : Option ℕ) (r : Resource) (holder : ℕ) → IsSound s →
        is_prefix r ≡ false →
        is_other asking holder ≡ true → list_any (conflicts r) (held_by s holder) ≡ true →
        blocker_at (owned s) asking r ≡ Some holder }
    ensures holds { (s : UnitsState) (asking : Option ℕ) (r : Resource) (holder : ℕ) →
        blocker_at (owned s) asking r ≡ Some holder →
        (is_other asking holder ≡ true) × (list_any (conflicts r) (held_by s holder) ≡ true) }
    ensures least { (s : UnitsState) (asking : Option ℕ) (r : Resource) (e : Resource × ℕ)
        → IsSound s →
        smallest_conflict (owned s) asking r ≡ Some e → IsLeastHeld s asking r e }
    ensures somebody { (s : UnitsState) (asking : Option ℕ) (r : Resource) (unit : ℕ) → IsSound s →
        is_other asking unit ≡ true → list_any (conflicts r) (held_by s unit) ≡ true →
        is_some (blocker_at (owned s) asking r) ≡ true }
    ensures none { (s : UnitsState) (asking : Option ℕ) (r : Resource) →
        ((unit : ℕ) → is_other asking unit ≡ true →
        list_any (conflicts r) (held_by s unit) ≡ false) →
        blocker_at (owned s) asking r ≡ None }
{}

/// A unit owns an end of a LOGICAL queue exactly if it is open and has used that end. No unit owns
/// an end of another queue. So both what a unit owns and the list of owners tell at which ends its
/// commit has to commit.
///
/// - `held`: this holds of what a unit owns.
/// - `table`: it holds of the list of owners, which names only units that have begun.
pub fn ends_are_held_by_use()
    ensures held { (s : UnitsState) (unit : ℕ) (queue : Bytes) (end : End) →
        list_any (is_one (end_of queue end)) (held_by s unit)
        ≡ (is_open (outcome_of s.outcomes unit)
        && (queue_logical s.opening queue && used s.trace unit (Td queue) end)) }
    ensures table { (s : UnitsState) (unit : ℕ) (queue : Bytes) (end : End) →
        list_any (λ e. is_one (end_of queue end) e.0 && (e.1 == unit)) (owned s)
        ≡ (is_live s unit && (queue_logical s.opening queue && used s.trace unit (Td queue) end)) }
{}

/// A store is determined by its cells.
///
/// - `equal`: two stores in order whose cells hold the same are equal, as whole maps.
/// - `initial`: the store of an opening in order is in order.
/// - `replayed`: replaying keeps a store in order.
pub fn stores_are_their_cells()
    ensures equal { (s t : Store) → IsCanonical s → IsCanonical t →
        ((x : Cell) → content s x ≡ content t x) →
        s ≡ t }
    ensures initial { (o : OpeningState) → IsOpeningInOrder o → IsCanonical (initial_store o) }
    ensures replayed { (s : Store) (entries : List Entry) → IsCanonical s →
        IsCanonical (replay s entries) }
{}

/// A command acts by cells.
///
/// - `cells`: it changes each cell that it touches by what the cell holds, and no other.
/// - `answer`: if it acts on one cell, its answer is the one that this cell gives.
/// - `generic`: DELETE GENERIC acts on every key that begins with its prefix. It is answered the
///   number of their records, or NOTFND if there is none.
/// - `local`: so if keys rise, the answer depends on the touched cells alone.
/// - `ordered`: if the keys of each file rise, they still do.
pub fn commands_act_by_cells()
    ensures cells { (s : Store) (op : Op) (x : Cell) →
        content (apply s op).store x ≡ (if touches op x then (effect op (content s x)).cell
        else content s x) }
    ensures answer { (s : Store) (op : Op) → is_generic op ≡ false →
        (apply s op).answer ≡ (effect op (content s (cell_of op))).answer }
    ensures generic { (s : Store) (file prefix : Bytes) (records : Map Bytes) →
        value_at file s.files ≡ Some records →
        (apply s (DeleteGeneric file prefix)).answer ≡ counted_answer (under prefix records) }
    ensures local { (op : Op) (s t : Store) → IsOrdered s → IsOrdered t →
        ((x : Cell) → touches op x ≡ true → content s x ≡ content t x) →
        (apply s op).answer ≡ (apply t op).answer }
    ensures ordered { (s : Store) (op : Op) → IsOrdered s → IsOrdered (apply s op).store }
{}

/// Each call keeps the open units isolated, and at most one owner for each resource (`IsSound`).
/// The unit that executes, ends or enqueues is open, or begins. `agrees` follows.
pub fn calls_keep_apart()
    ensures begins { (o : OpeningState) → IsOpeningInOrder o → IsSound (initial_units o) }
    ensures executes { (s : UnitsState) (unit : Option ℕ) (op : Op) → IsSound s →
        may_act s unit ≡ true →
        IsSound (after_execution s unit op) }
    ensures ends { (s : UnitsState) (unit : ℕ) (outcome : UnitState) → IsSound s →
        is_live s unit ≡ true →
        IsSound (after_end s unit outcome) }
    ensures enqueues { (s : UnitsState) (unit : Option ℕ) (value : Bytes) → IsSound s →
        may_act s unit ≡ true →
        IsSound (after_enqueue s unit value) }
    ensures dequeues { (s : UnitsState) (unit : ℕ) (value : Bytes) → IsSound s →
        IsSound (after_dequeue s unit value) }
    ensures unlocks { (s : UnitsState) (unit : ℕ) (file : Bytes) → IsSound s →
        IsSound (after_unlock s unit file) }
    ensures reads { (s : UnitsState) (queue : Bytes) (item : ℕ) → IsSound s →
        IsSound (after_ts_reading s queue item) }
    ensures agrees { (s : UnitsState) → IsSound s →
        Agrees (initial_store s.opening) (kept s.opening s.trace s.outcomes) }
{}

/// After a command, a commit or a backout, the cells in place hold what the history gives. The open
/// units' images still lead back. All cells are meant but those of LOGICAL queues.
///
/// - `enqueues`, `dequeues`, `unlocks`, `reads`: ENQ, DEQ, UNLOCK and READQ TS leave cells and
///   images as they are, and both stay right. An ENQ may begin a unit, which has no image.
/// - `image`: if a command acts on one cell, `image_of` gives its images.
/// - `prefix`: the images of DELETE GENERIC are those of the records under its prefix, that of the
///   last key newest. At each key the cells hold what the store holds.
pub fn calls_keep_places()
    ensures begins { (o : OpeningState) → IsPlaceOf (initial_units o) (placed o) }
    ensures executes { (s : UnitsState) (p : Place) (unit : Option ℕ) (op : Op) (new : List Image) →
        IsSound s → IsPlaceOf s p →
        may_act s unit ≡ true → awaited s unit op ≡ None → AreImages op p.cells new →
        IsPlaceOf (after_execution s unit op) (place_executed s p unit op new) }
    ensures commits { (s : UnitsState) (p : Place) (unit : ℕ) → IsPlaceOf s p →
        is_live s unit ≡ true →
        IsPlaceOf (after_end s unit Committed) (place_committed p unit) }
    ensures backs_out { (s : UnitsState) (p : Place) (unit : ℕ) → IsPlaceOf s p →
        is_live s unit ≡ true →
        IsPlaceOf (after_end s unit BackedOut) (place_undone p unit) }
    ensures enqueues { (s : UnitsState) (p : Place) (unit : Option ℕ) (value : Bytes) →
        IsPlaceOf s p → IsPlaceOf (after_enqueue s unit value) p }
    ensures dequeues { (s : UnitsState) (p : Place) (unit : ℕ) (value : Bytes) →
        IsPlaceOf s p → IsPlaceOf (after_dequeue s unit value) p }
    ensures unlocks { (s : UnitsState) (p : Place) (unit : ℕ) (file : Bytes) →
        IsPlaceOf s p → IsPlaceOf (after_unlock s unit file) p }
    ensures reads { (s : UnitsState) (p : Place) (queue : Bytes) (item : ℕ) →
        IsPlaceOf s p → IsPlaceOf (after_ts_reading s queue item) p }
    ensures image { (op : Op) (cells : Cells) → is_generic op ≡ false →
        AreImages op cells (image_of op (cells (cell_of op))) }
    ensures prefix { (s : Store) (file prefix : Bytes) (cells : Cells) → IsOrdered s →
        ((f key : Bytes) → cells (Key f key) ≡ content s (Key f key)) →
        AreImages (DeleteGeneric file prefix) cells (prefix_images s file prefix cells) }
{}

/// An open unit's images lead each cell to what the history gives without that unit. They are
/// undone newest first, and each is ready in its turn.
///
/// - `leads`, `ready`: the images of keys and of temporary storage queues.
/// - `unmarks`, `marks_ready`: the images of the ends of LOGICAL queues. Undone, they clear the
///   ends that the unit owns, and leave the other end to its owner.
pub fn images_lead_back()
    ensures leads { (s : UnitsState) (p : Place) (unit : ℕ) (x : Cell) → IsPlaceOf s p →
        is_live s unit ≡ true →
        is_plain s.opening x ≡ true → recovers s.opening x ≡ true →
        Leads (p.images unit) x (p.cells x) (content (store_of (after_end s unit BackedOut)) x) }
    ensures ready { (s : UnitsState) (p : Place) (unit : ℕ) → IsPlaceOf s p →
        is_live s unit ≡ true →
        AllReady p.cells (p.images unit) }
    ensures unmarks { (s : UnitsState) (p : Marks) (unit : ℕ) → IsSound s → AreMarksOf s p →
        is_live s unit ≡ true →
        (queue : Bytes) → queue_logical s.opening queue ≡ true →
        marks_undone p.queues (p.images unit) queue
        ≡ queue_backed_out (used s.trace unit (Td queue) Reading)
        (used s.trace unit (Td queue) Writing) (p.queues queue) }
    ensures marks_ready { (s : UnitsState) (p : Marks) (unit : ℕ) → IsSound s → AreMarksOf s p →
        is_live s unit ≡ true →
        AllMarksReady p.queues (p.images unit) }
{}
