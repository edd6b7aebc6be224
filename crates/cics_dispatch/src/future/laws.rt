//! The law of the same future.
//!
//! The contract of each function is a law, and its body is empty.

ghost use Rattle.std.specs.Prelude.{◌≡◌, ℕ, map};
ghost use Rattle.cics_names.specs.Keyed.{Bytes};
ghost use Rattle.cics_names.specs.declared.commands.Command.{Command};
ghost use Rattle.cics_history.specs.State.{OpeningState};
ghost use Rattle.cics_history.specs.Openings.{IsOpeningInOrder};
ghost use Rattle.cics_history.specs.Holding.{store_of};
ghost use Rattle.cics_dispatch.specs.Machine.Machine.{Machine, initial_region};
ghost use Rattle.cics_dispatch.specs.Machine.Steps.{attached, issued};
ghost use Rattle.cics_dispatch.specs.Machine.Waking.{clock_set, woken, expired};
ghost use Rattle.cics_dispatch.specs.Machine.Shutdown.{unless_down, shut_down};
ghost use Rattle.cics_dispatch.specs.Machine.Blockers.{waiting_command, blocker_of};
ghost use Rattle.cics_dispatch.specs.Machine.Stamps.{region_stamp};
ghost use Rattle.cics_dispatch.specs.Future.Futures.{IsSteady, HaveSameFuture, AreSameSteps, unnumbered};
ghost use Rattle.cics_dispatch.specs.Future.Compared.{LookAlike};

/// In two regions that have the same future each event is answered the same, and leaves regions
/// that have the same future.
///
/// - `begins`: a region that begins is steady, and has the same future as itself.
/// - `attaches`, `issues`, `sets`, `shuts`: the events that a caller makes, each refused once the
///   region is shut down.
/// - `wakes`, `expires`: the steps that a region takes by itself.
pub fn events_keep_the_future()
    ensures begins { (o : OpeningState) → IsOpeningInOrder o →
        HaveSameFuture (initial_region o) (initial_region o) }
    ensures attaches { (m n : Machine) (label : Bytes) (dtimout : ℕ) → HaveSameFuture m n →
        AreSameSteps (unless_down m (attached m label dtimout))
        (unless_down n (attached n label dtimout)) }
    ensures issues { (m n : Machine) (label : Bytes) (c : Command) → HaveSameFuture m n →
        AreSameSteps (unless_down m (issued m label c)) (unless_down n (issued n label c)) }
    ensures sets { (m n : Machine) (now : ℕ) → HaveSameFuture m n →
        AreSameSteps (unless_down m (clock_set m now)) (unless_down n (clock_set n now)) }
    ensures shuts { (m n : Machine) → HaveSameFuture m n →
        AreSameSteps (unless_down m (shut_down m)) (unless_down n (shut_down n)) }
    ensures wakes { (m n : Machine) → HaveSameFuture m n → AreSameSteps (woken m) (woken n) }
    ensures expires { (m n : Machine) → HaveSameFuture m n → AreSameSteps (expired m) (expired n) }
{}

/// Two regions that have the same future show the same.
///
/// - `stores`: files and queues hold the same.
/// - `tasks`: the tasks are the same but for the numbers of their units.
/// - `waits`: the same commands wait.
/// - `blockers`: each waits for the same task.
pub fn futures_tell_the_same()
    ensures stores { (m n : Machine) → HaveSameFuture m n → store_of m.units ≡ store_of n.units }
    ensures tasks { (m n : Machine) → HaveSameFuture m n →
        map unnumbered m.tasks ≡ map unnumbered n.tasks }
    ensures waits { (m n : Machine) (label : Bytes) → HaveSameFuture m n →
        waiting_command m label ≡ waiting_command n label }
    ensures blockers { (m n : Machine) (label : Bytes) → HaveSameFuture m n →
        blocker_of m label ≡ blocker_of n label }
{}

/// Two regions that look alike have the same future.
///
/// - `alike`: no before image is compared. Each ending is what the committed units left, and
///   behind it what the units that it keeps did, one after the other.
/// - `itself`: a steady region has the same future as itself.
pub fn looks_tell_the_future()
    ensures alike { (m n : Machine) → IsSteady m → IsSteady n → LookAlike m n →
        HaveSameFuture m n }
    ensures itself { (m : Machine) → IsSteady m → HaveSameFuture m m }
{}

/// The stamp of a region tells its future, if the opening and the waiting commands are known.
///
/// - `looks`: two regions with one stamp look alike.
/// - `future`: so they have the same future, if both are steady.
/// - `stamps`: two regions that have the same future have one stamp.
pub fn stamps_tell_the_future()
    ensures looks { (m n : Machine) → m.units.opening ≡ n.units.opening →
        map (λ w. w.command) m.waiting ≡ map (λ w. w.command) n.waiting →
        region_stamp m ≡ region_stamp n → LookAlike m n }
    ensures future { (m n : Machine) → IsSteady m → IsSteady n →
        m.units.opening ≡ n.units.opening →
        map (λ w. w.command) m.waiting ≡ map (λ w. w.command) n.waiting →
        region_stamp m ≡ region_stamp n → HaveSameFuture m n }
    ensures stamps { (m n : Machine) → HaveSameFuture m n → region_stamp m ≡ region_stamp n }
{}
