//! The laws of orders.
//!
//! The contract of each function is a law, and its body is empty.

ghost use Rattle.std.specs.Prelude.{◌≡◌, [], Some, All, filter};
ghost use Rattle.cics_dispatch.specs.Machine.Waking.{IsAtRest};
ghost use Rattle.cics_orders.specs.Words.{Order, IsWay, after, orders, is_serial_order};
ghost use Rattle.cics_orders.specs.Words.{serial_orders, lanes, initial_state, line_count, written};
ghost use Rattle.cics_orders.specs.Words.{breaks};
ghost use Rattle.cics_orders.specs.declared.plans.plans.Plan.{Plan};
ghost use Rattle.cics_orders.specs.Accepts.{AcceptsReady};

/// After each line of an order the region is at rest: no waiting command may resume, and no task
/// has waited too long.
pub fn orders_rest()
    ensures { (p : Plan) (o : Order) → IsAtRest (after lanes (initial_state p) o).machine }
{}

/// After each order of a plan no lane may give.
pub fn orders_end()
    ensures { (p : Plan) → All (λ o. lanes.givers (after lanes (initial_state p) o) 0 ≡ [])
        (orders lanes (line_count p) (initial_state p)) }
{}

/// The serial orders of a plan are those of a walk that leaves out each line that breaks a turn.
pub fn serial_orders_are_walked()
    ensures { (p : Plan) → filter (is_serial_order lanes breaks (initial_state p))
        (orders lanes (line_count p) (initial_state p))
        ≡ serial_orders lanes breaks (line_count p) (initial_state p) }
{}

/// The order as written is one of the orders: each lane may give when its line comes, and at the
/// end none may.
pub fn order_as_written_is_an_order()
    ensures { (p : Plan) (o : Order) → written (initial_state p) p.written ≡ Some o →
        IsWay lanes (initial_state p) o
        × (lanes.givers (after lanes (initial_state p) o) 0 ≡ []) }
{}

/// After every order no command is refused of a task that may give a line. That is one that has not
/// ended, and has no waiting command.
pub fn lines_are_not_refused()
    ensures { (p : Plan) (o : Order) → AcceptsReady (after lanes (initial_state p) o) }
{}
