//! Every order in which the tasks of a plan may give their lines.
#![tactic(auto)]

pub mod command;
pub mod endings;
mod lanes;
mod laws;
mod lines;
pub mod plans;
mod playing;
pub mod report;
pub mod search;
pub mod space;
mod stamping;
mod starting;
mod turns;
mod walks;

pub use lanes::Lane;
pub use laws::{
    lines_are_not_refused, order_as_written_is_an_order, orders_end, orders_rest,
    serial_orders_are_walked,
};
pub use lines::Lines;
pub use search::{ToldPlan, explore_script};
pub use walks::Walker;
