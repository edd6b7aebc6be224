//! A script taken apart: what it defines, its tasks with their lines, and the lines of the clock.

mod defining;
mod planning;
mod plans;
mod reading;

pub use defining::define;
pub use planning::plan_of;
pub use plans::{Plan, Planned, RefusedLine, ScriptFault, TaskPlan, is_same};
pub use reading::read;
