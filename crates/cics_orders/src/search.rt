//! Follows every order in which lanes may give their lines, and gathers the endings.
//!
//! The words are those of `cics_orders::space`. States of one stamp are followed once.
//!
//! Read `exploring`, then `ahead` and `progress`.

mod ahead;
mod exploring;
mod progress;

pub use exploring::{Report, ToldPlan, explore_script};
pub use progress::{Progress, Stand};
