//! The report on the orders of a script's lines, and each order as a script: their bytes.

mod along;
mod amiss;
mod counts;
mod findings;
mod laws;
mod open;
mod parts;
mod report;
mod scripts;

pub use amiss::{AmissEnding, first_amiss};
pub use laws::{faults_are_those_of_runs, scripts_lead_there};
pub use report::{push_fault, push_report};
pub use scripts::push_script;
