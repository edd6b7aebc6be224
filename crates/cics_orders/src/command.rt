//! Every order of a script's lines: the script taken apart, and the report on its orders.

mod laws;
mod running;
mod surveys;

pub use crate::search::{Progress, Stand};
pub use laws::ending_scripts_lead_there;
pub use running::{Surveyed, Surveyor};
pub use surveys::{Survey, survey_script};
