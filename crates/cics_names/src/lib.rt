//! What the command interface speaks of: names, records, the EBCDIC characters, the conditions and
//! the commands.
#![tactic(auto)]

mod commands;
mod conditions;
mod ebcdic;
mod items;
mod names;
mod records;
mod stamping;

pub use commands::{Command, Verb};
pub use conditions::{AbendCode, Condition};
pub use ebcdic::{from_ebcdic, to_ebcdic};
pub use items::Items;
pub use names::{Name4, Name8, NameFault};
pub use records::{NoMemory, Record};
pub use stamping::{stamp_flag, stamp_number, stamp_text};
