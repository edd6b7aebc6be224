//! Events of a script.

use cics_names::Verb;
use cics_script::Line;

/// An event, or a look that takes memory.
#[derive(Drop)]
pub(crate) enum Event {
    /// What a line of a script says.
    Line(Line),
    /// `WAKE`: the first waiting command that no longer has to wait resumes.
    Wake,
    /// `EXPIRE`: the first task that has waited too long is abended.
    Expire,
    /// `LISTING`: the listing is asked for.
    Listing,
    /// `REPLAY`: the replay is asked for.
    Replay,
    /// `INTERVALS`: how many control intervals the files of units have is asked for.
    Intervals,
}

impl Event {
    /// Returns whether it defines or loads something.
    pub(crate) fn is_definition(&self) -> bool {
        matches!(
            self,
            Event::Line(
                Line::DefineFile(_, _)
                    | Line::DefineTsPrefix(_)
                    | Line::DefineTd(_, _)
                    | Line::LoadFile(_, _)
                    | Line::LoadTd(_, _)
            )
        )
    }

    /// Returns whether it may ask for memory if it is answered `answer`, its line of the journal.
    /// The checks before the look at what other units hold ask for none. Nor does what only gives
    /// something up.
    pub(crate) fn may_ask(&self, answer: &str) -> bool {
        match self {
            Event::Line(Line::Issue(_, command)) => {
                !matches!(
                    command.verb,
                    Verb::Syncpoint
                        | Verb::Rollback
                        | Verb::Return
                        | Verb::Abend { .. }
                        | Verb::Unlock { .. }
                        | Verb::Deq { .. }
                        | Verb::ResetBr { .. }
                        | Verb::EndBr { .. }
                ) && !is_of_checks(&command.verb, answer)
            }
            Event::Line(Line::Attach(_, _, _)) => !answer.contains(" REFUSED "),
            Event::Line(Line::Clock(_) | Line::Shutdown) | Event::Expire => false,
            _ => true,
        }
    }
}

// Whether it is the checks that answer a command so: whether it may be issued, whether its file or
// queue is defined, lengths, update reads and browses. A LENGERR of what was read, an INVREQ where
// a value is held too often, and a QIDERR of temporary storage come later.
fn is_of_checks(verb: &Verb, answer: &str) -> bool {
    let is_td = matches!(
        verb,
        Verb::WriteqTd { .. } | Verb::ReadqTd { .. } | Verb::DeleteqTd { .. }
    );
    answer.contains(" REFUSED ")
        || answer.contains(" DSIDERR ")
        || (answer.contains(" LENGERR ") && verb.length().is_none())
        || (answer.contains(" INVREQ ") && !matches!(verb, Verb::Enq { .. }))
        || (answer.contains(" QIDERR ") && is_td)
}
