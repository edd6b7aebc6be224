//! The classes of steps.

ghost use Rattle.std.specs.Prelude.{◌≡◌};
ghost use Rattle.cics_picture.specs.Page.Kinds.{is_woken, kind_class, woken_class};

use crate::RowKind;
use cics_dispatch::Event;

/// Returns whether a waiting command is answered.
pub fn is_woken(event: &Event) -> bool
    ensures { result ≡ is_woken event.now }
{
    matches!(event, Event::Woken(_))
}

/// Returns the class of an event of a kind. A fault is of none.
pub fn kind_class(kind: Option<RowKind>) -> &'static str
    ensures { result.now ≡ kind_class kind }
{
    match kind {
        Some(RowKind::Attached) => "att",
        Some(RowKind::Normal | RowKind::Woken | RowKind::Committed | RowKind::BackedOut) => "ans",
        Some(RowKind::Condition) => "con",
        Some(RowKind::Waiting) => "wai",
        Some(RowKind::Ended) => "end",
        Some(RowKind::Abended) => "abe",
        Some(RowKind::Refused) => "ref",
        Some(RowKind::Clock) => "clk",
        Some(RowKind::Down) => "dwn",
        None => "flt",
    }
}

/// Returns the start of that class.
pub fn woken_class(is_woken: bool) -> &'static str
    ensures { result.now ≡ woken_class is_woken }
{
    if is_woken { "wok " } else { "" }
}
