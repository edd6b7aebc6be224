//! The laws of the two ends of a queue.
//!
//! The contract of each function is a law, and its body is empty: nothing is computed here.

ghost use Rattle.std.specs.Prelude.{◌≡◌, List, [], ◌∷◌};
ghost use Rattle.cics_images.specs.Cells.{is_other};
ghost use Rattle.cics_transdata.specs.declared.images.TdImage.{TdImage};
ghost use Rattle.cics_transdata.specs.Trans.{TransState, IsApart, reader_committed};
ghost use Rattle.cics_transdata.specs.Trans.{writer_committed};
ghost use Rattle.cics_transdata.specs.Undo.{reading_end, writing_end, KeepsEnds, IsTransImage};
ghost use Rattle.cics_transdata.specs.Ends.{backed_out, AreEnds};

/// A unit of work at the reading end of a queue and another at its writing end don't meet. Whatever
/// one does to its end, and whenever and however it ends, the other's images stay ready in turn.
///
/// - `read`, `written`: a change at the one end, its image stored as the newest, leaves both lists
///   so.
/// - `reader_backed_out`, `writer_backed_out`: so does a backout at the one end.
/// - `reader_commits`, `writer_commits`: and a commit.
/// - `either_order`: two backouts leave the same, whichever comes first.
pub fn the_two_ends_are_apart()
    ensures read { (old new : TransState) (reader writer : List TdImage) (image : TdImage) →
        AreEnds old reader writer → IsTransImage old new reading_end image →
        KeepsEnds (is_other reading_end) old new → IsApart new →
        AreEnds new (image ∷ reader) writer }
    ensures written { (old new : TransState) (reader writer : List TdImage) (image : TdImage) →
        AreEnds old reader writer → IsTransImage old new writing_end image →
        KeepsEnds (is_other writing_end) old new → IsApart new →
        AreEnds new reader (image ∷ writer) }
    ensures reader_backed_out { (s : TransState) (reader writer : List TdImage) →
        AreEnds s reader writer → AreEnds (backed_out s reader) [] writer }
    ensures writer_backed_out { (s : TransState) (reader writer : List TdImage) →
        AreEnds s reader writer → AreEnds (backed_out s writer) reader [] }
    ensures either_order { (s : TransState) (reader writer : List TdImage) →
        AreEnds s reader writer →
        backed_out (backed_out s reader) writer ≡ backed_out (backed_out s writer) reader }
    ensures reader_commits { (s : TransState) (reader writer : List TdImage) →
        AreEnds s reader writer → AreEnds (reader_committed s) [] writer }
    ensures writer_commits { (s : TransState) (reader writer : List TdImage) →
        AreEnds s reader writer → AreEnds (writer_committed s) reader [] }
{}
