//! Undoing the changes of a queue.

use crate::images::TdImage;
use crate::queues::TransQueue;
use cics_images::Undoable;

/// A queue has two cells: its reading end, with the records marked as read, and its writing end,
/// with those marked as written.
///
/// `undo` of a read or delete removes the marks that it set: the records are where they were.
/// `undo` of a write removes the last record, which must not be marked as read. Neither touches the
/// other end, nor a record that isn't marked as written. Neither takes memory, and both cost O(1).
/// Nothing is held back for an undo, so `settle` has nothing to do. What a commit does is done by
/// `commit_reader` and `commit_writer`.
impl Undoable for TransQueue {
    ghost use Rattle.std.specs.Prelude.{◌≡◌, false, refl};
    ghost use Rattle.cics_transdata.specs.declared.queues.Recovery.{Recovery};
    ghost use Rattle.cics_transdata.specs.Undo.{content_at, end_of, Leads, IsReadyImage, KeepsEnds};
    ghost use Rattle.cics_transdata.specs.Undo.{undone as undone_queue};
    ghost use Rattle.cics_transdata.specs.Trans.{unwritten_records};
    ghost use Rattle.cics_transdata.specs.UndoLaws as laws;

    type Image = TdImage;

    ghost content = { content_at };

    ghost cell = { end_of };

    ghost leads = { Leads };

    ghost IsReady = { IsReadyImage };

    ghost undone = { undone_queue };

    ghost holds_back = { λ q c. false };

    ghost swept = { λ q c. q };

    ghost Keeps = { KeepsEnds };

    ghost Fixed = { Recovery };

    ghost fixed = { λ q. q.kind };

    ghost determined = { laws.determined };

    ghost undone_leads = { laws.undone_leads };

    ghost undone_keeps = { laws.undone_keeps };

    ghost undone_fixed = { laws.undone_fixed };

    ghost undone_holds = { λ q i c other. refl };

    ghost swept_content = { λ q s c. refl };

    ghost swept_keeps = { λ q s. laws.keeps_itself _ q };

    ghost swept_fixed = { λ q s. refl };

    ghost swept_holds = { λ q s c. refl };

    ghost keeps_content = { laws.keeps_content };

    ghost keeps_ready = { laws.keeps_ready };

    ghost keeps_undone = { laws.keeps_undone };

    ghost keeps_itself = { laws.keeps_itself };

    ghost keeps_fewer = { laws.keeps_fewer };

    ghost keeps_on = { laws.keeps_on };

    fn undo_by_ref(&mut self, image: &mut TdImage)
        requires { IsReadyImage self.old image.old }
        ensures value { self.new ≡ undone_queue self.old image.old }
        ensures cell { end_of image.new ≡ end_of image.old }
        ensures unwritten { unwritten_records self.new ≡ unwritten_records self.old }
    {
        match image {
            TdImage::Taken(before) => self.read = *before,
            TdImage::Written => {
                let _ = self.placed.pop_back();
                self.written -= 1;
            }
        }
    }

    fn settle(&mut self, _image: TdImage) {}
}
