//! Undoing the changes of temporary storage.

use crate::images::{Before, TsImage};
use crate::stores::TempStore;
use cics_images::Undoable;
use std::mem;

/// The cells of temporary storage are names, each with a queue or nothing.
///
/// `undo` restores the image's queue, and no other queue changes. It removes the last item, puts an
/// old item back, or moves a whole queue back into its row. It takes no memory: a queue that comes
/// back finds the empty row of its name. If the only item goes, the row stays, since an older image
/// of the name may put more back. No NEXT cursor is undone. What is put back moves out of the
/// image, which still names its queue. `settle` drops an image and removes an empty row that was
/// held for it. What reads and listings show stays as it is.
impl Undoable for TempStore {
    ghost use Rattle.std.specs.Prelude.{refl};
    ghost use Rattle.cics_tempstor.specs.Undo.{content_at, name_of_image, Leads, IsReadyImage};
    ghost use Rattle.cics_tempstor.specs.Undo.{KeepsQueues};
    ghost use Rattle.cics_tempstor.specs.Undo.{holds_row, undone as undone_rows};
    ghost use Rattle.cics_tempstor.specs.Queues.{ts_swept};
    ghost use Rattle.cics_tempstor.specs.UndoLaws as laws;

    type Image = TsImage;

    ghost content = { content_at };

    ghost cell = { name_of_image };

    ghost leads = { Leads };

    ghost IsReady = { IsReadyImage };

    ghost undone = { undone_rows };

    ghost holds_back = { holds_row };

    ghost swept = { ts_swept };

    ghost Fixed = { Unit {0} };

    ghost fixed = { λ rows. tt };

    ghost Keeps = { KeepsQueues };

    ghost determined = { laws.determined };

    ghost undone_leads = { laws.undone_leads };

    ghost undone_keeps = { laws.undone_keeps };

    ghost undone_fixed = { λ rows i. refl };

    ghost undone_holds = { laws.undone_holds };

    ghost swept_content = { laws.swept_content };

    ghost swept_keeps = { laws.swept_keeps };

    ghost swept_fixed = { λ rows q. refl };

    ghost swept_holds = { laws.swept_holds };

    ghost keeps_content = { laws.keeps_content };

    ghost keeps_ready = { laws.keeps_ready };

    ghost keeps_undone = { laws.keeps_undone };

    ghost keeps_itself = { laws.keeps_itself };

    ghost keeps_fewer = { laws.keeps_fewer };

    ghost keeps_on = { laws.keeps_on };

    fn undo_by_ref(&mut self, image: &mut TsImage) {
        let before = mem::replace(&mut image.before, Before::Added);
        self.undo_at(&image.name, before);
    }

    fn settle(&mut self, image: TsImage) {
        self.sweep(&image.name);
    }
}
