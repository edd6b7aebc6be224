//! What the reads of an order saw and missed.

ghost use Rattle.std.specs.Prelude.{◌≡◌, ◌++◌, OnOk};
ghost use Rattle.std.specs.List.{fold};
ghost use Rattle.cics_run.specs.Reads.Watched.{amiss_text};
ghost use Rattle.cics_orders.specs.Report.Findings.{with_line, with_attach, amiss_along, watch_of};

use crate::plans::Plan;
use crate::report::along::lines_along;
use cics_names::{NoMemory, Record};
use cics_run::reads::Watcher;
use cics_run::stage::Stage;
use std::alloc::Global;

// A run whose steps are noted.
#[derive(Drop)]
struct Watch {
    stage: Stage,
    watcher: Watcher,
    alloc: Global,
}

impl Watch {
    // Runs a line. A plan has no line with a fault.
    fn run_line(&mut self, line: &(u64, Record)) -> Result<(), NoMemory>
        ensures { OnOk result (watch_of self.new ≡ with_line (watch_of self.old) line.now) }
    {
        let watcher = &mut self.watcher;
        self.stage
            .run_line(self.alloc, line.0, line.1.bytes(), watcher)?;
        Ok(())
    }

    // Runs some lines, in their order.
    fn run_lines(&mut self, lines: &[(u64, Record)]) -> Result<(), NoMemory>
        ensures { OnOk result (watch_of self.new
            ≡ fold with_line (watch_of self.old) lines.now) }
    {
        for line in lines {
            self.run_line(line)?;
        }
        Ok(())
    }

    // Runs the lines that define and attach, and behind them others. Appends what is amiss.
    fn push_amiss(
        &mut self,
        out: &mut Vec<u8>,
        plan: &Plan,
        lines: &[(u64, Record)],
    ) -> Result<(), NoMemory>
        ensures { OnOk result (out.new.items
            ≡ out.old.items ++ amiss_text (fold with_line (fold with_attach (fold with_line
            (watch_of self.old) plan.now.definitions) plan.now.tasks) lines.now).watched) }
    {
        self.run_lines(plan.definitions.as_slice())?;
        for task in plan.tasks.as_slice() {
            self.run_line(&task.attach)?;
        }
        self.run_lines(lines)?;
        self.watcher.push_amiss(out)
    }
}

/// Appends what is amiss in the reads of an order. Runs the lines that define and attach, then
/// those of the order, each with its number in the whole script.
///
/// Errors: `NoMemory`. Cost: that of a run of the order's lines.
pub(crate) fn push_amiss(out: &mut Vec<u8>, plan: &Plan, order: &[usize]) -> Result<(), NoMemory>
    ensures { OnOk result (out.new.items ≡ out.old.items ++ amiss_along plan.now order.now) }
{
    let alloc = *out.allocator();
    let lines = lines_along(alloc, plan, order)?;
    let mut watch = Watch {
        stage: Stage::new(alloc),
        watcher: Watcher::new(alloc),
        alloc,
    };
    watch.push_amiss(out, plan, lines.as_slice())
}
