//! Scripts on a region.

use crate::events::Event;
use crate::runs::{Target, Tried};
use crate::states::{push_listed, push_units};
use cics_dispatch::{Event as RegionEvent, Region, Request};
use cics_names::{Name8, NoMemory};
use cics_run::stage::journal::push_event;
use cics_script::Line;
use cics_script::spelling::{Part, push_parts};
use cics_units::{Listing, Opening};
use std::alloc::Global;

// Returns what a line asks a region for.
fn request_of(line: Line) -> Option<Request> {
    match line {
        Line::Attach(label, transaction, dtimout) => Some(Request::Attach {
            label,
            transaction,
            dtimout,
        }),
        Line::Clock(seconds) => Some(Request::Clock(seconds)),
        Line::Issue(label, command) => Some(Request::Issue(label, command)),
        Line::Shutdown => Some(Request::Shutdown),
        _ => None,
    }
}

// Lets happen what a line says.
fn happen_by_line(region: &mut Region, line: Line, out: &mut Vec<u8>) -> Result<(), NoMemory> {
    match request_of(line) {
        Some(request) => push_event(out, &region.play(request)?),
        None => Ok(()),
    }
}

// Puts at the end whom each task waits for.
fn push_blockers(out: &mut Vec<u8>, region: &Region, listing: &Listing) -> Result<(), NoMemory> {
    for (label, _) in listing.tasks.as_slice() {
        if let Some(blocker) = region.blocker(label) {
            push_parts(
                out,
                &[Part::Name(&label.bytes()), Part::Name(&blocker.bytes())],
            )?;
        }
    }
    Ok(())
}

// Lets the first waiting command that no longer has to wait resume.
fn wake(region: &mut Region, out: &mut Vec<u8>) -> Result<(), NoMemory> {
    match region.wake() {
        Ok(Some(woken)) => push_event(out, &RegionEvent::Woken(woken)),
        Ok(None) => Ok(()),
        Err(_) => Err(NoMemory),
    }
}

impl Tried for Region {
    fn happen(&mut self, event: Event, out: &mut Vec<u8>) -> Result<(), NoMemory> {
        match event {
            Event::Line(line) => happen_by_line(self, line, out),
            Event::Wake => wake(self, out),
            Event::Expire => {
                match self.expire() {
                    Some(expired) => push_event(out, &RegionEvent::Expired(expired)),
                    None => Ok(()),
                }
            }
            Event::Listing => push_listed(out, self.listing()),
            Event::Replay => push_listed(out, self.replayed()),
            Event::Intervals => Ok(()),
        }
    }

    // Whom each task waits for, and what the units of work show; the listing has what each task
    // does.
    fn push_state(&self, out: &mut Vec<u8>) -> Result<(), NoMemory> {
        let listing = self.listing()?;
        push_blockers(out, self, &listing)?;
        push_units(out, self.units(), &listing)
    }
}

impl Target for Region {
    fn start(opening: Opening) -> Result<Region, Opening> {
        Region::new(opening)
    }

    fn free_tasks(&self, alloc: Global) -> Result<Vec<Name8>, NoMemory> {
        let mut free = Vec::new(alloc);
        for number in 0..self.task_count() {
            if let Some(label) = self.label_at(number) {
                if self.unit(&label).is_some() && self.waiting_command(&label).is_none() {
                    free.push(label)?;
                }
            }
        }
        Ok(free)
    }
}
