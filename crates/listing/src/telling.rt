// Telling the lines of a capture one by one.
ghost use Rattle.std.specs.Prelude.{◌<◌, ◌≤◌, length};
ghost use Rattle.std.specs.Option.{ForSome};
ghost use Rattle.code.specs.Shapes.{places};
ghost use Rattle.sheet.specs.Calls.{shape_of_sheet};
ghost use Rattle.listing.specs.Captures.{most_capture_octets, most_field_place};

use crate::acts::{Act, Acts};
use crate::layouts::Layout;
use crate::listings::readable;
use crate::workspaces::Workspace;
use crate::{Buffers, Fault, Line};
use search::Entry;
use weighing::{Reading, Weighing};

// How far a listing is told.
#[derive(Clone, Copy, PartialEq)]
pub(crate) enum Stage {
    // nothing is told yet of a capture that is too long, or that begins with no letter
    TooLong,
    NoLetter,
    // records are read
    Reading,
    // a record stopped the reading, and the end is still to be told
    Stopped,
    Ended,
}

// How far the lines of a capture are told. The buffers are lent to each step. The bounds see to it
// that no place and no count overflows.
#[derive(Drop)]
pub(crate) struct Progress<'a, W: Weighing> {
    capture: &'a [u8],
    workspace: Workspace<W>,
    // the record that was read last, and its acts that are still to be carried out
    at: Layout,
    acts: Acts<'a>,
    stage: Stage,
    ghost few: { length capture.now ≤ most_capture_octets },
    ghost within: { at.end ≤ most_capture_octets },
    ghost near: { at.symbols ≤ most_field_place },
    ghost counted: { at.record_number < at.end },
}

impl<'a, W: Weighing> Progress<'a, W> {
    ghost use Rattle.std.specs.Prelude.{◌≡◌, ◌≤◌, length};
    ghost use Rattle.listing.specs.Captures.{most_capture_octets};
    ghost use Rattle.listing.specs.Telling.{AtStart};

    // Before the first line: nothing is read of a capture that is too long.
    pub(crate) fn at_start(capture: &'a [u8], stage: Stage) -> Progress<'a, W>
        ensures { AtStart capture.now stage result }
    {
        Progress {
            capture: readable(capture),
            workspace: Workspace::closed(),
            at: Layout::letter(),
            acts: Acts::none(),
            stage,
        }
    }
}

impl<'a, R: Reading> Progress<'a, R> {
    ghost use Rattle.std.specs.Prelude.{◌≡◌, ◌<◌, ◌≤◌, [], List, None, OnSome, Option, length};
    ghost use Rattle.search.specs.declared.Entry.{Entry};
    ghost use Rattle.listing.specs.Captures.{act_of, acts_left};
    ghost use Rattle.listing.specs.Carrying.{HasRoom};
    ghost use Rattle.listing.specs.Telling.{CarriesOn, Gives, StepsOn, position, steps_to_go};
    ghost use Rattle.listing.specs.declared.telling.Stage.TheVariants.{Ended, Reading};

    // Carries out an act of the record that was read last; where a fault stops it, none of its
    // others is left.
    fn carry_out(
        &mut self,
        tally: &mut [Entry<R::Value>],
        paths: &mut [Option<R::Value>],
        act: Act<'a>,
    ) -> Option<Line<R::Value>>
        requires reading { self.old.stage ≡ Reading }
        requires room { HasRoom self.old.workspace tally.old }
        requires states { 32 ≤ length paths.old }
        ensures goes_on { CarriesOn R.Reading.alphabet (act_of act.entry)
            (position self.old tally.old paths.old) result
            (position self.new tally.new paths.new) }
        ensures room { HasRoom self.new.workspace tally.new }
        ensures stage { self.new.stage ≡ Reading }
        ensures fewer { steps_to_go self.new ≤ steps_to_go self.old }
    {
        match self.workspace.perform(tally, paths, self.at, act) {
            Ok(line) => line,
            Err(fault) => {
                self.acts = Acts::none();
                Some(Line::Fault {
                    record: self.at.record_number,
                    fault,
                })
            }
        }
    }

    // Begins the next record, or tells why none is read.
    fn begin(&mut self) -> Option<Line<R::Value>>
        requires reading { self.old.stage ≡ Reading }
        requires done { acts_left self.old.acts ≡ [] }
        ensures goes_on { (tally : List (Entry R.Value)) (paths : List (Option R.Value))
            → StepsOn R.Reading.alphabet (position self.old tally paths) result
            (position self.new tally paths) }
        ensures room { self.new.workspace ≡ self.old.workspace }
        ensures going { result ≡ None → self.new.stage ≡ Reading }
        ensures fewer { steps_to_go self.new < steps_to_go self.old }
    {
        if self.at.end >= self.capture.len() {
            self.stage = Stage::Ended;
            return Some(Line::End {
                records: self.at.record_number,
            });
        }
        match self.at.read_next(self.capture) {
            Ok(next) => {
                self.acts = Acts::of(self.capture, next);
                self.at = next;
                None
            }
            Err(fault) => {
                self.stage = Stage::Stopped;
                Some(Line::Fault {
                    record: self.at.record_number + 1,
                    fault,
                })
            }
        }
    }

    // One step: an act, the next record or the end. It tells a line or none.
    fn step(
        &mut self,
        tally: &mut [Entry<R::Value>],
        paths: &mut [Option<R::Value>],
    ) -> Option<Line<R::Value>>
        requires goes { self.old.stage ≡ Ended → ⊥ }
        requires room { HasRoom self.old.workspace tally.old }
        requires states { 32 ≤ length paths.old }
        ensures goes_on { StepsOn R.Reading.alphabet
            (position self.old tally.old paths.old) result
            (position self.new tally.new paths.new) }
        ensures room { HasRoom self.new.workspace tally.new }
        ensures going { result ≡ None → self.new.stage ≡ Reading }
        ensures fewer { steps_to_go self.new < steps_to_go self.old }
    {
        match self.stage {
            Stage::TooLong => {
                self.stage = Stage::Ended;
                Some(Line::Fault {
                    record: 0,
                    fault: Fault::TooLong,
                })
            }
            Stage::NoLetter => {
                self.stage = Stage::Stopped;
                Some(Line::Fault {
                    record: 0,
                    fault: Fault::Letter,
                })
            }
            Stage::Reading => match self.acts.next() {
                Some(act) => self.carry_out(tally, paths, act),
                None => self.begin(),
            },
            Stage::Stopped => {
                self.stage = Stage::Ended;
                Some(Line::End {
                    records: self.at.record_number,
                })
            }
            Stage::Ended => None,
        }
    }

    // The next line, or none at the end.
    pub(crate) fn next_line(
        &mut self,
        tally: &mut [Entry<R::Value>],
        paths: &mut [Option<R::Value>],
    ) -> Option<Line<R::Value>>
        requires room { HasRoom self.old.workspace tally.old }
        requires states { 32 ≤ length paths.old }
        ensures gives { Gives R.Reading.alphabet (position self.old tally.old paths.old) result
            (position self.new tally.new paths.new) }
        ensures room { HasRoom self.new.workspace tally.new }
        ensures fewer { OnSome result (steps_to_go self.new < steps_to_go self.old) }
    {
        while self.stage != Stage::Ended {
            if let Some(line) = self.step(tally, paths) {
                return Some(line);
            }
        }
        None
    }
}

// The lines of a capture, told one by one.
#[derive(Drop)]
pub struct Lines<'a, W: Weighing> {
    pub(crate) progress: Progress<'a, W>,
    pub(crate) tally: &'a mut [Entry<W::Value>],
    pub(crate) paths: &'a mut [Option<W::Value>],
    ghost room: { ForSome progress.workspace.sheet
        (λ s. places (shape_of_sheet s) ≤ length tally.now) },
    ghost states: { 32 ≤ length paths.now },
}

// What a reading makes of a capture, by the letter that it begins with.
#[derive(Drop)]
pub enum ByLetter<'a, W: Weighing> {
    // its lines
    Lines(Lines<'a, W>),
    // nothing, since the letter is that of another reading: the buffers are handed back
    OfAnother(Buffers<'a, W::Value>),
}

impl<'a, R: Reading> Iterator for Lines<'a, R> {
    ghost use Rattle.std.specs.Iterator.{at_most};
    ghost use Rattle.listing.specs.Telling.{steps_to_go};
    ghost use Rattle.listing.specs.Whole.{LinesGive};

    type Item = Line<R::Value>;

    ghost next_gives = { LinesGive R.Reading.alphabet };

    ghost remaining = { λ lines. at_most (steps_to_go lines.progress) };

    fn next(&mut self) -> Option<Line<R::Value>> {
        self.progress.next_line(self.tally, self.paths)
    }
}
