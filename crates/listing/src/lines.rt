// The lines of a listing.
use crate::{Fault, Report};
use sheet::Verdict;
use std::fmt;

// A line of the listing.
#[derive(Clone, Copy, Drop)]
pub enum Line<V> {
    // what a decode named
    Decode {
        record: usize,
        weight: V,
        verdict: Verdict,
        report: Report,
    },
    Fault {
        record: usize,
        fault: Fault,
    },
    // the end, with the number of records that were read whole
    End {
        records: usize,
    },
}

impl<V: fmt::Display + Copy + Drop> fmt::Display for Line<V> {
    ghost use Rattle.listing.specs.Lines.{content, text};

    ghost output = { λ line. text V.Display.output (content line) };

    fn fmt<W: fmt::Write>(&self, f: &mut fmt::Formatter<W>) -> fmt::Result {
        match self {
            Line::Decode {
                record,
                weight,
                verdict,
                report,
            } => {
                let verdict = match verdict {
                    Verdict::Fits => "Y",
                    Verdict::DoesNotFit => "N",
                };
                write!(f, "D {record} {weight} {verdict} {report}")
            }
            Line::Fault { record, fault } => {
                let place = fault.place();
                let layer = fault.layer();
                let number = fault.number();
                write!(f, "F {record} {place} {layer} {number}")
            }
            Line::End { records } => write!(f, "E {records}"),
        }
    }
}
