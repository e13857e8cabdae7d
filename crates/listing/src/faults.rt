// Faults: the layer, the place and the number of each.
use crate::MOST_CAPTURE_OCTETS;
use crate::layouts::Layout;
use block::SizeRefusal;
use sheet::{OpenRefusal, TakeRefusal};
use std::fmt;

// The part of the reader that a fault comes from: the listing itself, the sheet, or the reading.
#[derive(Clone, Copy, Debug, PartialEq)]
pub enum Layer {
    Listing,
    Sheet,
    Reading,
}

impl fmt::Display for Layer {
    ghost use Rattle.std.specs.Prelude.{Some};
    ghost use Rattle.listing.specs.Lines.{layer_letter};

    ghost output = { λ layer. Some (layer_letter layer) };

    fn fmt<W: fmt::Write>(&self, f: &mut fmt::Formatter<W>) -> fmt::Result {
        f.write_str(match self {
            Layer::Listing => "L",
            Layer::Sheet => "S",
            Layer::Reading => "K",
        })
    }
}

// What keeps a record, or the whole capture, from being carried out; each with the place that it is
// about.
#[derive(Clone, Copy, Debug, PartialEq)]
pub enum Fault {
    // the capture has more octets than are read
    TooLong,
    // its first octet names no reading
    Letter,
    // the map has a bit that stands for nothing, or a start and no symbols
    Unknown { place: usize },
    // the record would end behind the capture's end
    CutShort { place: usize },
    // an act before any sheet
    NoSheet { place: usize },
    // a refused opening
    Open { place: usize, refusal: OpenRefusal },
    // a refused take
    Take { place: usize, refusal: TakeRefusal },
}

impl Fault {
    ghost use Rattle.std.specs.Prelude.{◌≡◌, ℕ, ◌≤◌, List, None, Option};
    ghost use Rattle.block.specs.Sizes.{most_places};
    ghost use Rattle.sheet.specs.Calls.{open_case, take_case};
    ghost use Rattle.sheet.specs.declared.refusals.TakeRefusal.TheVariants.{Symbol};
    ghost use Rattle.listing.specs.Captures.{a_take, an_open, most_field_place};
    ghost use Rattle.listing.specs.Faults.{ActFault, fault_says};

    // The part of the reader that it comes from.
    pub fn layer(self) -> Layer
        ensures { result ≡ (fault_says self).layer }
    {
        match self {
            Fault::Open { .. } => Layer::Sheet,
            Fault::Take { refusal, .. } => match refusal {
                TakeRefusal::Symbol(_) => Layer::Reading,
                _ => Layer::Sheet,
            },
            _ => Layer::Listing,
        }
    }

    // The place of the capture that it is about, counted from 0.
    pub fn place(self) -> usize
        ensures { result ≡ (fault_says self).place }
    {
        match self {
            Fault::TooLong => MOST_CAPTURE_OCTETS,
            Fault::Letter => 0,
            Fault::Unknown { place }
            | Fault::CutShort { place }
            | Fault::NoSheet { place }
            | Fault::Open { place, .. }
            | Fault::Take { place, .. } => place,
        }
    }

    // The number of the refusal.
    pub fn number(self) -> u8
        ensures { result ≡ (fault_says self).number }
    {
        match self {
            Fault::TooLong | Fault::CutShort { .. } => 11,
            Fault::Letter | Fault::Unknown { .. } => 12,
            Fault::NoSheet { .. } => 13,
            Fault::Open { refusal, .. } => refusal.number(),
            Fault::Take { refusal, .. } => refusal.number(),
        }
    }

    // A refused opening, at the field that was refused.
    pub(crate) fn of_open(at: Layout, refusal: OpenRefusal) -> Fault
        ensures { (octets check : ℕ)
            → ActFault at (an_open octets check) None (open_case refusal).number result }
    {
        let place = match refusal {
            OpenRefusal::Size(SizeRefusal::CheckLength) => at.check,
            _ => at.octets,
        };
        Fault::Open { place, refusal }
    }

    // A refused take, at the field that was refused.
    pub(crate) fn of_take(at: Layout, refusal: TakeRefusal) -> Fault
        requires symbols { at.symbols ≤ most_field_place }
        requires index { (index : ℕ) → refusal ≡ Symbol index → index ≤ most_places }
        ensures { (first start : Option ℕ) (symbols : List ℕ) → (take_case first refusal).carries
            → ActFault at (a_take start symbols) first (take_case first refusal).number result }
    {
        let place = match refusal {
            TakeRefusal::Tally => at.octets,
            TakeRefusal::Start => at.start,
            TakeRefusal::Count | TakeRefusal::Full => at.count,
            TakeRefusal::Symbol(index) => at.symbols + index,
        };
        Fault::Take { place, refusal }
    }
}
