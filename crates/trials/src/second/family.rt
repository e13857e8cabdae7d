// A family of cases: how many were tried, and which of them differ from what they should be.
use std::{fmt, io};

// So many cases that differ are printed, and the others only counted.
const MOST_PRINTED: usize = 20;

// What a fact is about, and whether it is as it should be.
pub(crate) type Fact = (&'static str, bool);

// What the first of these facts that is not as it should be is about, if any.
pub(crate) fn differing(facts: &[Fact]) -> Option<&'static str> {
    for (what, holds) in facts {
        if !*holds {
            return Some(what);
        }
    }
    None
}

// What a case is made of: words, and the numbers that tell it from others.
#[derive(Clone, Copy)]
pub(crate) struct Case {
    pub(crate) words: [&'static str; 4],
    pub(crate) numbers: [usize; 4],
}

impl Case {
    // A case of a call.
    pub(crate) fn of(call: &'static str, numbers: [usize; 4]) -> Case {
        Case {
            words: [call, "", "", ""],
            numbers,
        }
    }
}

impl fmt::Display for Case {
    fn fmt<W: fmt::Write>(&self, f: &mut fmt::Formatter<W>) -> fmt::Result {
        for word in &self.words {
            if !word.is_empty() {
                write!(f, "{word} ")?;
            }
        }
        let [a, b, c, d] = self.numbers;
        write!(f, "{a} {b} {c} {d}")
    }
}

// A case that differs, and in what.
#[derive(Clone, Copy)]
struct Printed {
    case: Case,
    what: &'static str,
}

#[derive(Drop)]
pub(crate) struct Family {
    name: &'static str,
    cases: usize,
    differ: usize,
    // the first that differ
    first: [Option<Printed>; MOST_PRINTED],
}

// How many cases there were, and how many differ.
#[derive(Clone, Copy)]
pub(crate) struct Outcome {
    pub(crate) cases: usize,
    pub(crate) differ: usize,
}

impl Outcome {
    pub(crate) fn with(self, other: Outcome) -> Outcome {
        Outcome {
            cases: self.cases.saturating_add(other.cases),
            differ: self.differ.saturating_add(other.differ),
        }
    }
}

impl fmt::Display for Outcome {
    fn fmt<W: fmt::Write>(&self, f: &mut fmt::Formatter<W>) -> fmt::Result {
        let cases = self.cases;
        let differ = self.differ;
        if differ == 0 {
            write!(f, "{cases} cases, all as they should be")
        } else {
            write!(f, "{cases} cases, {differ} of them differ")
        }
    }
}

impl Family {
    pub(crate) fn begin(name: &'static str) -> Family {
        Family {
            name,
            cases: 0,
            differ: 0,
            first: [None; MOST_PRINTED],
        }
    }

    // A case that differs in this, if in anything.
    pub(crate) fn case(&mut self, case: Case, differs: Option<&'static str>) {
        self.cases = self.cases.saturating_add(1);
        if let Some(what) = differs {
            let place = self.differ;
            if let Some(place) = self.first.get_mut(place) {
                *place = Some(Printed { case, what });
            }
            self.differ = self.differ.saturating_add(1);
        }
    }

    // Cases of one fact each.
    pub(crate) fn facts(&mut self, facts: &[Fact]) {
        for (place, (what, holds)) in facts.iter().enumerate() {
            let differs = if *holds { None } else { Some(*what) };
            self.case(Case::of("fact", [place, 0, 0, 0]), differs);
        }
    }

    // Prints the first cases that differ.
    fn print(&self, rt: &HostRuntime) -> io::Result<()> {
        let name = self.name;
        for differing in self.first {
            if let Some(Printed { case, what }) = differing {
                println!(rt; "{name}: {case} differs in {what}")?;
            }
        }
        Ok(())
    }

    // Prints how the family went.
    pub(crate) fn end(&self, rt: &HostRuntime) -> io::Result<Outcome> {
        self.print(rt)?;
        let name = self.name;
        let outcome = Outcome {
            cases: self.cases,
            differ: self.differ,
        };
        println!(rt; "{name}: {outcome}")?;
        Ok(outcome)
    }
}
