// The nearest message by a list of candidates: each step makes more of them, and of those with
// equal cells the lightest is kept.
use crate::second::book::Sums;
use crate::second::layout::Source;
use crate::second::readings::Kind;
use crate::second::register::Cells;
use std::alloc::Global;

// What a step's four outputs weigh.
pub(crate) type StepSums = [Sums; 4];

fn put(step: &mut StepSums, output: usize, sums: Sums) {
    if let Some(place) = step.get_mut(output) {
        *place = sums;
    }
}

// The sums of all places, put to the steps that they belong to.
pub(crate) fn by_steps(heap: Global, sums: &[Sums], sources: &[Source]) -> Vec<StepSums> {
    let none = [Sums { zero: 0, one: 0 }; 4];
    let steps = vec![in heap; none; sources.len() / 4];
    let mut steps = steps.unwrap_or(Vec::new(heap));
    for (source, place) in sources.iter().zip(sums) {
        if let Some(step) = steps.get_mut(source.step) {
            put(step, source.output, *place);
        }
    }
    steps
}

// A weight, and the weights of a step's outputs behind it.
pub(crate) fn weigh(kind: Kind, before: u64, step: &StepSums, outputs: [bool; 4]) -> u64 {
    let mut weight = before;
    for (sums, bit) in step.iter().zip(outputs) {
        weight = kind.join(weight, sums.against(bit));
    }
    weight
}

// What a coded message weighs.
pub(crate) fn weight_of(kind: Kind, steps: &[StepSums], outputs: &[[bool; 4]]) -> u64 {
    let mut weight = 0;
    for (step, bits) in steps.iter().zip(outputs) {
        weight = weigh(kind, weight, step, *bits);
    }
    weight
}

// The last bit of some messages that begin alike; the bits before it are those of another node.
#[derive(Clone, Copy)]
struct Node {
    before: Option<usize>,
    bit: bool,
}

#[derive(Clone, Copy)]
struct Candidate {
    cells: Cells,
    weight: u64,
    node: Option<usize>,
}

// The candidates so far.
#[derive(Drop)]
struct Search {
    heap: Global,
    kind: Kind,
    candidates: Vec<Candidate>,
    nodes: Vec<Node>,
}

// Puts a candidate on the list, unless one with equal cells stands there that weighs no more.
fn offer(list: &mut Vec<Candidate>, new: Candidate) {
    for held in list.iter_mut() {
        if held.cells == new.cells {
            if new.weight < held.weight {
                *held = new;
            }
            return;
        }
    }
    let _pushed = list.push(new);
}

impl Search {
    fn begin(heap: Global, kind: Kind) -> Search {
        let first = Candidate {
            cells: Cells::cleared(),
            weight: 0,
            node: None,
        };
        Search {
            heap,
            kind,
            candidates: vec![in heap; first].unwrap_or(Vec::new(heap)),
            nodes: Vec::new(heap),
        }
    }

    // A candidate with one more bit.
    fn extend(&mut self, from: Candidate, step: &StepSums, bit: bool) -> Candidate {
        let node = self.nodes.len();
        let _pushed = self.nodes.push(Node {
            before: from.node,
            bit,
        });
        Candidate {
            cells: from.cells.after(bit),
            weight: weigh(self.kind, from.weight, step, from.cells.outputs(bit)),
            node: Some(node),
        }
    }

    // Lists what a candidate becomes: a message's bit may be either, and a bit of the tail is the
    // feedback.
    fn follow(
        &mut self,
        list: &mut Vec<Candidate>,
        from: Candidate,
        step: &StepSums,
        is_tail: bool,
    ) {
        let tail = from.cells.feedback();
        offer(list, self.extend(from, step, tail));
        if !is_tail {
            offer(list, self.extend(from, step, !tail));
        }
    }

    fn step(&mut self, step: &StepSums, is_tail: bool) {
        let before = std::mem::replace(&mut self.candidates, Vec::new(self.heap));
        let mut list = Vec::new(self.heap);
        for from in before.iter() {
            self.follow(&mut list, *from, step, is_tail);
        }
        self.candidates = list;
    }

    // Makes all steps; the last four are the tail's.
    fn go(&mut self, steps: &[StepSums]) {
        let message = steps.len().saturating_sub(4);
        for (t, step) in steps.iter().enumerate() {
            self.step(step, t >= message);
        }
    }

    // At the end all cells are clear, and one candidate is left.
    fn end(&self) -> Option<Nearest> {
        match self.candidates.as_slice() {
            [only] => Some(Nearest {
                weight: only.weight,
                bits: self.bits(*only),
            }),
            _ => None,
        }
    }

    fn node(&self, at: Option<usize>) -> Option<Node> {
        match at {
            Some(node) => self.nodes.get(node).copied(),
            None => None,
        }
    }

    // The bits of a candidate, from the first on.
    fn bits(&self, candidate: Candidate) -> Vec<bool> {
        let mut bits = Vec::new(self.heap);
        let mut at = candidate.node;
        for _ in 0..self.nodes.len() {
            let Some(node) = self.node(at) else {
                break;
            };
            let _pushed = bits.push(node.bit);
            at = node.before;
        }
        bits.reverse();
        bits
    }
}

// A message that weighs least, and its weight.
#[derive(Drop)]
pub(crate) struct Nearest {
    pub(crate) weight: u64,
    pub(crate) bits: Vec<bool>,
}

// A nearest message, with its tail.
pub(crate) fn find_nearest(heap: Global, kind: Kind, steps: &[StepSums]) -> Option<Nearest> {
    let mut search = Search::begin(heap, kind);
    search.go(steps);
    search.end()
}
