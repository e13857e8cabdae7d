// The calls answer each figure of the table.
use block::{back, check_field, plan};
use code::{Order, Outputs, Register, encode_report};
use figures::{Figure, worked_figures};
use sender::{Passage, PassageRefusal, Sender};

fn closing(bit: bool) -> [Outputs; 5] {
    let mut register = Register::open();
    let first = register.push(bit);
    let [second, third, fourth, fifth] = register.close();
    [first, second, third, fourth, fifth]
}

fn buffer(report: u8, check: usize) -> [u8; 8] {
    let mut buffer = [0; 8];
    encode_report(&[report], check, &Order::order_r(), &mut buffer).unwrap_or_default();
    buffer
}

// Sends the next octets in a passage that is confirmed.
fn send(sender: &mut Sender, buffer: &[u8], target: &mut [u8]) -> Result<(), PassageRefusal> {
    let mut passage = Passage::begin(sender.size(), &mut sender.cursor);
    let copied = passage.copy(buffer, target, target.len());
    passage.confirm();
    copied
}

// What the last of three passages copies.
fn last_copied(buffer: &[u8], check: usize, counts: [usize; 3]) -> Option<[u8; 3]> {
    let mut sender = Sender::new(1, check).ok()?;
    let mut target = [0; 8];
    for count in counts {
        send(&mut sender, buffer, target.get_mut(..count)?).ok()?;
    }
    target.first_chunk().copied()
}

fn answers(figure: Figure) -> bool {
    match figure {
        Figure::Closing { bit, outputs } => closing(bit) == outputs,
        Figure::Check {
            report,
            check,
            field,
        } => check_field(&[report], check) == Ok(field),
        Figure::Buffer {
            report,
            check,
            buffer: octets,
        } => buffer(report, check) == octets,
        Figure::Passages {
            report,
            check,
            counts,
            last,
        } => last_copied(&buffer(report, check), check, counts) == Some(last),
        Figure::Payload {
            octets,
            check,
            k,
            payload,
        } => plan(octets, check, k) == Ok(payload),
        Figure::Back {
            payload,
            check,
            k,
            octets,
        } => back(payload, check, k) == Ok(octets),
        Figure::BackRefused {
            payload,
            check,
            k,
            refusal,
        } => back(payload, check, k).is_err_and(|e| e.number() == refusal),
    }
}

#[test]
fn the_calls_answer_each_figure(rt: HostRuntime) {
    for figure in worked_figures() {
        assert!(rt; answers(figure));
    }
}
