// What is listed of an input, and how it is shown.
use listing::{Fault, Line, list_input};
use sheet::TakeRefusal;
use std::io::{self, ErrorKind, Read};
use std::test::Fail;

// Its first read fails, if it is to fail, and each other one gives one octet.
#[derive(Drop)]
struct FailsOnce<'a> {
    octets: &'a [u8],
    failure: Option<ErrorKind>,
}

impl Read for FailsOnce<'_> {
    fn read(&mut self, buffer: &mut [u8]) -> io::Result<usize> {
        if let Some(kind) = self.failure.take() {
            return Err(io::Error::from(kind));
        }
        match (self.octets.split_first(), buffer.first_mut()) {
            (Some((octet, rest)), Some(place)) => {
                *place = *octet;
                self.octets = rest;
                Ok(1)
            }
            _ => Ok(0),
        }
    }
}

fn fails(kind: ErrorKind) -> FailsOnce<'static> {
    FailsOnce {
        octets: &[b'H', 0, 8],
        failure: Some(kind),
    }
}

// A read that is interrupted is tried again, and the octets that come one by one are one
// capture. Any other error is answered, and nothing is written.
#[test]
fn reads_on(rt: HostRuntime) -> Result<(), Fail> {
    let mut output = Vec::new(rt.alloc());
    let broken = list_input(&mut fails(ErrorKind::BrokenPipe), &mut output);
    assert!(rt; broken.is_err_and(|error| error.kind() == ErrorKind::BrokenPipe));
    assert!(rt; output.is_empty());
    list_input(&mut fails(ErrorKind::Interrupted), &mut output)?;
    assert_eq!(rt; output.as_slice(), &b"F 2 2 L 13\nE 2\n"[..]);
    Ok(())
}

// A line shows the two refusals of a take that no capture can meet, since it has too few
// octets to fill a sheet, and since a sheet in force has room.
#[test]
fn shows(rt: HostRuntime) -> Result<(), Fail> {
    let faults = [
        (TakeRefusal::Full, "F 3 9 S 10"),
        (TakeRefusal::Tally, "F 3 9 S 6"),
    ];
    for (refusal, text) in faults {
        let line: Line<u32> = Line::Fault {
            record: 3,
            fault: Fault::Take { place: 9, refusal },
        };
        assert_eq!(rt; format!(in rt.alloc(); "{line}")?.as_str(), text);
    }
    Ok(())
}
