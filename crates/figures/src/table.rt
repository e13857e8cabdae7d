// The table of the worked figures.
ghost use Rattle.std.specs.Prelude.{◌≡◌};
ghost use Rattle.figures.specs.Figures.{AllHold, outputs_of, worked};

use crate::Figure;
use block::bit_of;
use code::Outputs;

// Four outputs from one number, output 1 highest.
fn outputs(v: u8) -> Outputs
    ensures { result ≡ outputs_of v }
{
    let bit = |i| bit_of(u32::from(v), i);
    Outputs {
        v1: bit(3),
        v2: bit(2),
        v3: bit(1),
        v4: bit(0),
    }
}

// The worked figures. The rules give each of them.
pub fn worked_figures() -> [Figure; 13]
    ensures table { result ≡ worked }
    ensures figures { AllHold worked }
{
    [
        Figure::Closing {
            bit: true,
            outputs: [
                outputs(0b1111),
                outputs(0b1001),
                outputs(0b1010),
                outputs(0b0111),
                outputs(0b1111),
            ],
        },
        Figure::Check {
            report: 0x80,
            check: 4,
            field: 0b1101,
        },
        Figure::Check {
            report: 0x01,
            check: 4,
            field: 0b1101,
        },
        Figure::Check {
            report: 0x81,
            check: 4,
            field: 0b0000,
        },
        Figure::Check {
            report: 0x80,
            check: 12,
            field: 0b1000_0000_1111,
        },
        Figure::Buffer {
            report: 0x80,
            check: 4,
            buffer: [0x80, 0x0b, 0x20, 0x60, 0x20, 0x62, 0x22, 0x60],
        },
        Figure::Passages {
            report: 0x80,
            check: 4,
            counts: [4, 3, 3],
            last: [0x60, 0x80, 0x0b],
        },
        Figure::Payload {
            octets: 1,
            check: 4,
            k: 5,
            payload: 4,
        },
        Figure::Payload {
            octets: 1,
            check: 4,
            k: 16,
            payload: 6,
        },
        Figure::Payload {
            octets: 47,
            check: 20,
            k: 2,
            payload: 63,
        },
        Figure::Payload {
            octets: 512,
            check: 28,
            k: 24,
            payload: 2064,
        },
        Figure::Back {
            payload: 5,
            check: 4,
            k: 2,
            octets: 3,
        },
        Figure::BackRefused {
            payload: 6,
            check: 4,
            k: 2,
            refusal: 5,
        },
    ]
}
