// The reader for C and Rust, as a static library: plain numbers and lent octets, and each refusal
// by its number.
#![tactic(auto)]

mod coding;
mod hearing;
mod lengths;
mod refusals;

// A length that was asked for, where `refusal` is 0; else `refusal` is the number of the refusal
// and the length is 0.
#[repr(C)]
pub struct TallyLength {
    pub octets: usize,
    pub refusal: u8,
}

// What was heard, where `refusal` is 0: the weight of the message named, and whether its check
// fits. Else `refusal` is the number of the refusal; with 9, `index` is that of the first octet
// that is no symbol. All that is not told is 0.
#[repr(C)]
pub struct TallyHeard {
    pub index: usize,
    pub weight: u32,
    pub refusal: u8,
    pub check_fits: bool,
}
