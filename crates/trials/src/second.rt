// A second coder and decoder, written another way than the crates that are tried, and what the
// trials draw, count and print. Nothing here rests on a crate of the repository. Where memory runs
// out a list stays short, and what is compared with it differs.
pub(crate) mod all;
pub(crate) mod book;
pub(crate) mod coder;
pub(crate) mod division;
pub(crate) mod family;
pub(crate) mod heard;
pub(crate) mod layout;
pub(crate) mod nearest;
pub(crate) mod pattern;
pub(crate) mod random;
pub(crate) mod readings;
pub(crate) mod refusals;
pub(crate) mod register;
pub(crate) mod sizes;
