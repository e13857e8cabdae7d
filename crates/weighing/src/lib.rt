// Weighings say how weights add and compare. Readings weigh received symbols against bits.
#![tactic(auto)]

ghost use Rattle.std.specs.Prelude.{◌≡◌, Decides};
ghost use Rattle.weighing.specs.Alphabets.{Alphabet};
ghost use Rattle.weighing.specs.Scales.{Scale};

pub mod hard;
pub mod level;
pub mod soft;
pub mod worst;

// How weights add and compare. All calls answer by what the weights mean.
pub trait Weighing {
    type Value: Copy + Drop;

    // What each weight means, with the laws that the meanings keep.
    ghost scale: { Scale Self.Value };

    fn zero() -> Self::Value
        ensures { scale.mean result ≡ scale.zero };

    // The sum in the order handed, since no law lets the two change places.
    fn sum(a: Self::Value, b: Self::Value) -> Self::Value
        ensures { scale.mean result ≡ scale.plus (scale.mean a) (scale.mean b) };

    // A call of the weighing's and no `Ord` of the values: weights that mean the same count as
    // equal.
    fn at_most(a: Self::Value, b: Self::Value) -> bool
        ensures { Decides result (scale.atmost (scale.mean a) (scale.mean b)) };
}

// A weighing with an alphabet: the symbols that octets read as, and what each weighs against a bit.
pub trait Reading: Weighing {
    type Symbol: Copy + Drop;

    // What octets read as, and what a symbol weighs against a bit.
    ghost alphabet: { Alphabet Self.Symbol Self.Value };

    fn read(octet: u8) -> Option<Self::Symbol>
        ensures { result ≡ alphabet.reads octet };

    fn cost(symbol: Self::Symbol, bit: bool) -> Self::Value
        ensures { let mean = Self.Weighing.scale.mean in
            mean result ≡ mean (alphabet.against symbol bit) };
}
