// Reading the octets of a capture.
ghost use Rattle.std.specs.Prelude.{◌≡◌, ◌≤◌};
ghost use Rattle.listing.specs.Captures.{most_field_place, number_at, octet_at};

use block::bit_of;

// The octet at a place of a capture, and 0 behind the end.
pub(crate) fn octet(capture: &[u8], place: usize) -> u8
    ensures { result ≡ octet_at capture.now place }
{
    capture.get(place).copied().unwrap_or(0)
}

// The number of two octets that begins at a place, the low octet first.
pub(crate) fn number(capture: &[u8], place: usize) -> usize
    requires { place ≤ most_field_place }
    ensures { result ≡ number_at capture.now place }
{
    usize::from(octet(capture, place)) + 256 * usize::from(octet(capture, place + 1))
}

// The bits of a map.
#[derive(Clone, Copy)]
pub(crate) struct Map(u8);

impl Map {
    ghost use Rattle.listing.specs.Captures.{has_decode, has_size, has_start, has_symbols};
    ghost use Rattle.listing.specs.Captures.{has_wipe, is_unknown};

    // The map at a place of a capture.
    pub(crate) fn at(capture: &[u8], place: usize) -> Map
        ensures { result.0 ≡ octet_at capture.now place }
    {
        Map(octet(capture, place))
    }

    pub(crate) fn has_size(self) -> bool
        ensures { result ≡ has_size self.0 }
    {
        bit_of(u32::from(self.0), 0)
    }

    pub(crate) fn has_start(self) -> bool
        ensures { result ≡ has_start self.0 }
    {
        bit_of(u32::from(self.0), 1)
    }

    pub(crate) fn has_symbols(self) -> bool
        ensures { result ≡ has_symbols self.0 }
    {
        bit_of(u32::from(self.0), 2)
    }

    pub(crate) fn has_decode(self) -> bool
        ensures { result ≡ has_decode self.0 }
    {
        bit_of(u32::from(self.0), 3)
    }

    pub(crate) fn has_wipe(self) -> bool
        ensures { result ≡ has_wipe self.0 }
    {
        bit_of(u32::from(self.0), 4)
    }

    // A map with a bit that stands for nothing, or with a start and no symbols.
    pub(crate) fn is_unknown(self) -> bool
        ensures { result ≡ is_unknown self.0 }
    {
        self.0 >= 32 || self.has_start() && !self.has_symbols()
    }
}
