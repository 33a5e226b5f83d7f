//! Numbers in octets.
ghost use Rattle.std.specs.Prelude.{◌≡◌, ◌+◌, ◌≤◌, ◌++◌, length, take, drop};
ghost use Rattle.std.specs.Int.{w32, w64};

/// Which octet of a number stands first: in MD5 the lowest (RFC 1321, 2), in SHA the highest
/// (FIPS 180-4, 3.1).
#[derive(Clone, Copy)]
pub(crate) enum ByteOrder {
    LowFirst,
    HighFirst,
}

impl ByteOrder {
    ghost use Rattle.bag_lanes.specs.Standard.{octets_of, number_of};

    /// The octets of a word.
    pub(crate) fn octets_of_word(self, word: u32) -> [u8; 4]
        ensures { result ≡ octets_of self w32 word }
    {
        match self {
            ByteOrder::LowFirst => word.to_le_bytes(),
            ByteOrder::HighFirst => word.to_be_bytes(),
        }
    }

    /// The word that these octets are.
    #[inline(always)]
    pub(crate) fn word_of(self, octets: [u8; 4]) -> u32
        ensures { result ≡ number_of self w32 octets }
    {
        match self {
            ByteOrder::LowFirst => u32::from_le_bytes(octets),
            ByteOrder::HighFirst => u32::from_be_bytes(octets),
        }
    }

    /// The octets of a length.
    pub(crate) fn octets_of_length(self, length: u64) -> [u8; 8]
        ensures { result ≡ octets_of self w64 length }
    {
        match self {
            ByteOrder::LowFirst => length.to_le_bytes(),
            ByteOrder::HighFirst => length.to_be_bytes(),
        }
    }
}

/// Writes `part` over the octets from `at` on.
pub(crate) fn put(octets: &mut [u8], at: usize, part: &[u8])
    requires { at + length part.now ≤ length octets.old }
    ensures { octets.new
        ≡ take at octets.old ++ part.now ++ drop (at + length part.now) octets.old }
{
    octets[at..at + part.len()].copy_from_slice(part);
}
