//! Counts the lines of octets that come in pieces (RFC 8493 section 2.3).
ghost use Rattle.std.specs.Prelude.{◌≡◌};
ghost use Rattle.bag_path.specs.LineCounts.{begins_line, lines_with};

/// The number of lines of octets that come in pieces, which may be cut anywhere.
#[derive(Clone, Copy, Debug)]
pub struct LineCount {
    lines: u64,
    last: u8,
}

impl LineCount {
    ghost use Rattle.std.specs.Prelude.{◌≡◌, ◌-◌, ◌^◌, ◌++◌, ℕ, List, [], length, min};
    ghost use Rattle.bag_path.specs.Lines.{lines_of};
    ghost use Rattle.bag_path.specs.LineCounts.{HasCounted};

    /// No piece yet. If there are no octets, there are no lines.
    pub fn new() -> LineCount
        ensures { HasCounted result [] }
    {
        LineCount {
            lines: 0,
            last: b'\n',
        }
    }

    /// Takes the next piece, which follows the earlier ones.
    pub fn update(&mut self, piece: &[u8])
        ensures { (octets : List ℕ) → HasCounted self.old octets
            → HasCounted self.new (octets ++ piece.now) }
    {
        let mut lines = self.lines;
        let mut last = self.last;
        for octet in piece {
            lines = lines_with(lines, last, *octet);
            last = *octet;
        }
        self.lines = lines;
        self.last = last;
    }

    /// The number of lines of the joined pieces, or the greatest `u64` if there are more.
    pub fn finish(self) -> u64
        ensures { (octets : List ℕ) → HasCounted self octets
            → result ≡ min (length (lines_of octets)) (2 ^ 64 - 1) }
    {
        self.lines
    }
}

/// The number of lines after one more octet, given the one before it.
fn lines_with(lines: u64, last: u8, octet: u8) -> u64
    ensures { result ≡ lines_with lines last octet }
{
    if begins_line(last, octet) {
        lines.saturating_add(1)
    } else {
        lines
    }
}

/// Whether an octet begins a line, given the one before it.
fn begins_line(last: u8, octet: u8) -> bool
    ensures { result ≡ begins_line last octet }
{
    last == b'\n' || last == b'\r' && octet != b'\n'
}
