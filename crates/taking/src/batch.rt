// The messages that a packet brings: numbered from the first on, and their blocks fill the datagram from a place to its end.
ghost use Rattle.std.specs.Prelude.{◌≡◌, ◌+◌, ◌≤◌, ◌<◌, true};
ghost use Rattle.wire.specs.Fields.{Bytes};
ghost use Rattle.blocks.specs.Blocks.{fills};

#[derive(Clone, Copy)]
pub(crate) struct Batch<'a> {
    pub first: u64,
    pub count: u16,
    pub datagram: &'a [u8],
    pub place: usize,
    pub ghost bytes: { Bytes datagram.now },
    pub ghost filled: { fills datagram.now place count ≡ true },
    pub ghost some: { 1 ≤ first },
    pub ghost bound: { first + count < 18446744073709551616 },
}

impl Batch<'_> {
    // The number after the last.
    pub fn past(self) -> u64
        ensures { result ≡ self.entry.first + self.entry.count }
    {
        self.first + self.count as u64
    }
}
