ghost use Rattle.std.specs.Prelude.{◌≡◌, ◌≤◌};
ghost use Rattle.bank.specs.Counts.{among, Counted, CountTried, even_turns};

use crate::StreamCount;
use refusal::Refusal;

impl StreamCount {
    /// So many streams; nothing above 8.
    pub fn new(count: usize) -> Option<StreamCount>
        ensures { Counted count result }
    {
        StreamCount::try_from(count).ok()
    }

    /// No stream.
    pub fn zero() -> StreamCount
        ensures { result.count ≡ 0 }
    {
        StreamCount { count: 0 }
    }

    /// The number itself.
    pub fn get(self) -> usize
        ensures value { result ≡ self.count }
        ensures range { result ≤ 8 }
    {
        usize::from(self.count)
    }

    /// Whether it has a stream of this number: 1 is the first, the count the last.
    pub fn includes(self, stream: usize) -> bool
        ensures { result ≡ among self.count stream }
    {
        (1..=self.get()).contains(&stream)
    }

    /// The turns of the stream where each stream has as many as there are streams; 0 where there is
    /// no such stream.
    pub fn turns_each(self, stream: usize) -> usize
        ensures { result ≡ even_turns self.count stream }
    {
        if self.includes(stream) { self.get() } else { 0 }
    }
}

/// So many streams, refused above 8.
impl TryFrom<usize> for StreamCount {
    type Error = Refusal;

    ghost try_from_gives = { CountTried };

    fn try_from(count: usize) -> Result<StreamCount, Refusal> {
        match u8::try_from(count) {
            Ok(count) if count <= 8 => Ok(StreamCount { count }),
            _ => Err(Refusal::SizeTooLarge),
        }
    }
}
