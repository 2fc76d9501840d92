ghost use Rattle.std.specs.Prelude.{◌≡◌};
ghost use Rattle.streams.specs.Members.{Inserted, Marked, members};
ghost use Rattle.streams.specs.Streams.{Above, nobody, without};

use crate::StreamSet;

impl StreamSet {
    /// Nobody.
    pub fn empty() -> StreamSet
        ensures { members result ≡ nobody }
    {
        StreamSet { flags: [false; 9] }
    }

    /// Whether the stream is in it.
    pub fn contains(&self, stream: usize) -> bool
        ensures { result ≡ members self.now stream }
    {
        self.flags.get(stream).copied().unwrap_or(false)
    }

    /// Adds the stream; changes nothing where no stream has this number.
    pub fn insert(&mut self, stream: usize)
        ensures { Inserted self.old stream self.new }
    {
        self.set(stream, true);
    }

    /// Removes the stream.
    pub fn remove(&mut self, stream: usize)
        ensures { members self.new ≡ without (members self.old) stream }
    {
        self.set(stream, false);
    }

    /// The lowest stream in it above `floor`.
    pub fn above(&self, floor: usize) -> Option<usize>
        ensures { Above (members self.now) floor result }
    {
        // Up to 9 and not `..=8`, as the library's lemma on `find` has its range.
        (1..9).find(|&stream| stream > floor && self.contains(stream))
    }

    // Sets whether the stream is in it; changes nothing where no stream has this number.
    fn set(&mut self, stream: usize, member: bool)
        ensures { Marked self.old stream member self.new }
    {
        if (1..=8).contains(&stream) {
            self.flags[stream] = member;
        }
    }
}
