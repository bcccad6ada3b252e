// The words that records begin with.
ghost use Rattle.std.specs.Prelude.{◌≡◌};
ghost use Rattle.texts.specs.Verbs.{word_of, verb_of};

// What a record asks, by its first field.
#[derive(Clone, Copy, PartialEq, Debug)]
pub enum Verb {
    Releases,
    Locks,
    Unlocks,
    Exits,
    Signals,
    SignalReleases,
    Tests,
}

impl Verb {
    // The word of the verb.
    pub(crate) fn word(self) -> &'static [u8]
        ensures { result.now ≡ word_of self }
    {
        match self {
            Verb::Releases => b"release",
            Verb::Locks => b"lock",
            Verb::Unlocks => b"unlock",
            Verb::Exits => b"exit",
            Verb::Signals => b"signal",
            Verb::SignalReleases => b"signalrelease",
            Verb::Tests => b"test",
        }
    }

    // The verb whose word the bytes are. The words stand here again: by a search over `word` a whole run took 2 % more
    // instructions, and with 64 tasks more than the plain program. The check proves that both spell the same. No `TryFrom`:
    // its error would tell no more than `None`.
    pub(crate) fn read(bytes: &[u8]) -> Option<Verb>
        ensures { result ≡ verb_of bytes.now }
    {
        match bytes {
            b"release" => Some(Verb::Releases),
            b"lock" => Some(Verb::Locks),
            b"unlock" => Some(Verb::Unlocks),
            b"exit" => Some(Verb::Exits),
            b"signal" => Some(Verb::Signals),
            b"signalrelease" => Some(Verb::SignalReleases),
            b"test" => Some(Verb::Tests),
            _ => None,
        }
    }
}
