// The keywords. A keyword is a name with that spelling at its place, and may name an object elsewhere.
ghost use Rattle.std.specs.Prelude.{◌≡◌};
ghost use Rattle.grammar.specs.Slots.{spelt};

#[derive(Clone, Copy, PartialEq, Debug)]
pub enum Word {
    OilVersion,
    Cpu,
    Resource,
    Event,
    Task,
    ResourceProperty,
    Standard,
    Mask,
    Auto,
    Priority,
    Schedule,
    Full,
    Activation,
    Autostart,
    False,
}

impl Word {
    // How a keyword is spelled.
    pub(crate) fn spelling(self) -> &'static [u8]
        ensures { result.now ≡ spelt self }
    {
        match self {
            Word::OilVersion => b"OIL_VERSION",
            Word::Cpu => b"CPU",
            Word::Resource => b"RESOURCE",
            Word::Event => b"EVENT",
            Word::Task => b"TASK",
            Word::ResourceProperty => b"RESOURCEPROPERTY",
            Word::Standard => b"STANDARD",
            Word::Mask => b"MASK",
            Word::Auto => b"AUTO",
            Word::Priority => b"PRIORITY",
            Word::Schedule => b"SCHEDULE",
            Word::Full => b"FULL",
            Word::Activation => b"ACTIVATION",
            Word::Autostart => b"AUTOSTART",
            Word::False => b"FALSE",
        }
    }
}
