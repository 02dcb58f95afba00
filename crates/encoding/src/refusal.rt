// Why a call is refused (01, section 1): docs/FORMATS.md, 'Refusals'.
ghost use Rattle.std.specs.Prelude.{◌≡◌};
ghost use Rattle.encoding.specs.Refusal.{refusal_number};

#[derive(Clone, Copy, Debug, PartialEq, Eq)]
pub enum Refusal {
    // An image of more words than memory has.
    LongImage = 1,
    // Owner bytes that are not one for each word of memory.
    OwnerCount = 2,
    // More breakpoints than a guarded run has.
    BreakpointCount = 3,
    // A budget over a guarded run's largest.
    LargeBudget = 4,
    // A buffer that is shorter than what is written.
    ShortBuffer = 5,
    // Bytes that are not as many as their counts say.
    InputLength = 6,
    // A history store that holds no record.
    ShortStore = 7,
    // A state that is no machine.
    NoMachine = 8,
    // A running machine with a counter near its end.
    FullCounter = 9,
    // Nothing to undo.
    NoHistory = 10,
    // A line that breaks the grammar.
    Grammar = 11,
    // A label that stands on two lines, or on none and is used.
    Label = 12,
    // A line with one word more than memory has.
    WordCount = 13,
}

impl Refusal {
    // The number that is answered.
    pub fn number(self) -> u8
        ensures { result ≡ refusal_number self }
    {
        self as u8
    }
}
