// The commands of an input, one after the other: what each does, and its operands.
use vm::Begun;

// The operands of a run.
#[derive(Drop)]
pub(crate) struct Run<'a> {
    pub budget: Begun,
    pub breakpoints: &'a [u8],
}

// A field of the machine by its number, and what is put there.
#[derive(Clone, Copy)]
pub(crate) struct Setting {
    pub field: u8,
    pub index: u16,
    pub value: u64,
}

#[derive(Drop)]
pub(crate) enum Command<'a> {
    NewMachine,
    // The words, two bytes each.
    LoadImage(&'a [u8]),
    Reset,
    Clear,
    MicroStep,
    StepInstruction,
    Run(Run<'a>),
    PushHistory,
    Undo,
    ClearHistory,
    Dump,
    SetField(Setting),
    SetByte { offset: u32, value: u8 },
    DirectInstruction,
    DirectRun(Run<'a>),
}

// What is left of an input. What is taken from it is wholly there, or it is `None`.
#[derive(Drop)]
pub(crate) struct Rest<'a> {
    bytes: &'a [u8],
}

impl<'a> Rest<'a> {
    pub(crate) fn new(bytes: &'a [u8]) -> Rest<'a> {
        Rest { bytes }
    }

    pub(crate) fn len(&self) -> usize {
        self.bytes.len()
    }

    fn take(&mut self, n: usize) -> Option<&'a [u8]> {
        let (taken, rest) = self.bytes.split_at_checked(n)?;
        self.bytes = rest;
        Some(taken)
    }

    fn chunk<const N: usize>(&mut self) -> Option<[u8; N]> {
        let (taken, rest) = self.bytes.split_first_chunk::<N>()?;
        self.bytes = rest;
        Some(*taken)
    }

    fn byte(&mut self) -> Option<u8> {
        Some(u8::from_be_bytes(self.chunk()?))
    }

    fn word(&mut self) -> Option<u16> {
        Some(u16::from_be_bytes(self.chunk()?))
    }

    pub(crate) fn long(&mut self) -> Option<u32> {
        Some(u32::from_be_bytes(self.chunk()?))
    }

    fn number(&mut self) -> Option<u64> {
        Some(u64::from_be_bytes(self.chunk()?))
    }

    fn run(&mut self) -> Option<Run<'a>> {
        let budget = Begun(self.number()?);
        let count = self.word()?;
        let breakpoints = self.take(count as usize)?;
        Some(Run {
            budget,
            breakpoints,
        })
    }

    fn words(&mut self) -> Option<&'a [u8]> {
        let count = self.word()?;
        self.take(2 * count as usize)
    }

    fn setting(&mut self) -> Option<Setting> {
        let field = self.byte()?;
        let index = self.word()?;
        let value = self.number()?;
        Some(Setting {
            field,
            index,
            value,
        })
    }

    fn byte_setting(&mut self) -> Option<Command<'a>> {
        let offset = self.long()?;
        let value = self.byte()?;
        Some(Command::SetByte { offset, value })
    }

    // The next command: none where its first byte is that of no command, or an operand is not there.
    pub(crate) fn command(&mut self) -> Option<Command<'a>> {
        let kind = self.byte()?;
        match kind {
            0x00 => Some(Command::NewMachine),
            0x01 => Some(Command::LoadImage(self.words()?)),
            0x02 => Some(Command::Reset),
            0x03 => Some(Command::Clear),
            0x04 => Some(Command::MicroStep),
            0x05 => Some(Command::StepInstruction),
            0x06 => Some(Command::Run(self.run()?)),
            0x07 => Some(Command::PushHistory),
            0x08 => Some(Command::Undo),
            0x09 => Some(Command::ClearHistory),
            0x0A => Some(Command::Dump),
            0x0B => Some(Command::SetField(self.setting()?)),
            0x0C => self.byte_setting(),
            0x0D => Some(Command::DirectInstruction),
            0x0E => Some(Command::DirectRun(self.run()?)),
            _ => None,
        }
    }
}
