// Refusals with fixed lines.
ghost use Rattle.std.specs.Prelude.{◌≡◌};
ghost use Rattle.workbench_core.specs.Fixed.{fixed_status, fixed_line};

/// A refusal whose line is a fixed text, which takes no memory.
#[derive(Clone, Copy, Debug, PartialEq, Eq)]
pub enum FixedRefusal {
    /// The words are no line of the table of commands.
    Words,
    /// A file could not be read.
    FileFault,
    /// The store failed.
    StoreFault,
    /// The answer could not be written whole.
    WriteFault,
    /// The port could not be opened, or no connection be taken.
    DoorFault,
    /// There was no memory.
    Memory,
}

impl FixedRefusal {
    /// The status with which the program ends.
    pub fn status(self) -> u8
        ensures { result ≡ fixed_status self }
    {
        match self {
            FixedRefusal::Words => 2,
            FixedRefusal::FileFault => 3,
            FixedRefusal::StoreFault => 11,
            FixedRefusal::WriteFault => 15,
            FixedRefusal::DoorFault => 16,
            FixedRefusal::Memory => 17,
        }
    }

    /// Its line, with the line feed.
    pub fn line(self) -> &'static [u8]
        ensures { result.now ≡ fixed_line self }
    {
        match self {
            FixedRefusal::Words => b"refused 2 Words\n",
            FixedRefusal::FileFault => b"refused 3 FileFault\n",
            FixedRefusal::StoreFault => b"refused 11 StoreFault\n",
            FixedRefusal::WriteFault => b"refused 15 WriteFault\n",
            FixedRefusal::DoorFault => b"refused 16 DoorFault\n",
            FixedRefusal::Memory => b"refused 17 Memory\n",
        }
    }
}
