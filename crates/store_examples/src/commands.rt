// Commands over a store with at most four projects, each by its number.
ghost use Rattle.std.specs.Prelude.{◌<◌};

use crate::files::{EMPTY, NO_TOML, PAM, PAM_QUADRATIC, PHI4_2D};
use std::alloc::{AllocError, Global};

// The name of a project, by what its text begins with or has within.
#[derive(Clone, Copy, Debug, PartialEq, Eq)]
pub enum Name {
    Digit,
    Dash,
    Underscore,
    Letters,
}

// All names, in the order of the bytes of their texts.
pub const NAMES: [Name; 4] = [Name::Digit, Name::Dash, Name::Underscore, Name::Letters];

impl Name {
    pub fn text(self) -> &'static str {
        match self {
            Name::Digit => "2d",
            Name::Dash => "heat-2d",
            Name::Underscore => "heat_2d",
            Name::Letters => "pam",
        }
    }

    // The place of the name among all names.
    pub fn place(self) -> usize
        ensures { result < 4 }
    {
        match self {
            Name::Digit => 0,
            Name::Dash => 1,
            Name::Underscore => 2,
            Name::Letters => 3,
        }
    }
}

// An equation whose file is accepted.
#[derive(Clone, Copy, Debug, PartialEq, Eq)]
pub enum Equation {
    Pam,
    PamQuadratic,
    Phi4,
    Empty,
}

const EQUATIONS: [Equation; 4] = [
    Equation::Pam,
    Equation::PamQuadratic,
    Equation::Phi4,
    Equation::Empty,
];

impl Equation {
    pub fn file(self) -> &'static str {
        match self {
            Equation::Pam => PAM,
            Equation::PamQuadratic => PAM_QUADRATIC,
            Equation::Phi4 => PHI4_2D,
            Equation::Empty => EMPTY,
        }
    }
}

// A command of the program. What is added is the file of an equation, or one that is refused.
#[derive(Clone, Copy, Debug, PartialEq, Eq)]
pub enum Command {
    Add {
        name: Name,
        equation: Option<Equation>,
    },
    Show {
        name: Name,
    },
    Remove {
        name: Name,
    },
    Names,
    Compute {
        name: Name,
        fresh: bool,
    },
    Trees {
        name: Name,
    },
    Audit,
}

impl Command {
    // The command of a number.
    pub fn drawn(number: u32) -> Command {
        let draw = number.wrapping_mul(2_654_435_761) >> 8;
        let name = NAMES[(draw / 16 % 4) as usize];
        match draw % 12 {
            0..=3 => Command::Add {
                name,
                equation: EQUATIONS.get((draw / 64 % 5) as usize).copied(),
            },
            4 => Command::Show { name },
            5 => Command::Remove { name },
            6 => Command::Names,
            7 => Command::Compute { name, fresh: true },
            8 => Command::Trees { name },
            9 => Command::Audit,
            _ => Command::Compute { name, fresh: false },
        }
    }

    // The words after the program's name.
    pub fn line(self, alloc: Global) -> Result<String, AllocError> {
        match self {
            Command::Add { name, equation: _ } => line_on(alloc, "add", name, " file"),
            Command::Show { name } => line_on(alloc, "show", name, ""),
            Command::Remove { name } => line_on(alloc, "remove", name, ""),
            Command::Names => format!(in alloc; "names"),
            Command::Compute { name, fresh: false } => line_on(alloc, "compute", name, ""),
            Command::Compute { name, fresh: true } => line_on(alloc, "compute", name, " --fresh"),
            Command::Trees { name } => line_on(alloc, "trees", name, ""),
            Command::Audit => format!(in alloc; "audit"),
        }
    }

    // The text of the file `file`.
    pub fn file(self) -> &'static str {
        match self {
            Command::Add {
                name: _,
                equation: Some(equation),
            } => equation.file(),
            _ => NO_TOML,
        }
    }
}

// The words of a command on a project.
fn line_on(alloc: Global, word: &str, name: Name, rest: &str) -> Result<String, AllocError> {
    let name = name.text();
    format!(in alloc; "{word} {name}{rest}")
}
