// A plain model of the store: what is kept, and what each command leaves.
use crate::commands::{Command, Equation, NAMES, Name};
use crate::files::{PAM_CONTEXT, PHI4_2D_CONTEXT};
use crate::runs::{Run, run_line};
use result_keeper::QuietKeeper;
use std::alloc::{AllocError, Global};
use wb_outside::OutsideError;

// The types of an equation, under which rows are kept.
#[derive(Clone, Copy, Debug, PartialEq, Eq)]
enum Context {
    Pam,
    Phi4,
}

// All contexts, in the order of the bytes of their texts.
const CONTEXTS: [Context; 2] = [Context::Pam, Context::Phi4];

impl Context {
    fn text(self) -> &'static str {
        match self {
            Context::Pam => PAM_CONTEXT,
            Context::Phi4 => PHI4_2D_CONTEXT,
        }
    }

    // How many rows are kept under it, where there are any.
    fn rows(self) -> usize {
        match self {
            Context::Pam => 4,
            Context::Phi4 => 9,
        }
    }
}

// The context of an equation. That of `Empty` is that of `Phi4`: right sides are no part of it.
fn context_of(equation: Equation) -> Context {
    match equation {
        Equation::Pam | Equation::PamQuadratic => Context::Pam,
        Equation::Phi4 | Equation::Empty => Context::Phi4,
    }
}

// How many trees are listed for an equation.
fn trees_of(equation: Equation) -> usize {
    match equation {
        Equation::Pam | Equation::PamQuadratic => 4,
        Equation::Phi4 => 9,
        Equation::Empty => 0,
    }
}

// What a fresh store answers for an equation.
#[derive(Drop)]
struct Answers {
    report: Vec<u8>,
    trees: Vec<u8>,
}

fn fresh_answers(alloc: Global, equation: Equation) -> Result<Answers, OutsideError> {
    let mut keeper = QuietKeeper::new(alloc);
    run_line(alloc, &mut keeper, "add pam file", equation.file())?;
    let report = run_line(alloc, &mut keeper, "compute pam", "")?;
    let trees = run_line(alloc, &mut keeper, "trees pam", "")?;
    Ok(Answers {
        report: report.out,
        trees: trees.out,
    })
}

// The same for each equation.
#[derive(Drop)]
struct AllAnswers {
    pam: Answers,
    pam_quadratic: Answers,
    phi4: Answers,
    empty: Answers,
}

impl AllAnswers {
    fn fresh(alloc: Global) -> Result<AllAnswers, OutsideError> {
        Ok(AllAnswers {
            pam: fresh_answers(alloc, Equation::Pam)?,
            pam_quadratic: fresh_answers(alloc, Equation::PamQuadratic)?,
            phi4: fresh_answers(alloc, Equation::Phi4)?,
            empty: fresh_answers(alloc, Equation::Empty)?,
        })
    }

    fn of(&self, equation: Equation) -> &Answers {
        match equation {
            Equation::Pam => &self.pam,
            Equation::PamQuadratic => &self.pam_quadratic,
            Equation::Phi4 => &self.phi4,
            Equation::Empty => &self.empty,
        }
    }
}

// A run that is not refused and leaves nothing on the error stream.
fn answered(alloc: Global, out: &[u8]) -> Result<Run, AllocError> {
    Ok(Run {
        code: 0,
        out: out.to_vec(alloc)?,
        err: Vec::new(alloc),
    })
}

// A run that is refused with this status and cause.
fn refused(alloc: Global, code: u8, cause: &str) -> Result<Run, AllocError> {
    Ok(Run {
        code,
        out: Vec::new(alloc),
        err: format!(in alloc; "refused {code} {cause}\n")?.into_bytes(),
    })
}

fn no_project(alloc: Global, name: Name) -> Result<Run, AllocError> {
    let name = name.text();
    let cause = format!(in alloc; "NoProject {name}")?;
    refused(alloc, 10, &cause)
}

// The word and the name on a line.
fn named(alloc: Global, word: &str, name: Name) -> Result<Run, AllocError> {
    let name = name.text();
    let line = format!(in alloc; "{word} {name}\n")?;
    answered(alloc, line.as_bytes())
}

// The line of a context and of the number of its rows.
pub fn page_line(alloc: Global, context: &[u8], rows: usize) -> Result<Vec<u8>, AllocError> {
    let mut line = context.to_vec(alloc)?;
    line.extend_from_slice(format!(in alloc; " {rows}\n")?.as_bytes())?;
    Ok(line)
}

// What is to be kept, and the answers of a fresh store.
#[derive(Drop)]
pub struct Model {
    // The equation under each name, by the name's place.
    kept: [Option<Equation>; 4],
    has_pam_rows: bool,
    has_phi4_rows: bool,
    answers: AllAnswers,
}

impl Model {
    // Nothing is kept.
    pub fn new(alloc: Global) -> Result<Model, OutsideError> {
        Ok(Model {
            kept: [None; 4],
            has_pam_rows: false,
            has_phi4_rows: false,
            answers: AllAnswers::fresh(alloc)?,
        })
    }

    // What a command leaves. What is kept becomes what is kept afterwards.
    pub fn step(&mut self, alloc: Global, command: Command) -> Result<Run, AllocError> {
        match command {
            Command::Add { name, equation } => self.add(alloc, name, equation),
            Command::Show { name } => self.show(alloc, name),
            Command::Remove { name } => self.remove(alloc, name),
            Command::Names => self.names(alloc),
            Command::Compute { name, fresh } => self.compute(alloc, name, fresh),
            Command::Trees { name } => self.trees(alloc, name),
            Command::Audit => self.audit(alloc),
        }
    }

    fn equation(&self, name: Name) -> Option<Equation> {
        self.kept[name.place()]
    }

    fn add(
        &mut self,
        alloc: Global,
        name: Name,
        equation: Option<Equation>,
    ) -> Result<Run, AllocError> {
        if equation.is_none() {
            return refused(alloc, 4, "NotToml");
        }
        let word = match self.equation(name) {
            Some(_) => "replaced",
            None => "added",
        };
        self.kept[name.place()] = equation;
        named(alloc, word, name)
    }

    fn show(&self, alloc: Global, name: Name) -> Result<Run, AllocError> {
        match self.equation(name) {
            Some(equation) => answered(alloc, equation.file().as_bytes()),
            None => no_project(alloc, name),
        }
    }

    // Rows stay.
    fn remove(&mut self, alloc: Global, name: Name) -> Result<Run, AllocError> {
        if self.equation(name).is_none() {
            return no_project(alloc, name);
        }
        self.kept[name.place()] = None;
        named(alloc, "removed", name)
    }

    fn names(&self, alloc: Global) -> Result<Run, AllocError> {
        let names = self.name_lines(alloc)?;
        answered(alloc, &names)
    }

    // The names that are kept, one to a line.
    fn name_lines(&self, alloc: Global) -> Result<Vec<u8>, AllocError> {
        let mut lines = Vec::new(alloc);
        for name in NAMES {
            if self.equation(name).is_some() {
                lines.extend_from_slice(name.text().as_bytes())?;
                lines.push(b'\n')?;
            }
        }
        Ok(lines)
    }

    fn trees(&self, alloc: Global, name: Name) -> Result<Run, AllocError> {
        match self.equation(name) {
            Some(equation) => answered(alloc, &self.answers.of(equation).trees),
            None => no_project(alloc, name),
        }
    }

    fn compute(&mut self, alloc: Global, name: Name, fresh: bool) -> Result<Run, AllocError> {
        let Some(equation) = self.equation(name) else {
            return no_project(alloc, name);
        };
        let is_reused = !fresh && self.has_rows(context_of(equation));
        self.put_rows(equation);
        self.report(alloc, equation, is_reused)
    }

    // The report of an equation, whose constants are all reused, or all computed.
    fn report(
        &self,
        alloc: Global,
        equation: Equation,
        is_reused: bool,
    ) -> Result<Run, AllocError> {
        let trees = trees_of(equation);
        let note = if is_reused {
            format!(in alloc; "reused {trees} computed 0\n")?
        } else {
            format!(in alloc; "reused 0 computed {trees}\n")?
        };
        Ok(Run {
            code: 0,
            out: self.answers.of(equation).report.as_slice().to_vec(alloc)?,
            err: note.into_bytes(),
        })
    }

    fn has_rows(&self, context: Context) -> bool {
        match context {
            Context::Pam => self.has_pam_rows,
            Context::Phi4 => self.has_phi4_rows,
        }
    }

    // Afterwards each tree of the equation has its row.
    fn put_rows(&mut self, equation: Equation) {
        match equation {
            Equation::Pam | Equation::PamQuadratic => self.has_pam_rows = true,
            Equation::Phi4 => self.has_phi4_rows = true,
            Equation::Empty => {}
        }
    }

    fn audit(&self, alloc: Global) -> Result<Run, AllocError> {
        let mut rows = 0usize;
        for context in CONTEXTS {
            if self.has_rows(context) {
                rows = rows.saturating_add(context.rows());
            }
        }
        let line = format!(in alloc; "audit rows {rows}\n")?;
        answered(alloc, line.as_bytes())
    }

    // The names, and each context that has rows, with their number.
    pub fn outline(&self, alloc: Global) -> Result<Vec<u8>, AllocError> {
        let mut lines = self.name_lines(alloc)?;
        for context in CONTEXTS {
            if self.has_rows(context) {
                let line = page_line(alloc, context.text().as_bytes(), context.rows())?;
                lines.extend_from_slice(&line)?;
            }
        }
        Ok(lines)
    }
}
