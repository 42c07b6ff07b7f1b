//! The lines of a proof.
ghost use Rattle.std.specs.Prelude.{◌≡◌, ◌≤◌, [], IfOk, OnOk};
ghost use Rattle.fp_kernel.specs.Definitions.{Within};
ghost use Rattle.fp_kernel.specs.Theorems.{plain};
ghost use Rattle.fp_retrace.specs.Standing.{IsWithin};

use crate::stop::Stop;
use fp_conclude::{redex_parts, sides};
use fp_forms::implication_parts;
use fp_kernel::Thm;
use fp_term::{Items, Name, Term, Ty, numbered, same};
use fp_theory::Theory;
use std::alloc::Global;
use std::marker::Model;

/// The number of a line, from 0.
#[derive(Clone, Copy)]
pub struct Line {
    number: u32,
}

/// A proof: theorems in lines, over the definitions of a theory, and the names that its new variables avoid.
pub struct Proof<'t> {
    alloc: Global,
    theory: &'t Theory,
    lines: Vec<Thm>,
    known: Items<Name>,
    // The number of the newest variable.
    newest: u32,
}

impl<'t> Drop for Proof<'t> {
    fn drop(self) {
        let Proof {
            alloc: _,
            theory: _,
            lines,
            known,
            newest: _,
        } = self;
        drop(lines);
        drop(known);
    }
}

impl<'t> Model for Proof<'t> {
    ghost use Rattle.std.specs.Prelude.{List};
    ghost use Rattle.fp_kernel.specs.Definitions.{Def};
    ghost use Rattle.fp_kernel.specs.Codes.{coded_defs};
    ghost use Rattle.fp_retrace.specs.Standing.{AreWithin};

    ghost Value = { List Def };

    ghost coded = { coded_defs };

    // The definitions alone: lines only come and go.
    ghost view = { λ p. p.theory.now.defs };

    ghost invariant = { λ p. AreWithin p.theory.now.defs p.lines.items };
}

// Is the name one of these?
fn is_among(name: &Name, names: &[Name]) -> bool {
    for own in names {
        if own.equals(name) {
            return true;
        }
    }
    false
}

impl<'t> Proof<'t> {
    /// No lines. New variables have none of the known names.
    pub fn new(alloc: Global, theory: &'t Theory, known: Items<Name>) -> Proof<'t>
        ensures { result ≡ theory.now.defs }
    {
        Proof {
            alloc,
            theory,
            lines: Vec::new(alloc),
            known,
            newest: 0,
        }
    }

    /// Where memory comes from.
    pub fn alloc(&self) -> Global {
        self.alloc
    }

    /// The theory.
    pub fn theory(&self) -> &'t Theory
        ensures { result.now.defs ≡ self.now }
    {
        self.theory
    }

    /// The theorem in a line.
    #[tactic(auto, using(fp_retrace::proofs::Stood::within_at))]
    pub(crate) fn at(&self, line: Line) -> Result<&Thm, Stop>
        ensures { IfOk result (λ th. Within th.now.defs self.now) }
    {
        let number = line.number as usize;
        if number < self.lines.len() {
            Ok(&self.lines[number])
        } else {
            Err(Stop::Stuck)
        }
    }

    /// The theorem in a new line.
    #[tactic(auto, using(crate::proofs::Made::after))]
    pub(crate) fn put(&mut self, theorem: Thm) -> Result<Line, Stop>
        requires { Within theorem.defs self.now }
        ensures { OnOk result (self.new ≡ self.old) }
    {
        let Ok(number) = u32::try_from(self.lines.len()) else {
            return Err(Stop::NoMemory);
        };
        self.lines.push(theorem)?;
        Ok(Line { number })
    }

    /// What a line concludes.
    pub fn concl(&self, line: Line) -> Result<Term, Stop> {
        Ok(self.at(line)?.concl().copy()?)
    }

    /// The left side of the equation that a line concludes.
    pub fn left(&self, line: Line) -> Result<Term, Stop> {
        match sides(self.at(line)?.concl()) {
            Some(parts) => Ok(parts.left.copy()?),
            None => Err(Stop::Stuck),
        }
    }

    /// The right side of the equation that a line concludes.
    pub fn right(&self, line: Line) -> Result<Term, Stop> {
        match sides(self.at(line)?.concl()) {
            Some(parts) => Ok(parts.right.copy()?),
            None => Err(Stop::Stuck),
        }
    }

    /// Is the right side of the equation that a line concludes a redex?
    pub fn is_redex(&self, line: Line) -> Result<bool, Stop> {
        match sides(self.at(line)?.concl()) {
            Some(parts) => Ok(redex_parts(parts.right).is_some()),
            None => Err(Stop::Stuck),
        }
    }

    /// The premise of the implication that a line concludes.
    pub fn premise(&self, line: Line) -> Result<Term, Stop> {
        match implication_parts(self.alloc, self.at(line)?.concl())? {
            Some((premise, _)) => Ok(premise.copy()?),
            None => Err(Stop::Stuck),
        }
    }

    /// What the implication that a line concludes gives.
    pub fn consequence(&self, line: Line) -> Result<Term, Stop> {
        match implication_parts(self.alloc, self.at(line)?.concl())? {
            Some((_, consequence)) => Ok(consequence.copy()?),
            None => Err(Stop::Stuck),
        }
    }

    // The next number of a new variable, and its name.
    #[tactic(auto, unfolding(fp_term::specs::Names::is_name))]
    fn next_name(&self) -> Result<(Name, u32), Stop> {
        let stem = Name::of(self.alloc, b"a")?;
        for number in self.newest..u32::MAX {
            let name = numbered(self.alloc, &stem, number + 1)?;
            if !is_among(&name, self.known.as_slice()) {
                return Ok((name, number + 1));
            }
        }
        Err(Stop::NoMemory)
    }

    /// A new variable: its name is the first unused of `a1`, `a2`, ..
    pub fn fresh(&mut self, ty: &Ty) -> Result<(Name, Ty), Stop>
        ensures { OnOk result (self.new ≡ self.old) }
    {
        let (name, number) = self.next_name()?;
        self.newest = number;
        Ok((name, ty.copy()?))
    }

    /// The theory's theorem of that name.
    pub fn lemma(&mut self, name: &[u8]) -> Result<Line, Stop>
        ensures { OnOk result (self.new ≡ self.old) }
    {
        match Name::new(self.alloc, name)? {
            Some(name) => self.named(&name),
            None => Err(Stop::Stuck),
        }
    }

    /// A theorem in a new line.
    pub fn bring(&mut self, theorem: &Thm) -> Result<Line, Stop>
        requires { Within theorem.now.defs self.now }
        ensures { OnOk result (self.new ≡ self.old) }
    {
        let theorem = theorem.copy(self.alloc)?;
        self.put(theorem)
    }

    /// The theory's theorem of that name.
    pub fn named(&mut self, name: &Name) -> Result<Line, Stop>
        ensures { OnOk result (self.new ≡ self.old) }
    {
        let theory = self.theory;
        match theory.find(name) {
            Some(theorem) => {
                let theorem = theorem.copy(self.alloc)?;
                self.put(theorem)
            }
            None => Err(Stop::Stuck),
        }
    }

    /// The number of lines.
    pub fn mark(&self) -> usize {
        self.lines.len()
    }

    // The first lines, of that number.
    #[tactic(auto, using(crate::proofs::Made::first))]
    fn cut_to(&mut self, mark: usize)
        ensures { self.new ≡ self.old }
    {
        self.lines.truncate(mark);
    }

    /// One line, in the place of all since the mark.
    pub fn keep(&mut self, mark: usize, line: Line) -> Result<Line, Stop>
        ensures { OnOk result (self.new ≡ self.old) }
    {
        let theorem = self.at(line)?.copy(self.alloc)?;
        self.cut_to(mark);
        self.put(theorem)
    }

    /// The theorem in the line, where it states just that, without hypotheses and promises.
    pub fn theorem(&self, line: Line, statement: &Term) -> Result<Thm, Stop>
        ensures within { IfOk result (IsWithin self.now) }
        ensures states { IfOk result (λ th. th ≡ plain th.defs statement.now) }
    {
        let theorem = self.at(line)?;
        if theorem.hyps().is_empty()
            && theorem.promises().is_empty()
            && same(theorem.concl(), statement)
        {
            Ok(theorem.copy(self.alloc)?)
        } else {
            Err(Stop::Stuck)
        }
    }
}
