//! Forms of many steps, on lists of variables, parts and premises.
ghost use Rattle.std.specs.Prelude.{◌≡◌, OnOk};

use crate::proof::{Line, Proof};
use crate::stop::Stop;
use fp_conclude::{connective, equation, false_constant, truth_type};
use fp_match::{Inst, match_term};
use fp_shapes::{disjunction, disjunctions, for_somes, lambdas, variable};
use fp_term::{Items, Name, Term, Ty, free_variables, match_ty};
use std::slice;

impl<'t> Proof<'t> {
    // `?x. p` from `p`.
    fn some_from(&mut self, var: &(Name, Ty), line: Line) -> Result<Line, Stop>
        ensures { OnOk result (self.new ≡ self.old) }
    {
        let witness = variable(self.alloc(), &var.0, &var.1)?;
        let formula = self.concl(line)?;
        let some = for_somes(self.alloc(), slice::from_ref(var), &formula)?;
        self.exists(&some, &witness, line)
    }

    /// `?x1 .. xn. p` from `p`.
    pub fn somes_from(&mut self, vars: &[(Name, Ty)], line: Line) -> Result<Line, Stop>
        ensures { OnOk result (self.new ≡ self.old) }
    {
        let mut made = line;
        let mut at = vars.len();
        while at > 0 {
            at -= 1;
            made = self.some_from(&vars[at], made)?;
        }
        Ok(made)
    }

    // `p \/ q`, where `p` is the line's, and `q` the disjunction of the parts behind; itself where there are none.
    fn before_parts(&mut self, parts: &[Term], line: Line) -> Result<Line, Stop>
        ensures { OnOk result (self.new ≡ self.old) }
    {
        if parts.is_empty() {
            return Ok(line);
        }
        let behind = disjunctions(self.alloc(), parts)?;
        self.disj1(line, &behind)
    }

    /// `p1 \/ .. \/ pn` from the part of that index.
    pub fn disjunct_from(&mut self, parts: &[Term], index: usize, line: Line) -> Result<Line, Stop>
        ensures { OnOk result (self.new ≡ self.old) }
    {
        if index >= parts.len() {
            return Err(Stop::Stuck);
        }
        let mut made = self.before_parts(&parts[index + 1..], line)?;
        let mut at = index;
        while at > 0 {
            at -= 1;
            made = self.disj2(&parts[at], made)?;
        }
        Ok(made)
    }

    /// `s = u` from `s = t`, where `t` contracts to `u`.
    pub fn contracted(&mut self, line: Line) -> Result<Line, Stop>
        ensures { OnOk result (self.new ≡ self.old) }
    {
        let redex = self.right(line)?;
        let step = self.beta(&redex)?;
        self.trans(line, step)
    }

    /// `f t1 .. tn = t` from `f = (%x1 .. xn. t)`, with the terms for the variables.
    pub fn applied_to(&mut self, line: Line, terms: &[Term]) -> Result<Line, Stop>
        ensures { OnOk result (self.new ≡ self.old) }
    {
        let mut made = line;
        for term in terms {
            made = self.ap_arg(made, term)?;
            made = self.contracted(made)?;
        }
        Ok(made)
    }

    /// `p --> q` from `p = r` and `r --> q`.
    #[tactic(auto, unfolding(fp_term::specs::Names::is_name))]
    pub fn with_premise(&mut self, same: Line, rule: Line) -> Result<Line, Stop>
        ensures { OnOk result (self.new ≡ self.old) }
    {
        let last = self.consequence(rule)?;
        let implies = connective(self.alloc(), b"imp")?;
        let made = self.ap(&implies, same)?;
        let made = self.ap_arg(made, &last)?;
        let made = self.sym(made)?;
        self.eq_mp(made, rule)
    }

    // `(?x. p) --> q` from `p --> q`, where `x` isn't free in `q`.
    fn some_to(&mut self, var: &(Name, Ty), rule: Line) -> Result<Line, Stop>
        ensures { OnOk result (self.new ≡ self.old) }
    {
        let formula = self.premise(rule)?;
        let some = for_somes(self.alloc(), slice::from_ref(var), &formula)?;
        let held = self.assume(&some)?;
        let reached = self.undisch(rule)?;
        let made = self.choose(var, held, reached)?;
        self.disch(&some, made)
    }

    /// `(?x1 .. xn. p) --> q` from `p --> q`, where no `x` is free in `q`.
    pub fn somes_to(&mut self, vars: &[(Name, Ty)], rule: Line) -> Result<Line, Stop>
        ensures { OnOk result (self.new ≡ self.old) }
    {
        let mut made = rule;
        let mut at = vars.len();
        while at > 0 {
            at -= 1;
            made = self.some_to(&vars[at], made)?;
        }
        Ok(made)
    }

    // `p \/ r --> q` from `p --> q` and `r --> q`.
    fn either_to(&mut self, first: Line, second: Line) -> Result<Line, Stop>
        ensures { OnOk result (self.new ≡ self.old) }
    {
        let left = self.premise(first)?;
        let right = self.premise(second)?;
        let either = disjunction(self.alloc(), &left, &right)?;
        let held = self.assume(&either)?;
        let one = self.undisch(first)?;
        let two = self.undisch(second)?;
        let made = self.cases(held, one, two)?;
        self.disch(&either, made)
    }

    // `F --> q`
    fn from_nothing(&mut self, goal: &Term) -> Result<Line, Stop>
        ensures { OnOk result (self.new ≡ self.old) }
    {
        let never = false_constant(self.alloc())?;
        let held = self.assume(&never)?;
        let made = self.false_elim(goal, held)?;
        self.disch(&never, made)
    }

    /// `p1 \/ .. \/ pn --> q` from all `pi --> q`; `F --> q` from none.
    pub fn cases_to(&mut self, rules: &[Line], goal: &Term) -> Result<Line, Stop>
        ensures { OnOk result (self.new ≡ self.old) }
    {
        let mut at = rules.len();
        if at == 0 {
            return self.from_nothing(goal);
        }
        at -= 1;
        let mut made = rules[at];
        while at > 0 {
            at -= 1;
            made = self.either_to(rules[at], made)?;
        }
        Ok(made)
    }

    /// `f t1 .. tn = g u1 .. un` from `f = g` and all `ti = ui`.
    pub fn combined_all(&mut self, function: Line, equations: &[Line]) -> Result<Line, Stop>
        ensures { OnOk result (self.new ≡ self.old) }
    {
        let mut made = function;
        for equation in equations {
            made = self.mk_comb(made, *equation)?;
        }
        Ok(made)
    }

    // `p = r` from `(%x. p) x = (%x. p) t`, contracted on both sides.
    fn contracted_both(&mut self, line: Line) -> Result<Line, Stop>
        ensures { OnOk result (self.new ≡ self.old) }
    {
        let left = self.left(line)?;
        let step = self.beta(&left)?;
        let step = self.sym(step)?;
        let made = self.trans(step, line)?;
        self.contracted(made)
    }

    /// `x = t --> p` from `p` with `t` for `x`; the formula is `p`.
    pub fn substituted(
        &mut self,
        var: &(Name, Ty),
        value: &Term,
        formula: &Term,
        held: Line,
    ) -> Result<Line, Stop>
        ensures { OnOk result (self.new ≡ self.old) }
    {
        let own = variable(self.alloc(), &var.0, &var.1)?;
        let same = equation(self.alloc(), &var.1, &own, value)?;
        let function = lambdas(self.alloc(), slice::from_ref(var), formula)?;
        let made = self.assume(&same)?;
        let made = self.ap(&function, made)?;
        let made = self.contracted_both(made)?;
        let made = self.sym(made)?;
        let made = self.eq_mp(made, held)?;
        self.disch(&same, made)
    }

    /// `!x1 .. xn. p` from `p`, where no `x` is free in a hypothesis.
    pub fn alls_from(&mut self, vars: &[(Name, Ty)], line: Line) -> Result<Line, Stop>
        ensures { OnOk result (self.new ≡ self.old) }
    {
        let mut made = line;
        let mut at = vars.len();
        while at > 0 {
            at -= 1;
            made = self.gen_all(&vars[at], made)?;
        }
        Ok(made)
    }

    /// `p` at the terms, from `!x1 .. xn. p`.
    pub fn alls_at(&mut self, line: Line, terms: &[Term]) -> Result<Line, Stop>
        ensures { OnOk result (self.new ≡ self.old) }
    {
        let mut made = line;
        for term in terms {
            made = self.spec(made, term)?;
        }
        Ok(made)
    }

    /// `p1 /\ .. /\ pn` from all `pi`, of which there is one at least.
    pub fn conj_all(&mut self, lines: &[Line]) -> Result<Line, Stop>
        ensures { OnOk result (self.new ≡ self.old) }
    {
        let mut at = lines.len();
        if at == 0 {
            return Err(Stop::Stuck);
        }
        at -= 1;
        let mut made = lines[at];
        while at > 0 {
            at -= 1;
            made = self.conj(lines[at], made)?;
        }
        Ok(made)
    }

    /// The part of that index of a conjunction of so many.
    pub fn conjunct_at(&mut self, line: Line, number: usize, index: usize) -> Result<Line, Stop>
        ensures { OnOk result (self.new ≡ self.old) }
    {
        let mut made = line;
        for _ in 0..index {
            made = self.conj2(made)?;
        }
        if index.checked_add(1) == Some(number) {
            Ok(made)
        } else {
            self.conj1(made)
        }
    }

    /// All parts of a conjunction of so many, in order.
    pub fn conjuncts(&mut self, line: Line, number: usize) -> Result<Items<Line>, Stop>
        ensures { OnOk result (self.new ≡ self.old) }
    {
        let mut parts = Items::new(self.alloc());
        let mut rest = line;
        for _ in 1..number {
            parts.push(self.conj1(rest)?)?;
            rest = self.conj2(rest)?;
        }
        parts.push(rest)?;
        Ok(parts)
    }

    /// `p1 --> .. --> pn --> q` from `q`, without these hypotheses.
    pub fn disch_all(&mut self, formulas: &[Term], line: Line) -> Result<Line, Stop>
        ensures { OnOk result (self.new ≡ self.old) }
    {
        let mut made = line;
        let mut at = formulas.len();
        while at > 0 {
            at -= 1;
            made = self.disch(&formulas[at], made)?;
        }
        Ok(made)
    }

    /// `q` from `p1 --> .. --> pn --> q` and all `pi`.
    pub fn mp_all(&mut self, rule: Line, lines: &[Line]) -> Result<Line, Stop>
        ensures { OnOk result (self.new ≡ self.old) }
    {
        let mut made = rule;
        for line in lines {
            made = self.mp(made, *line)?;
        }
        Ok(made)
    }

    /// The line without the hypothesis that the premise concludes.
    pub fn cut(&mut self, line: Line, premise: Line) -> Result<Line, Stop>
        ensures { OnOk result (self.new ≡ self.old) }
    {
        let formula = self.concl(premise)?;
        let rule = self.disch(&formula, line)?;
        self.mp(rule, premise)
    }

    // The same, contracted on the right where that is a redex.
    fn contracted_if_redex(&mut self, line: Line) -> Result<Line, Stop>
        ensures { OnOk result (self.new ≡ self.old) }
    {
        if self.is_redex(line)? {
            self.contracted(line)
        } else {
            Ok(line)
        }
    }

    /// `f t1 .. tn = u`, where as many abstractions of `f` are contracted as there are; the other terms are only applied.
    pub fn contracted_all(&mut self, function: &Term, terms: &[Term]) -> Result<Line, Stop>
        ensures { OnOk result (self.new ≡ self.old) }
    {
        let mut made = self.refl(function)?;
        for term in terms {
            made = self.ap_arg(made, term)?;
            made = self.contracted_if_redex(made)?;
        }
        Ok(made)
    }

    /// `f1 (.. (fn s)) = f1 (.. (fn t))` from `s = t`; the functions stand innermost first.
    pub fn ap_all(&mut self, functions: &[Term], line: Line) -> Result<Line, Stop>
        ensures { OnOk result (self.new ≡ self.old) }
    {
        let mut made = line;
        for function in functions {
            made = self.ap(function, made)?;
        }
        Ok(made)
    }

    // The instance by types, and by terms for variables at these.
    fn instance(&mut self, line: Line, inst: &Inst) -> Result<Line, Stop>
        ensures { OnOk result (self.new ≡ self.old) }
    {
        let made = self.inst_ty(line, inst.types.as_slice())?;
        self.inst(made, inst.terms.as_slice())
    }

    /// The instance that makes a part of what the line concludes the given term.
    pub fn at_match(&mut self, line: Line, part: &Term, term: &Term) -> Result<Line, Stop>
        ensures { OnOk result (self.new ≡ self.old) }
    {
        match match_term(self.alloc(), part, term)? {
            Some(inst) => self.instance(line, &inst),
            None => Err(Stop::Stuck),
        }
    }

    /// The instance by types that gives the line's variable of that name the type.
    pub fn at_types(&mut self, line: Line, name: &[u8], ty: &Ty) -> Result<Line, Stop>
        ensures { OnOk result (self.new ≡ self.old) }
    {
        let formula = self.concl(line)?;
        let variables = free_variables(self.alloc(), &formula)?;
        let Some(own) = type_among(name, variables.as_slice()) else {
            return Err(Stop::Stuck);
        };
        match match_ty(self.alloc(), own, ty)? {
            Some(pairs) => self.inst_ty(line, pairs.as_slice()),
            None => Err(Stop::Stuck),
        }
    }
}

// The type of the first variable of that name.
fn type_among<'a>(name: &[u8], variables: &'a [(Name, Ty)]) -> Option<&'a Ty> {
    for (own, ty) in variables {
        if own.as_slice() == name {
            return Some(ty);
        }
    }
    None
}
