//! Theories.
ghost use Rattle.std.specs.Prelude.{◌≡◌, [], None, false, IfOk, IfErr, IfSome, OnOk, OnErr};
ghost use Rattle.std.specs.Option.{option_copied};
ghost use Rattle.std.specs.Str.{bytes_eq};
ghost use Rattle.fp_term.specs.Types.{found_type};
ghost use Rattle.fp_term.specs.Signatures.{first_of};
ghost use Rattle.fp_kernel.specs.Definitions.{Within};
ghost use Rattle.fp_kernel.specs.Start.{signature_of};
ghost use Rattle.fp_kernel.specs.Theorems.{Theorem};
ghost use Rattle.fp_kernel.specs.Defining.{FaultIs, taken, first_taken, defining, Defines, defining_type, DefinesType};
ghost use Rattle.fp_theory.specs.State.{found_theorem, IsNoted, IsTheory, IsRewriteRule, IsCongRule, with_theorem, with_simp, with_cong, with_type, over};
ghost use Rattle.fp_theory.specs.Start.{start};
ghost use Rattle.fp_theory.specs.Sound.{IsSoundSignature};
ghost use Rattle.fp_theory.specs.Defining.{taken_by_definition, theorems_taken, taken_by_type, defining_in, DefinesIn, defining_type_in, DefinesTypeIn};
ghost use Rattle.fp_theory.specs.Declaring.{IsUnlessNone, ReadsSimp, ReadsCong, DeclaresSimp, DeclaresCong};
ghost use Rattle.fp_theory.specs.Changes.{least_number, Notes, IsMarkOf, IsAtMost, cut_to};

use crate::defining::{
    TypeNames, abs_rep_name, def_name, define_named, define_type_named, rep_abs_name,
};
use crate::fault::{self, NoteFault, RuleShapeFault};
use crate::mark::Mark;
use crate::named::Named;
use crate::start::start_theorems;
use crate::tables::Tables;
use fp_cong_rule::cong_rule;
use fp_group::{ConTable, ConType};
use fp_kernel::{DefFault, Defs, Thm};
use fp_rewriting::{Rule, rule_of};
use fp_term::{Name, Signature, Term};
use std::alloc::{AllocError, Global};
use std::marker::Model;

/// A theory: definitions, theorems under their names, which have no hypotheses and no promises, and what is declared of
/// them.
pub struct Theory {
    defs: Defs,
    named: Named,
    simps: Vec<Name>,
    congs: Vec<Name>,
    types: Tables,
}

impl Drop for Theory {
    fn drop(self) {
        let Theory {
            defs,
            named,
            simps,
            congs,
            types,
        } = self;
        drop(defs);
        drop(named);
        drop(simps);
        drop(congs);
        drop(types);
    }
}

impl Model for Theory {
    ghost use Rattle.fp_theory.specs.State.{State, IsTheory};
    ghost use Rattle.fp_theory.specs.Codes.{coded_state};

    ghost Value = { State };

    ghost coded = { coded_state };

    ghost view = { λ t. record { defs = t.defs; named = t.named; simps = t.simps.items; congs = t.congs.items; types = t.types } };

    ghost invariant = { λ t. IsTheory (record { defs = t.defs; named = t.named; simps = t.simps.items; congs = t.congs.items; types = t.types }) };
}

// The least number of a promise.
fn least_number(promises: &[(u32, Term)]) -> Option<u32>
    ensures { result ≡ least_number promises.now }
{
    let mut least = None;
    let mut at = promises.len();
    while at > 0 {
        at -= 1;
        let number = promises[at].0;
        least = match least {
            Some(later) => Some(number.min(later)),
            None => Some(number),
        };
    }
    least
}

// Is there a rule?
fn unless_none(rule: Option<Rule>) -> Result<(), RuleShapeFault>
    ensures { IsUnlessNone rule result }
{
    match rule {
        Some(_) => Ok(()),
        None => Err(RuleShapeFault::NotRuleShape),
    }
}

impl Theory {
    /// The theory of the start, with the axioms and the definitions of the logical constants under their names.
    #[tactic(auto, using(crate::proofs::Keeping::start_theory))]
    pub fn new(alloc: Global) -> Result<Theory, AllocError>
        ensures { IfOk result (λ theory. theory ≡ start) }
    {
        let defs = Defs::new(alloc)?;
        let named = start_theorems(alloc, &defs)?;
        Ok(Theory {
            defs,
            named,
            simps: Vec::new(alloc),
            congs: Vec::new(alloc),
            types: Tables::new(alloc),
        })
    }

    /// The definitions.
    pub fn defs(&self) -> &Defs
        ensures { result.now ≡ self.now.defs }
    {
        &self.defs
    }

    /// The types and constants of the start and of the definitions. Functions have two types there, and each constant's
    /// type is one of the signature.
    #[tactic(auto, using(crate::proofs::Sounding::sound))]
    pub fn signature(&self) -> &Signature
        ensures exact { result.now ≡ signature_of self.now.defs }
        ensures sound { IsSoundSignature (signature_of self.now.defs) }
    {
        let _ = self.defs.level();
        self.defs.signature()
    }

    /// The theorem of that name.
    pub fn find(&self, name: &Name) -> Option<&Thm>
        ensures exact { option_copied result ≡ found_theorem name.now self.now.named }
        ensures noted { IfSome result (λ th. IsNoted self.now.defs th.now) }
    {
        self.named.find(name)
    }

    /// The name that is in the way of defining the constant: its own, or that of the theorem.
    pub fn taken_by_definition(
        &self,
        alloc: Global,
        name: &Name,
    ) -> Result<Option<Name>, AllocError>
        ensures { IfOk result (λ o. o ≡ taken_by_definition self.now name.now) }
    {
        if self.defs.signature().const_type(name).is_some() {
            return Ok(Some(name.copy()?));
        }
        let label = def_name(alloc, name)?;
        if self.named.find(&label).is_some() {
            return Ok(Some(label));
        }
        Ok(None)
    }

    /// Defines a constant by a closed term and names the theorem that they are equal by the constant's name and `_def`.
    /// The refusals are tried in the order of `DefFault`; that the theorem's name is taken comes right after that the
    /// constant's is. After a refusal, and after want of memory, all is as before.
    pub fn define(&mut self, alloc: Global, name: &Name, body: &Term) -> Result<Thm, DefFault>
        ensures ok { IfOk result (DefinesIn self.old self.new name.now body.now) }
        ensures refused { IfErr result (λ fault. FaultIs fault (defining_in self.old name.now body.now)) }
        ensures err { OnErr result (self.new ≡ self.old) }
    {
        if let Some(taken) = self.taken_by_definition(alloc, name)? {
            return Err(DefFault::NameTaken(taken));
        }
        let label = def_name(alloc, name)?;
        self.define_new(alloc, name, &label, body)
    }

    // Defines a constant and names its theorem so, where the theorem's name is new.
    fn define_new(
        &mut self,
        alloc: Global,
        name: &Name,
        label: &Name,
        body: &Term,
    ) -> Result<Thm, DefFault>
        requires { found_theorem label.now self.old.named ≡ None }
        ensures defines { IfOk result (Defines self.old.defs self.new.defs name.now body.now) }
        ensures state { IfOk result (λ th. self.new ≡ with_theorem label.now th (over self.new.defs self.old)) }
        ensures refused { IfErr result (λ fault. FaultIs fault (defining self.old.defs name.now body.now)) }
        ensures err { OnErr result (self.new ≡ self.old) }
    {
        define_named(alloc, &mut self.defs, &mut self.named, name, label, body)
    }

    // The first of the names of a new type and of its constants that is there already, or is there twice.
    fn first_taken<'a>(&self, name: &'a Name, abs: &'a Name, rep: &'a Name) -> Option<&'a Name>
        ensures { option_copied result ≡ first_taken (signature_of self.now.defs) name.now abs.now rep.now }
    {
        let signature = self.defs.signature();
        if signature.arity(name).is_some() {
            return Some(name);
        }
        if signature.const_type(abs).is_some() {
            return Some(abs);
        }
        if abs.equals(rep) || signature.const_type(rep).is_some() {
            return Some(rep);
        }
        None
    }

    // The first of the names of a new type's theorems that is there already.
    fn theorems_taken(&self, alloc: Global, name: &Name) -> Result<Option<Name>, AllocError>
        ensures { IfOk result (λ o. o ≡ theorems_taken self.now name.now) }
    {
        let first = abs_rep_name(alloc, name)?;
        if self.named.find(&first).is_some() {
            return Ok(Some(first));
        }
        let second = rep_abs_name(alloc, name)?;
        if self.named.find(&second).is_some() {
            return Ok(Some(second));
        }
        Ok(None)
    }

    /// The name that is in the way of defining the type: its own, that of one of its constants or of one of its theorems.
    pub fn taken_by_type(
        &self,
        alloc: Global,
        name: &Name,
        abs: &Name,
        rep: &Name,
    ) -> Result<Option<Name>, AllocError>
        ensures { IfOk result (λ o. o ≡ taken_by_type self.now name.now abs.now rep.now) }
    {
        if let Some(taken) = self.first_taken(name, abs, rep) {
            return Ok(Some(taken.copy()?));
        }
        self.theorems_taken(alloc, name)
    }

    /// Defines a type by a theorem `P t`, and names the theorems `abs (rep a) = a` and `P r = (rep (abs r) = r)` by the
    /// type's name and `_abs_rep` and `_rep_abs`. The refusals are tried in the order of `DefFault`; the names are that of
    /// the type, those of `abs` and `rep`, and those of the theorems. After a refusal, and after want of memory, all is as
    /// before.
    #[tactic(auto, using(crate::proofs::Keeping::endings))]
    pub fn define_type(
        &mut self,
        alloc: Global,
        name: &Name,
        abs: &Name,
        rep: &Name,
        inhabited: &Thm,
    ) -> Result<(Thm, Thm), DefFault>
        requires { Within inhabited.now.defs self.old.defs }
        ensures ok { IfOk result (λ p. DefinesTypeIn self.old self.new name.now abs.now rep.now inhabited.now p.0 p.1) }
        ensures refused { IfErr result (λ fault. FaultIs fault (defining_type_in self.old name.now abs.now rep.now inhabited.now)) }
        ensures err { OnErr result (self.new ≡ self.old) }
    {
        if let Some(taken) = self.taken_by_type(alloc, name, abs, rep)? {
            return Err(DefFault::NameTaken(taken));
        }
        let abs_rep = abs_rep_name(alloc, name)?;
        let rep_abs = rep_abs_name(alloc, name)?;
        let names = TypeNames {
            name,
            abs,
            rep,
            abs_rep: &abs_rep,
            rep_abs: &rep_abs,
        };
        self.define_new_type(alloc, &names, inhabited)
    }

    // Defines a type and names its theorems so, where the theorems' names are new.
    #[tactic(auto, using(std::proofs::lemmas::List::append_assoc))]
    fn define_new_type(
        &mut self,
        alloc: Global,
        names: &TypeNames,
        inhabited: &Thm,
    ) -> Result<(Thm, Thm), DefFault>
        requires within { Within inhabited.now.defs self.old.defs }
        requires first_free { found_theorem names.now.abs_rep.now self.old.named ≡ None }
        requires second_free { found_theorem names.now.rep_abs.now self.old.named ≡ None }
        requires apart { bytes_eq names.now.abs_rep.now names.now.rep_abs.now ≡ false }
        ensures defines { IfOk result (λ p. DefinesType self.old.defs self.new.defs names.now.name.now names.now.abs.now names.now.rep.now inhabited.now p.0 p.1) }
        ensures state { IfOk result (λ p. self.new ≡ with_theorem names.now.rep_abs.now p.1 (with_theorem names.now.abs_rep.now p.0 (over self.new.defs self.old))) }
        ensures refused { IfErr result (λ fault. FaultIs fault (defining_type self.old.defs names.now.name.now names.now.abs.now names.now.rep.now inhabited.now)) }
        ensures err { OnErr result (self.new ≡ self.old) }
    {
        define_type_named(alloc, &mut self.defs, &mut self.named, names, inhabited)
    }

    /// Names a theorem without hypotheses.
    #[tactic(auto, using(crate::proofs::Keeping::no_promises))]
    pub fn note(&mut self, name: &Name, theorem: Thm) -> Result<(), NoteFault>
        requires within { Within theorem.defs self.old.defs }
        requires hyps { theorem.hyps ≡ [] }
        ensures { Notes self.old self.new name.now theorem result }
    {
        if self.named.find(name).is_some() {
            return Err(fault::name_taken(name));
        }
        if let Some(number) = least_number(theorem.promises()) {
            return Err(NoteFault::HasPromise(number));
        }
        self.name_new(name, theorem)?;
        Ok(())
    }

    // Names a theorem, where the name is new.
    fn name_new(&mut self, name: &Name, theorem: Thm) -> Result<(), AllocError>
        requires free { found_theorem name.now self.old.named ≡ None }
        requires noted { IsNoted self.old.defs theorem }
        ensures ok { OnOk result (self.new ≡ with_theorem name.now theorem self.old) }
        ensures err { OnErr result (self.new ≡ self.old) }
    {
        self.named.push(name, theorem)
    }

    /// How far the theory is.
    pub fn mark(&self) -> Mark
        ensures mark { IsMarkOf self.now result }
        ensures theory { IsTheory self.now }
    {
        Mark {
            defs: self.defs.level(),
            named: self.named.len(),
            simps: self.simps.len(),
            congs: self.congs.len(),
            types: self.types.len(),
        }
    }

    /// The theory as it was when it had these lengths.
    pub fn back_to(&mut self, mark: Mark)
        requires most { IsAtMost mark self.old }
        requires theory { IsTheory (cut_to mark self.old) }
        ensures { self.new ≡ cut_to mark self.old }
    {
        self.defs.back_to(mark.defs);
        self.named.cut(mark.named);
        self.simps.truncate(mark.simps);
        self.congs.truncate(mark.congs);
        self.types.cut(mark.types);
    }

    // Does the name stand for a theorem that states a rule of rewriting?
    fn read_simp(&self, alloc: Global, name: &Name) -> Result<(), RuleShapeFault>
        ensures { ReadsSimp self.now.named name.now result }
    {
        let Some(theorem) = self.find(name) else {
            return Err(fault::no_such_theorem(name));
        };
        let rule = rule_of(alloc, name, theorem.concl())?;
        unless_none(rule)
    }

    // Does the name stand for a theorem that states a congruence rule?
    fn read_cong(&self, alloc: Global, name: &Name) -> Result<(), RuleShapeFault>
        ensures { ReadsCong self.now.named name.now result }
    {
        let Some(theorem) = self.find(name) else {
            return Err(fault::no_such_theorem(name));
        };
        match cong_rule(alloc, name, theorem.concl())? {
            Some(_) => Ok(()),
            None => Err(RuleShapeFault::NotRuleShape),
        }
    }

    fn add_simp(&mut self, name: Name) -> Result<(), AllocError>
        requires { IsRewriteRule self.old.named name }
        ensures ok { OnOk result (self.new ≡ with_simp name self.old) }
        ensures err { OnErr result (self.new ≡ self.old) }
    {
        self.simps.push(name)?;
        Ok(())
    }

    fn add_cong(&mut self, name: Name) -> Result<(), AllocError>
        requires { IsCongRule self.old.named name }
        ensures ok { OnOk result (self.new ≡ with_cong name self.old) }
        ensures err { OnErr result (self.new ≡ self.old) }
    {
        self.congs.push(name)?;
        Ok(())
    }

    /// Declares a simplification rule: the theorem of that name. After a refusal, and after want of memory, all is as
    /// before.
    pub fn declare_simp(&mut self, alloc: Global, name: &Name) -> Result<(), RuleShapeFault>
        ensures reads { ReadsSimp self.old.named name.now result }
        ensures declares { DeclaresSimp self.old self.new name.now result }
    {
        self.read_simp(alloc, name)?;
        let name = name.copy()?;
        Ok(self.add_simp(name)?)
    }

    /// Declares a congruence rule: the theorem of that name. After a refusal, and after want of memory, all is as before.
    pub fn declare_cong(&mut self, alloc: Global, name: &Name) -> Result<(), RuleShapeFault>
        ensures reads { ReadsCong self.old.named name.now result }
        ensures declares { DeclaresCong self.old self.new name.now result }
    {
        self.read_cong(alloc, name)?;
        let name = name.copy()?;
        Ok(self.add_cong(name)?)
    }

    /// Declares the constructors of a type.
    pub fn declare_constructors(&mut self, ty: ConType) -> Result<(), AllocError>
        ensures ok { OnOk result (self.new ≡ with_type ty self.old) }
        ensures err { OnErr result (self.new ≡ self.old) }
    {
        self.types.push(ty)
    }

    /// The names of the declared simplification rules.
    pub fn simp_rules(&self) -> &[Name]
        ensures { result.now ≡ self.now.simps }
    {
        self.simps.as_slice()
    }

    /// The names of the declared congruence rules.
    pub fn cong_rules(&self) -> &[Name]
        ensures { result.now ≡ self.now.congs }
    {
        self.congs.as_slice()
    }

    /// The types with declared constructors.
    pub fn constructors(&self) -> &ConTable
        ensures { result.now.types ≡ self.now.types }
    {
        self.types.table()
    }
}
