//! Values on the domain, from completeness and determinacy.
ghost use Rattle.std.specs.Prelude.{◌≡◌, OnOk};

use crate::lemmas::definition;
use crate::shared::Setting;
use fp_conclude::{apply, conjunction, function_in};
use fp_proof::{Line, Proof, Stop};
use fp_shapes::variable;
use fp_term::{Items, Name, Node, Term, Ty};
use std::alloc::{AllocError, Global};

// Puts the term for the variable of that name and of its type at the end.
fn add_named(
    alloc: Global,
    pairs: &mut Items<(Name, Ty, Term)>,
    name: &[u8],
    constant: &Term,
) -> Result<(), Stop> {
    let Node::Const { ty, .. } = constant.node() else {
        return Err(Stop::Stuck);
    };
    match Name::new(alloc, name)? {
        Some(name) => Ok(pairs.push((name, ty.copy()?, constant.copy()?))?),
        None => Err(Stop::Stuck),
    }
}

impl<'g> Setting<'g> {
    // The graph, the function of all arguments and the relations for the recursion theorem's variables.
    fn add_constants(
        &self,
        alloc: Global,
        pairs: &mut Items<(Name, Ty, Term)>,
    ) -> Result<(), Stop> {
        add_named(alloc, pairs, b"g", &self.graph)?;
        add_named(alloc, pairs, b"s", &self.sum)?;
        add_named(alloc, pairs, b"Q", &self.calls)?;
        add_named(alloc, pairs, b"C", &self.clauses)
    }

    // The terms for the recursion theorem's variables, and this one for its argument.
    fn recursion_pairs(&self, alloc: Global, x: &Term) -> Result<Items<(Name, Ty, Term)>, Stop> {
        let mut pairs = Items::new(alloc);
        self.add_constants(alloc, &mut pairs)?;
        match Name::new(alloc, b"x")? {
            Some(name) => Ok(pairs.appended((name, self.x.1.copy()?, x.copy()?))?),
            None => Err(Stop::Stuck),
        }
    }

    // The recursion theorem for the group's constants, from an argument that is accessible.
    fn recursion_at(
        &self,
        proof: &mut Proof<'_>,
        complete: Line,
        det: Line,
        x: &Term,
    ) -> Result<Line, Stop>
        ensures { OnOk result (proof.new ≡ proof.old) }
    {
        let theorem = proof.lemma(b"rec_thm")?;
        let theorem = proof.at_types(theorem, b"s", &self.h.1)?;
        let pairs = self.recursion_pairs(proof.alloc(), x)?;
        let theorem = proof.inst(theorem, pairs.as_slice())?;
        let graph = definition(proof, &self.graph)?;
        let sum = definition(proof, &self.sum)?;
        proof.mp_all(theorem, &[graph, sum, complete, det])
    }

    // `f_dom x = acc (%z x. f_calls f_sum z x) x`
    fn accessible(&self, proof: &mut Proof<'_>, x: &Term) -> Result<Line, Stop>
        ensures { OnOk result (proof.new ≡ proof.old) }
    {
        let domain = definition(proof, &self.dom)?;
        let whole = proof.right(domain)?;
        let relation = definition(proof, &self.rel)?;
        let relation = proof.ap(function_in(&whole), relation)?;
        let domain = proof.trans(domain, relation)?;
        proof.ap_arg(domain, x)
    }

    /// `f_dom x --> f_clauses f_sum x (f_sum x)`
    pub fn defined_at(
        &self,
        proof: &mut Proof<'_>,
        complete: Line,
        det: Line,
        x: &Term,
    ) -> Result<Line, Stop>
        ensures { OnOk result (proof.new ≡ proof.old) }
    {
        let value = self.recursion_at(proof, complete, det, x)?;
        let accessible = self.accessible(proof, x)?;
        proof.with_premise(accessible, value)
    }

    // `!z. f_calls f_sum z x /\ f_calls f_sum z x --> f_sum z = f_sum z`
    fn agrees_with_itself(&self, proof: &mut Proof<'_>, x: &Term) -> Result<Line, Stop>
        ensures { OnOk result (proof.new ≡ proof.old) }
    {
        let alloc = proof.alloc();
        let z = variable(alloc, &self.z.0, &self.z.1)?;
        let same = proof.refl(&apply(alloc, &self.sum, &z)?)?;
        let call = self.holds_calls(alloc, &self.sum, &z, x)?;
        let same = proof.disch(&conjunction(alloc, &call, &call)?, same)?;
        proof.gen_all(&self.z, same)
    }

    // `f_sum`, `f_sum`, `x`, `f_sum x`, `y`
    fn determined_terms(
        &self,
        alloc: Global,
        x: &Term,
        y: &Term,
    ) -> Result<Items<Term>, AllocError> {
        let mut terms = Items::new(alloc);
        terms.push(self.sum.copy()?)?;
        terms.push(self.sum.copy()?)?;
        terms.push(x.copy()?)?;
        terms.push(apply(alloc, &self.sum, x)?)?;
        terms.push(y.copy()?)?;
        Ok(terms)
    }

    // `f_clauses f_sum x (f_sum x) /\ f_clauses f_sum x y --> f_sum x = y`, where the first is the line's.
    fn determined(
        &self,
        proof: &mut Proof<'_>,
        det: Line,
        values: Line,
        x: &Term,
        y: &Term,
    ) -> Result<Line, Stop>
        ensures { OnOk result (proof.new ≡ proof.old) }
    {
        let terms = self.determined_terms(proof.alloc(), x, y)?;
        let rule = proof.alls_at(det, terms.as_slice())?;
        let agrees = self.agrees_with_itself(proof, x)?;
        let all = proof.conj(agrees, values)?;
        proof.mp(rule, all)
    }

    /// `f_dom x --> f_clauses f_sum x y --> f_sum x = y`
    pub fn unique_at(
        &self,
        proof: &mut Proof<'_>,
        complete: Line,
        det: Line,
        x: &Term,
        y: &Term,
    ) -> Result<Line, Stop>
        ensures { OnOk result (proof.new ≡ proof.old) }
    {
        let domain = self.domain_at(proof.alloc(), x)?;
        let other = self.holds_clauses(proof.alloc(), &self.sum, x, y)?;
        let values = self.both_values(proof, complete, det, x, &other)?;
        let same = self.determined(proof, det, values, x, y)?;
        let same = proof.disch(&other, same)?;
        proof.disch(&domain, same)
    }

    // `f_clauses f_sum x (f_sum x)` and the other formula, on the hypotheses `f_dom x` and the latter.
    fn both_values(
        &self,
        proof: &mut Proof<'_>,
        complete: Line,
        det: Line,
        x: &Term,
        other: &Term,
    ) -> Result<Line, Stop>
        ensures { OnOk result (proof.new ≡ proof.old) }
    {
        let defined = self.defined_at(proof, complete, det, x)?;
        let defined = proof.undisch(defined)?;
        let other = proof.assume(other)?;
        proof.conj(defined, other)
    }
}
