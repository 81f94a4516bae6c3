ghost use Rattle.std.specs.Prelude.{◌≡◌, ◌≤◌, ◌↔◌, length, None, IsOk, OnOk};
ghost use Rattle.std.specs.Result.{result_err};
ghost use Rattle.int_polyhedra.specs.Chain.{rows_of};
ghost use Rattle.int_polyhedra.specs.Systems.{AreOver, HasNoPoint, Entails};
ghost use Rattle.int_polyhedra.specs.Steps.{sum_of, sum_refusal, refusal_or};
ghost use Rattle.int_polyhedra.specs.Refusal.{refusal, entailment_refusal};
ghost use Rattle.int_polyhedra.specs.Rules.{Refutes, ProvesEntailment};

use crate::rows::Rows;
use crate::steps::{contradicts, cut, split, sum_rows};
use crate::system::{Proof, Reason, System, Term};
use affine_core::Row;
use std::alloc::Global;

/// Whether the proof shows that no whole point meets the system: `Ok` exactly where each of its steps follows its rule
/// within 128 bits, and else the reason of the first step, in preorder, that breaks its rule. Of one step all row numbers
/// are tested first, then a Cut's divisor, then all multipliers, each in order, and then the terms are added, in order.
/// Of a Split the number of its form's coefficients is tested first, and then its negation is made.
///
/// It takes no memory. Its stack grows with the depth of the proof: a level takes about 3 KB, or 7.5 KB as the toolchain's
/// own back end builds it, so that 8 MB bear 1,000 levels in either build. The text of a certificate has at most 512.
pub fn refutes(system: &System, proof: &Proof) -> Result<(), Reason>
    requires short { system.now.vars ≤ 18 }
    requires over { AreOver system.now.vars system.now.rows }
    ensures exact { result_err result ≡ refusal system.now.vars proof.now system.now.rows }
    ensures follows { IsOk result ↔ Refutes system.now.vars system.now.rows proof.now }
    ensures sound { OnOk result (HasNoPoint system.now.vars system.now.rows) }
{
    refute(
        proof,
        system.rows.allocator(),
        system.vars as usize,
        &Rows::Given(system.rows.as_slice()),
    )
}

// The proof stands first, since its depth is what falls with each call.
fn refute(proof: &Proof, alloc: Global, vars: usize, rows: &Rows) -> Result<(), Reason>
    requires short { vars ≤ 18 }
    requires over { AreOver vars (rows_of rows.now) }
    ensures { result_err result ≡ refusal vars proof.now (rows_of rows.now) }
{
    match proof {
        Proof::Sum(terms) => conclude(alloc, vars, rows, terms.as_slice()),
        Proof::Cut(divisor, terms, rest) => {
            let divisor = divisor.get();
            let terms = terms.get();
            match cut(alloc, vars, rows, divisor, terms.as_slice()) {
                Ok(row) => refute(rest.get(), alloc, vars, &Rows::More(&*rows, &row)),
                Err(reason) => Err(reason),
            }
        }
        Proof::Split(form, yes, no) => {
            let form = form.get();
            match split(vars, &form) {
                Ok(other) => match refute(yes.get(), alloc, vars, &Rows::More(&*rows, &form)) {
                    Ok(()) => refute(no.get(), alloc, vars, &Rows::More(&*rows, &other)),
                    Err(reason) => Err(reason),
                },
                Err(reason) => Err(reason),
            }
        }
    }
}

// A Sum, which ends a proof. It is not inlined, so that a level of a proof takes less stack.
#[inline(never)]
fn conclude(alloc: Global, vars: usize, rows: &Rows, terms: &[Term]) -> Result<(), Reason>
    requires short { vars ≤ 18 }
    requires over { AreOver vars (rows_of rows.now) }
    ensures { result_err result
        ≡ refusal_or sum_refusal (sum_of vars (rows_of rows.now) None terms.now) }
{
    match sum_rows(alloc, vars, rows, None, terms) {
        Ok(row) => {
            if contradicts(&row) {
                Ok(())
            } else {
                Err(Reason::NotContradictory(row))
            }
        }
        Err(reason) => Err(reason),
    }
}

/// Whether the proof shows that every whole point of the system meets the row. It is `refutes` of the system with the
/// row's negation `-form - 1 >= 0` added last; where that negation leaves 128 bits, the answer is `Overflow`. It takes no
/// memory, and the stack of `refutes`.
pub fn entails(system: &System, row: &Row, proof: &Proof) -> Result<(), Reason>
    requires short { system.now.vars ≤ 18 }
    requires over { AreOver system.now.vars system.now.rows }
    requires row_over { length row.now.coefs ≡ system.now.vars }
    ensures exact { result_err result
        ≡ entailment_refusal system.now.vars system.now.rows row.now proof.now }
    ensures follows { IsOk result
        ↔ ProvesEntailment system.now.vars system.now.rows row.now proof.now }
    ensures sound { OnOk result (Entails system.now.vars system.now.rows row.now) }
{
    let vars = system.vars as usize;
    match split(vars, row) {
        Ok(other) => refute(
            proof,
            system.rows.allocator(),
            vars,
            &Rows::More(&Rows::Given(system.rows.as_slice()), &other),
        ),
        Err(reason) => Err(reason),
    }
}
