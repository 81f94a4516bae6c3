ghost use Rattle.std.specs.Prelude.{◌≡◌, ◌≤◌, ◌+◌, ◌≤ℤ◌, ◌++◌, [], ◌∷◌, ℕ, pos, length, IsTrue, IfOk};
ghost use Rattle.std.specs.Result.{result_ok};
ghost use Rattle.source_tree.specs.Gives.{gives};
ghost use Rattle.source_tree.specs.Walk.{outcome_of, is_ready, are_over, map_values, mapped_value, AppendsAll, with_quotient, divides};

use crate::tree::{Found, Tree};
use affine_core::{Coefs, KeptForm, Overflow, Vector};
use sanlp::Point;

/// What the tree gives at these loop values. `Overflow` comes exactly where a form of the path that is taken leaves 128
/// bits, or a value of the leaf's map 64 bits. It takes no memory.
pub fn eval(tree: &Tree, at: &Vector) -> Result<Found, Overflow>
    requires { IsTrue (is_ready (length at.now) tree.now (length at.now)) }
    ensures exact { result_ok result ≡ outcome_of tree.now at.now }
    ensures value { IfOk result (λ found. found ≡ gives tree.now at.now) }
{
    let mut values = wide(at);
    follow(tree, &mut values)
}

fn wide(at: &Vector) -> Coefs
    ensures value { result ≡ at.now }
    ensures short { length at.now ≤ 6 }
{
    let mut values = Coefs::empty(at.allocator());
    for value in at.as_slice() {
        values.push(i128::from(*value));
    }
    values
}

// The values of the quotients follow those of the loops.
fn follow(tree: &Tree, values: &mut Coefs) -> Result<Found, Overflow>
    requires { (depth : ℕ) × (depth ≤ 6) × IsTrue (is_ready depth tree.now (length values.old)) }
    ensures { result_ok result ≡ outcome_of tree.now values.old }
{
    match tree {
        Tree::Test(form, yes, no) => match form.eval(values.as_slice()) {
            Ok(value) => {
                if value >= 0 {
                    follow(yes.get(), values)
                } else {
                    follow(no.get(), values)
                }
            }
            Err(overflow) => Err(overflow),
        },
        Tree::Divides(form, divisor, yes, no) => match form.eval(values.as_slice()) {
            Ok(value) => {
                let divisor = divisor.get();
                push_quotient(values, value, divisor);
                if is_divided(value, divisor) {
                    follow(yes.get(), values)
                } else {
                    follow(no.get(), values)
                }
            }
            Err(overflow) => Err(overflow),
        },
        Tree::Writer(statement, forms, _) => {
            let mut at = Vector::empty(values.allocator());
            match append_mapped(forms.as_slice(), values.as_slice(), &mut at) {
                Ok(()) => Ok(Found::At(Point {
                    statement: *statement,
                    at,
                })),
                Err(overflow) => Err(overflow),
            }
        }
        Tree::Zero(_) => Ok(Found::Zero),
        Tree::Dead(_) => Ok(Found::Dead),
    }
}

fn push_quotient(values: &mut Coefs, value: i128, divisor: i128)
    requires room { length values.old + 1 ≤ 18 }
    requires divisor { pos 1 ≤ℤ divisor }
    ensures { values.new ≡ with_quotient values.old value divisor }
{
    values.push(value.div_euclid(divisor));
}

fn is_divided(value: i128, divisor: i128) -> bool
    requires { pos 1 ≤ℤ divisor }
    ensures { result ≡ divides value divisor }
{
    value % divisor == 0
}

fn append_mapped(forms: &[KeptForm], values: &[i128], out: &mut Vector) -> Result<(), Overflow>
    requires room { length out.old + length forms.now ≤ 6 }
    requires over { IsTrue (are_over (length values.now) forms.now) }
    ensures { AppendsAll result out.old out.new (map_values forms.now values.now) }
{
    let Some((form, forms)) = forms.split_first() else {
        return Ok(());
    };
    out.push(mapped_form(form, values)?);
    append_mapped(forms, values, out)
}

fn mapped_form(form: &KeptForm, values: &[i128]) -> Result<i64, Overflow>
    requires { length form.now.coefs ≡ length values.now }
    ensures { result_ok result ≡ mapped_value form.now values.now }
{
    let value = form.eval(values)?;
    i64::try_from(value).map_err(|_| Overflow)
}
