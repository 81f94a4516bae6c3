//! Tests of `net_maker::compile`: the trees of the reads of a certificate give at each point what `sweep` finds, and a read
//! outside of the class is swept.
ghost use Rattle.std.specs.Prelude.{◌≡◌, IfOk};
ghost use Rattle.process_derive.specs.Derived.{net};

use crate::bound::{Made, is_accepted, make};
use affine_core::{Form, KeptForm, Vector};
use net_core::Network;
use process_derive::derive;
use sanlp::{Points, Tag};
use shadow_sweep::sweep;
use source_tree::{Origin, SourceTable, Tree};
use std::alloc::{AllocError, Global};
use std::test::Fail;
use witness_plan::{Policy, plan, with_capacities};

const RUNNING_SUM: &[u8] =
    b"param N; in x[N]; out s[N]; for (i = 0; i < N; i++) s[i] = s[i-1] + x[i];";

const DELAYED: &[u8] =
    b"param N; out y[N]; var t; for (i = 0; i < N; i++) { y[i] = t; t = i; t = t + 10; }";

const TWO_CASES: &[u8] = b"param N; in x[N]; out y[N]; var a[N]; \
    for (i = 0; i < N; i++) { if (i < 2) { a[i] = x[i]; } else { a[i] = 0 - x[i]; } } \
    for (i = 0; i < N; i++) y[i] = a[i];";

const PRODUCT: &[u8] = b"param N; in A[N][N], B[N][N]; out C[N][N]; \
    for (i = 0; i < N; i++) for (j = 0; j < N; j++) { C[i][j] = 0; \
    for (k = 0; k < N; k++) C[i][j] = C[i][j] + A[i][k] * B[k][j]; }";

const STENCIL: &[u8] = b"param N; inout a[N][N]; \
    for (t = 0; t < N; t++) for (i = 1; i < N - 1; i++) for (j = 1; j < N - 1; j++) \
    a[i][j] = a[i-1][j-1] + a[i-1][j] + a[i][j] + a[i][j+1] + a[i+1][j-1] + a[i+1][j+1];";

const STRIDED: &[u8] = b"param N; in x[N]; out y[N]; var a[N]; \
    for (i = 0; i < N; i++) a[2*i] = x[i]; for (i = 0; i < N; i++) y[i] = a[i];";

// Writers with guards that each read the others' cells, also at free forms: the trees take tests between points, points that
// come one by the text before the other, and leaves that nothing meets.
const FOUR_WRITERS: &[u8] = b"param N; out a[N]; for (i = 0; i < N; i++) for (j = i; j < N; j++) { \
    if (i >= 0) { a[i] = a[i] + a[j]; } if (i >= 1) { a[i+5] = a[i-1] + a[j+1]; } \
    if (i >= 2) { a[i+3] = a[i-2] + a[j+2]; } a[j-1] = a[2*i-j] + a[3*j]; }";

fn value(form: &Form, at: &[i64]) -> Option<i128> {
    let mut total = form.constant;
    for (coef, value) in form.coefs.as_slice().iter().zip(at) {
        total = total.checked_add(coef.checked_mul(i128::from(*value))?)?;
    }
    Some(total)
}

// Whether these forms have the values of this point.
fn have_values(forms: &[KeptForm], at: &[i64], point: &[i64]) -> bool {
    forms.len() == point.len()
        && forms.iter().zip(point).all(|(form, wanted)| value(&form.get(), at)
            == Some(i128::from(*wanted)))
}

// The leaf that a tree without Divides comes to at these loop values.
fn leaf<'a>(tree: &'a Tree, at: &[i64]) -> Option<&'a Tree> {
    match tree {
        Tree::Test(form, above, below) => {
            if value(&form.get(), at)? >= 0 {
                leaf(above.get(), at)
            } else {
                leaf(below.get(), at)
            }
        }
        Tree::Divides(..) => None,
        _ => Some(tree),
    }
}

// Whether the tree gives this write, or none, at these loop values.
fn gives(tree: &Tree, at: &[i64], points: &Points, wanted: Option<Tag>) -> bool {
    match (leaf(tree, at), wanted) {
        (Some(Tree::Zero(_)), None) => true,
        (Some(Tree::Writer(statement, place, _)), Some(tag)) => {
            let Some(vectors) = points.of.get(tag.process as usize) else {
                return false;
            };
            let Some(point) = vectors.get(tag.turn as usize) else {
                return false;
            };
            *statement == tag.process && have_values(place.as_slice(), at, point.as_slice())
        }
        _ => false,
    }
}

// Whether the tree gives these writes at the points of its reader, one after the other.
fn gives_all(tree: &Tree, vectors: &[Vector], points: &Points, wanted: &[Option<Tag>]) -> bool {
    vectors.len() == wanted.len()
        && vectors
            .iter()
            .zip(wanted)
            .all(|(at, tag)| gives(tree, at.as_slice(), points, *tag))
}

// Whether each read has a tree, which gives at the points of its reader what the table says.
fn are_right(made: &Made, table: &SourceTable) -> bool {
    let mut reads = made.cert.sources.as_slice().iter().zip(table.of.as_slice());
    let statements = made.nest.statements.as_slice();
    for (reader, vectors) in statements.iter().zip(made.points.of.as_slice()) {
        for _ in 0..reader.reads.len() {
            let Some((Origin::Tree(tree), wanted)) = reads.next() else {
                return false;
            };
            if !gives_all(
                tree.get(),
                vectors.as_slice(),
                &made.points,
                wanted.as_slice(),
            ) {
                return false;
            }
        }
    }
    reads.next().is_none()
}

// Whether each read has a tree, which gives at the points of its reader what `sweep` finds, and the checker accepts them.
fn all_have_trees(alloc: Global, made: &Made) -> Result<bool, AllocError> {
    let table = sweep(alloc, &made.nest, &made.points)?;
    let are_right = are_right(made, &table);
    drop(table);
    Ok(is_accepted(alloc, made)? && are_right)
}

// Sources with values of N, and a policy.
static IN_CLASS: [(&[u8], &[i64], Policy); 6] = [
    (RUNNING_SUM, &[0, 1, 2, 3, 4], Policy::Seq),
    (DELAYED, &[0, 1, 2, 3, 4], Policy::Down),
    (TWO_CASES, &[0, 1, 2, 3, 4], Policy::Seq),
    (PRODUCT, &[2], Policy::Seq),
    (STENCIL, &[4], Policy::Seq),
    (FOUR_WRITERS, &[4], Policy::Down),
];

#[test]
fn each_read_has_a_right_tree(rt: HostRuntime) -> Result<(), Fail> {
    for (source, values, policy) in &IN_CLASS {
        for n in *values {
            let made = make(rt.alloc(), *source, *n, *policy)?;
            let are_right = all_have_trees(rt.alloc(), &made);
            drop(made);
            assert!(rt; are_right?);
        }
    }
    Ok(())
}

#[test]
fn reads_outside_of_the_class_are_swept(rt: HostRuntime) -> Result<(), Fail> {
    let made = make(rt.alloc(), STRIDED, 3, Policy::Seq)?;
    let are_right = matches!(
        made.cert.sources.as_slice(),
        [Origin::Tree(_), Origin::Sweep, Origin::Tree(_)]
    );
    let is_accepted = is_accepted(rt.alloc(), &made);
    drop(made);
    assert!(rt; are_right && is_accepted?);
    Ok(())
}

// The network of a nest with the number of its tokens as each capacity.
fn derived(alloc: Global, made: &Made) -> Result<Network, AllocError>
    ensures { IfOk result (λ network. network ≡ net made.now.nest) }
{
    let table = sweep(alloc, &made.nest, &made.points)?;
    let network = derive(alloc, &made.nest, &made.points, &table);
    drop(table);
    network
}

// The capacities that the schedule of such a network needs.
fn capacities(
    alloc: Global,
    made: &Made,
    network: &Network,
    policy: Policy,
) -> Result<Vec<u32>, AllocError>
    requires { network.now ≡ net made.now.nest }
{
    let witness = plan(alloc, &made.nest, &made.points, network, policy)?;
    Ok(witness.capacities.into_vec())
}

// Whether a network is the one that is made step by step of the points.
fn is_made_of_points(alloc: Global, made: &Made, policy: Policy) -> Result<bool, AllocError> {
    let network = derived(alloc, made)?;
    let capacities = capacities(alloc, made, &network, policy)?;
    let network = with_capacities(alloc, network, &capacities)?;
    Ok(network.same(&made.network))
}

static OF_POINTS: [(&[u8], i64, Policy); 2] = [
    (RUNNING_SUM, 3, Policy::Seq),
    (PRODUCT, 2, Policy::Down),
];

// The network that is made step by step is that of `compile`, which the checker accepts.
#[test]
fn networks_made_of_points_are_accepted(rt: HostRuntime) -> Result<(), Fail> {
    for (source, n, policy) in &OF_POINTS {
        let made = make(rt.alloc(), *source, *n, *policy)?;
        let is_same = is_made_of_points(rt.alloc(), &made, *policy);
        let is_accepted = is_accepted(rt.alloc(), &made);
        drop(made);
        assert!(rt; is_same? && is_accepted?);
    }
    Ok(())
}
