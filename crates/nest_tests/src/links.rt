//! Tests of `ruled_links`.
ghost use Rattle.std.specs.Prelude.{◌≡◌, ◌<◌, ◌∷◌, [], IfOk};
ghost use Rattle.ruled_links.specs.Ports.{fresh, link_end};

use ruled_links::{GetEnd, Plan, PutEnd, link};
use std::alloc::{AllocError, Global};
use std::marker::Brand;
use std::sync::Wait;
use std::test::Fail;

// A link whose stream is the list.
fn link_of(alloc: Global, capacity: u32, xs: &[i64]) -> Result<(PutEnd, GetEnd), AllocError>
    requires { 0 < capacity }
    ensures { IfOk result
        (λ ends. (ends.0 ≡ link_end ends.0.line (fresh xs.now) capacity)
        × (ends.1 ≡ link_end ends.0.line (fresh xs.now) capacity)) }
{
    planned::<Brand>(alloc, capacity, xs)
}

fn planned<P: Plan>(
    alloc: Global,
    capacity: u32,
    xs: &[i64],
) -> Result<(PutEnd, GetEnd), AllocError>
    requires plan { P.streams ≡ xs.now ∷ [] }
    requires capacity { 0 < capacity }
    ensures { IfOk result
        (λ ends. (ends.0 ≡ link_end ends.0.line (fresh xs.now) capacity)
        × (ends.1 ≡ link_end ends.0.line (fresh xs.now) capacity)) }
{
    let _count = xs.len();
    link::<P>(alloc, capacity, 0)
}

// What comes of three values through a link that holds two.
fn three<R: Wait>(rt: &R, alloc: Global) -> Result<[i64; 3], AllocError> {
    let (mut writer, mut reader) = link_of(alloc, 2, &[5, -7, 9])?;
    writer.put(rt, 5);
    writer.put(rt, -7);
    let first = reader.get(rt);
    writer.put(rt, 9);
    let second = reader.get(rt);
    Ok([first, second, reader.get(rt)])
}

#[test]
fn values_come_in_order(rt: HostRuntime) -> Result<(), Fail> {
    assert!(rt; three(&rt, rt.alloc())? == [5, -7, 9]);
    Ok(())
}
