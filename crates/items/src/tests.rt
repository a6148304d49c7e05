//! The types at concrete elements and inside a type that reaches itself, and the shapes in which
//! the clause `Gives` is used: two steps through `?`, a loop that makes a list, and a call with an
//! error type of its own.
ghost use Rattle.std.specs.Prelude.{◌≡◌, ◌-◌, true, Option, Some, None, if◌then◌else◌, IfOk};
ghost use Rattle.items.specs.Gives.{Gives};
ghost use Rattle.items.specs.Examples.{byte_sum, byte_sum_of_three, doubles_of};

use super::*;
use std::alloc::{AllocError, AllocFailed, Global};
use std::cmp::Ordering;
use std::convert::AsSlice;
use std::hash::{DefaultHasher, Hash, Hasher};
use std::test::Fail;

/// A type that reaches itself through both.
#[derive(Clone, PartialEq, Eq, PartialOrd, Ord, Hash, Debug, Drop)]
enum NestedTree {
    Leaf(u8),
    Under(Boxed<NestedTree>),
    Fork(Items<NestedTree>),
}

#[derive(Clone, PartialEq, Eq, Debug, Drop)]
struct Numbers {
    all: Items<u8>,
    first: Boxed<u8>,
}

/// `≡` on a type with such fields is equality of content, so a copy equals what it copies.
fn copy_of(numbers: &Numbers) -> Result<Numbers, AllocError>
    ensures { IfOk result (λ copy. copy ≡ numbers.now) }
{
    numbers.clone()
}

/// A sum past a byte, or want of memory.
#[derive(Clone, Copy, PartialEq, Eq, Debug)]
struct SumError {
    memory: bool,
    sum: u16,
}

fn sum(left: u8, right: u8) -> Result<u8, SumError>
    ensures { Gives (λ e. if e.memory then None else Some e.sum) (λ x. x) result
        (byte_sum left right) }
{
    left.checked_add(right).ok_or(SumError {
        memory: false,
        sum: u16::from(left) + u16::from(right),
    })
}

/// Two steps through `?`.
fn sum_of_three(a: u8, b: u8, c: u8) -> Result<u8, SumError>
    ensures { Gives (λ e. if e.memory then None else Some e.sum) (λ x. x) result
        (byte_sum_of_three a b c) }
{
    let s = sum(a, b)?;
    sum(s, c)
}

/// How far a number's double is past a byte, or want of memory.
#[derive(Clone, Copy, PartialEq, Eq, Debug)]
struct DoubleError {
    memory: bool,
    past: u16,
}

impl<T: Drop> From<AllocFailed<T>> for DoubleError {
    ghost from_gives = { λ _ e. e.memory ≡ true };

    fn from(_failed: AllocFailed<T>) -> DoubleError {
        DoubleError {
            memory: true,
            past: 0,
        }
    }
}

impl From<SumError> for DoubleError {
    ghost from_gives = { λ e d. (d.memory ≡ e.memory) × (d.past ≡ e.sum - 255) };

    fn from(error: SumError) -> DoubleError {
        DoubleError {
            memory: error.memory,
            past: error.sum.saturating_sub(255),
        }
    }
}

/// A loop that makes a list, with a step whose error type is another one.
fn doubles(alloc: Global, numbers: &[u8]) -> Result<Items<u8>, DoubleError>
    ensures { Gives (λ e. if e.memory then None else Some e.past) (λ made. made) result
        (doubles_of numbers.now) }
{
    let mut made = Items::new(alloc);
    for x in numbers {
        made.push(sum(*x, *x)?)?;
    }
    Ok(made)
}

fn fork(alloc: Global, leaves: &[u8]) -> Result<NestedTree, AllocError> {
    let mut all = Items::new(alloc);
    for leaf in leaves {
        all.push(NestedTree::Leaf(*leaf))?;
    }
    Ok(NestedTree::Fork(all))
}

#[test]
fn lists_grow_and_shrink(rt: HostRuntime) -> Result<(), Fail> {
    let mut list = Items::from_slice(rt.alloc(), &[3u8, 1])?;
    assert_eq!(rt; list.pop(), Some(1));
    list.push(4)?;
    list.append(Items::from_vec(vec![in rt.alloc(); 1, 5]?))?;
    assert_eq!(rt; list.into_vec().as_slice(), [3, 4, 1, 5].as_slice());
    Ok(())
}

#[test]
fn lists_are_slices(rt: HostRuntime) -> Result<(), Fail> {
    let list = Items::from_slice(rt.alloc(), &[3u8, 4, 1, 5])?;
    assert_eq!(rt; list.as_slice(), [3, 4, 1, 5].as_slice());
    assert_eq!(rt; AsSlice::as_slice(&list), [3, 4, 1, 5].as_slice());
    assert_eq!(rt; list.len(), 4);
    assert!(rt; !list.is_empty() && Items::<u8>::new(rt.alloc()).is_empty());
    assert_eq!(rt; list.iter().filter(|x| **x > 2).count(), 3);
    assert_eq!(rt; list.first(), Some(&3));
    Ok(())
}

/// The elements that a loop over the list sees, and then those that a loop takes out of a copy.
fn seen_twice(alloc: Global, list: &Items<u8>) -> Result<Items<u8>, AllocError> {
    let mut seen = Items::new(alloc);
    for x in list {
        seen.push(*x)?;
    }
    for x in list.clone()? {
        seen.push(x)?;
    }
    Ok(seen)
}

#[test]
fn loops_go_over_lists(rt: HostRuntime) -> Result<(), Fail> {
    let list = Items::from_slice(rt.alloc(), &[3u8, 4, 1])?;
    let seen = seen_twice(rt.alloc(), &list)?;
    assert_eq!(rt; seen.as_slice(), [3, 4, 1, 3, 4, 1].as_slice());
    Ok(())
}

#[test]
fn boxes(rt: HostRuntime) -> Result<(), Fail> {
    let boxed = Boxed::new(rt.alloc(), 7u8)?;
    assert_eq!(rt; *boxed, 7);
    assert_eq!(rt; boxed.clone()?.into_inner(), 7);
    let numbers = Numbers {
        all: Items::from_slice(rt.alloc(), &[1, 2])?,
        first: boxed,
    };
    assert_eq!(rt; copy_of(&numbers)?, numbers);
    Ok(())
}

#[test]
fn trees_compare_by_content(rt: HostRuntime) -> Result<(), Fail> {
    let small = fork(rt.alloc(), &[1, 2])?;
    assert_eq!(rt; small, small.clone()?);
    let large = NestedTree::Under(Boxed::new(rt.alloc(), fork(rt.alloc(), &[1, 3])?)?);
    assert_ne!(rt; small, large);
    Ok(())
}

#[test]
fn trees_are_ordered_by_content(rt: HostRuntime) -> Result<(), Fail> {
    let small = fork(rt.alloc(), &[1, 2])?;
    assert_eq!(rt; small.cmp(&fork(rt.alloc(), &[1, 3])?), Ordering::Less);
    assert_eq!(rt;
        fork(rt.alloc(), &[2])?.partial_cmp(&small),
        Some(Ordering::Greater)
    );
    Ok(())
}

#[test]
fn trees_are_hashed_by_content(rt: HostRuntime) -> Result<(), Fail> {
    let small = fork(rt.alloc(), &[1, 2])?;
    let same = fork(rt.alloc(), &[1, 2])?;
    assert_eq!(rt; hash_of(&small), hash_of(&same));
    Ok(())
}

fn hash_of<T: Hash>(value: &T) -> u64 {
    let mut state = DefaultHasher::new();
    value.hash(&mut state);
    state.finish()
}

#[test]
fn faults_are_exact(rt: HostRuntime) -> Result<(), Fail> {
    assert_eq!(rt; sum_of_three(1, 2, 3), Ok(6));
    let past = SumError {
        memory: false,
        sum: 300,
    };
    assert_eq!(rt; sum_of_three(100, 100, 100), Err(past));
    let made = doubles(rt.alloc(), &[1, 127]);
    assert_eq!(rt; made?.as_slice(), [2, 254].as_slice());
    let past = DoubleError {
        memory: false,
        past: 1,
    };
    assert_eq!(rt; doubles(rt.alloc(), &[1, 128, 200]).err(), Some(past));
    Ok(())
}
