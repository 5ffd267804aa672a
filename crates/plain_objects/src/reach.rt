//! Which objects are reached, marked in rounds.

ghost use Rattle.std.specs.Prelude.{◌≡◌, IfOk, length, ◌≤◌, vec_capacity};
ghost use Rattle.kernel_types.specs.Reach.{is_in, is_marked_holder, spread, is_held, rounds, reached_by};
ghost use Rattle.std.specs.List.{filter};

use crate::names::Naming;
use kernel_values::NoMemory;
use std::alloc::Global;

/// Whether the object is marked.
pub fn is_in(marked: &[u64], object: u64) -> bool
    ensures { result ≡ is_in marked.now object }
{
    for mark in marked {
        if *mark == object {
            return true;
        }
    }
    false
}

/// Whether an entry's holder is marked; an entry that no object holds is a root.
fn is_marked_holder(marked: &[u64], holder: Option<u64>) -> bool
    ensures { result ≡ is_marked_holder marked.now holder }
{
    match holder {
        Some(holder) => is_in(marked, holder),
        None => true,
    }
}

/// What roots and marked objects name, within the room of the list.
fn spread(names: &[Naming], marked: &[u64], more: &mut Vec<u64>)
    requires { length names.now ≤ vec_capacity more.old }
    ensures items { more.new.items ≡ spread names.now marked.now }
    ensures few { length more.new.items ≤ length names.now }
    ensures room { vec_capacity more.new ≡ vec_capacity more.old }
{
    more.clear();
    for name in names {
        if is_marked_holder(marked, name.holder) {
            more.push_reserved(name.object);
        }
    }
}

/// How many entries some object holds.
fn count_held(names: &[Naming]) -> usize
    ensures value { result ≡ length (filter is_held names.now) }
    ensures bound { result ≤ length names.now }
{
    let mut count = 0;
    for name in names {
        if name.holder.is_some() {
            count += 1;
        }
    }
    count
}

/// The list holds these numbers instead, within its room.
fn write_all(list: &mut Vec<u64>, numbers: &[u64])
    requires { length numbers.now ≤ vec_capacity list.old }
    ensures items { list.new.items ≡ numbers.now }
    ensures room { vec_capacity list.new ≡ vec_capacity list.old }
{
    list.clear();
    for number in numbers {
        list.push_reserved(*number);
    }
}

/// One round of marks, from those of the round before.
fn mark_round(names: &[Naming], marked: &mut Vec<u64>, more: &mut Vec<u64>)
    requires marks { length names.now ≤ vec_capacity marked.old }
    requires rooms { length names.now ≤ vec_capacity more.old }
    ensures items { marked.new.items ≡ spread names.now marked.old.items }
    ensures marks { vec_capacity marked.new ≡ vec_capacity marked.old }
    ensures rooms { vec_capacity more.new ≡ vec_capacity more.old }
{
    spread(names, marked.as_slice(), more);
    write_all(marked, more.as_slice());
}

/// Marks in so many rounds.
fn mark_rounds(names: &[Naming], turns: usize, marked: &mut Vec<u64>, more: &mut Vec<u64>)
    requires marks { length names.now ≤ vec_capacity marked.old }
    requires rooms { length names.now ≤ vec_capacity more.old }
    ensures items { marked.new.items ≡ rounds turns names.now }
    ensures marks { vec_capacity marked.new ≡ vec_capacity marked.old }
    ensures rooms { vec_capacity more.new ≡ vec_capacity more.old }
{
    marked.clear();
    for _turn in 0..turns {
        mark_round(names, marked, more);
    }
}

/// The objects that are reached over the entries, within the room of two lists.
#[tactic(auto, unfolding(kernel_types::specs::Reach::reached_by))]
pub fn mark_reached(names: &[Naming], marked: &mut Vec<u64>, more: &mut Vec<u64>)
    requires marks { length names.now ≤ vec_capacity marked.old }
    requires rooms { length names.now ≤ vec_capacity more.old }
    ensures items { marked.new.items ≡ reached_by names.now }
    ensures marks { vec_capacity marked.new ≡ vec_capacity marked.old }
    ensures rooms { vec_capacity more.new ≡ vec_capacity more.old }
{
    let turns = count_held(names) + 1;
    mark_rounds(names, turns, marked, more);
}

/// The same in lists of their own.
pub fn reached(alloc: Global, names: &[Naming]) -> Result<Vec<u64>, NoMemory>
    ensures { IfOk result (λ marked. marked.items ≡ reached_by names.now) }
{
    let mut marked = Vec::with_capacity(alloc, names.len())?;
    let mut more = Vec::with_capacity(alloc, names.len())?;
    mark_reached(names, &mut marked, &mut more);
    Ok(marked)
}
