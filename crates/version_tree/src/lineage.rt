//! The versions of an object in the order in which they are listed.
ghost use Rattle.std.specs.Prelude.{◌≡◌, ◌++◌, ◌∷◌, [], if◌then◌else◌, ℕ, List, length, map, reverse, IfErr, IfOk, OnOk};
ghost use Rattle.ex_base.specs.Ports.{HasCause, IsDamage};
ghost use Rattle.ex_base.specs.declared.names.Oid.{Oid};
ghost use Rattle.versions.specs.Versions.{place_of};
ghost use Rattle.version_tree.specs.Lineage.{below, comes_from, first_from, listed, listed_from, member_at, older_at, stands_at};
ghost use Rattle.version_tree.specs.Lookup.{Rises};
ghost use Rattle.version_tree.specs.declared.lookup.Order.TheVariants.{ByPlace, ByOlder};
ghost use Rattle.version_tree.specs.declared.lineage.Member.{Member};

use crate::links::is_at;
use crate::lookup::{Order, in_order, run_at};
use ex_base::{Oid, Place, PortFault};
use object_records::Head;
use std::alloc::Global;
use versions::{oid_at, place_of};

/// A version among those of its file: its OID, and the place of the one that it is derived from.
#[derive(Debug, Clone, Copy)]
pub struct Member {
    /// The version.
    pub oid: Oid,
    /// Where its older version stands.
    pub older: Option<Place>,
}

/// A version that is still to be listed, with what is derived from it, so many levels deep.
#[derive(Clone, Copy)]
pub(crate) struct Rest {
    pub(crate) member: Member,
    pub(crate) levels: usize,
}

/// What is told of a version by its place and its head.
pub(crate) fn member_at(place: Place, head: &Head) -> Member
    ensures { result ≡ member_at place head.now }
{
    Member {
        oid: oid_at(place, head.unique),
        older: head.older,
    }
}

/// Whether a version stands at a place.
fn stands_at(member: &Member, place: Place) -> bool
    ensures { result ≡ stands_at place member.now }
{
    member.oid.page.0 == place.page.0 && member.oid.slot == place.slot
}

/// Whether a version is derived from another.
fn comes_from(member: &Member, from: &Member) -> bool
    ensures { result ≡ comes_from (place_of from.now.oid) member.now }
{
    match member.older {
        None => false,
        Some(at) => at.page.0 == from.oid.page.0 && at.slot == from.oid.slot,
    }
}

/// The version that one is derived from, among versions in order of their places.
fn older_at(by_place: &[Member], older: Option<Place>) -> Option<Member>
    requires { Rises ByPlace by_place.now }
    ensures { result ≡ older_at by_place.now older }
{
    let Some(place) = older else {
        return None;
    };
    let run = run_at(by_place, Order::ByPlace, place);
    'members: for member in run {
        if stands_at(member, place) {
            return Some(*member);
        }
    }
    None
}

/// The first version of the object of one, among versions in order of their places: from each the step to its older one leads to it.
fn first_from(by_place: &[Member], from: Member) -> Member
    requires { Rises ByPlace by_place.now }
    ensures { result ≡ first_from (length by_place.now) by_place.now from }
{
    let mut member = from;
    let mut steps = by_place.len();
    'steps: while steps > 0 {
        let Some(older) = older_at(by_place, member.older) else {
            return member;
        };
        member = older;
        steps -= 1;
    }
    member
}

/// Puts a version behind those that are to be listed, where it is derived from another.
fn put_below(
    rests: &mut Vec<Rest>,
    from: &Member,
    member: &Member,
    levels: usize,
) -> Result<(), PortFault>
    ensures put { OnOk result (rests.new.items ≡ rests.old.items
        ++ (if comes_from (place_of from.now.oid) member.now
        then record { member = member.now; levels = levels } ∷ [] else [])) }
    ensures no_damage { IfErr result (λ fault. IsDamage fault → ⊥) }
    ensures cause { (before now : ℕ) → HasCause before now result }
{
    if !comes_from(member, from) {
        return Ok(());
    }
    let rest = Rest {
        member: *member,
        levels,
    };
    match rests.push(rest) {
        Ok(()) => Ok(()),
        Err(_) => Err(PortFault::Memory),
    }
}

/// What is to be listed behind a version, in order, among versions in order of the places of their older ones.
fn below(alloc: Global, by_older: &[Member], rest: &Rest) -> Result<Vec<Rest>, PortFault>
    requires { Rises ByOlder by_older.now }
    ensures below { IfOk result (λ rests. rests.items
        ≡ below rest.now.levels by_older.now rest.now.member) }
    ensures no_damage { IfErr result (λ fault. IsDamage fault → ⊥) }
    ensures cause { (before now : ℕ) → HasCause before now result }
{
    let mut rests = Vec::new(alloc);
    if rest.levels == 0 {
        return Ok(rests);
    }
    let levels = rest.levels - 1;
    let run = run_at(by_older, Order::ByOlder, place_of(&rest.member.oid));
    'members: for member in run {
        put_below(&mut rests, &rest.member, member, levels)?;
    }
    Ok(rests)
}

/// Lists a version next: its OID comes behind those that are listed, and what is derived from it is to be listed before what was to be.
fn list_next(
    alloc: Global,
    by_older: &[Member],
    next: &Rest,
    todo: &mut Vec<Rest>,
    oids: &mut Vec<Oid>,
) -> Result<(), PortFault>
    requires { Rises ByOlder by_older.now }
    ensures todo { OnOk result (todo.new.items ≡ todo.old.items
        ++ reverse (below next.now.levels by_older.now next.now.member)) }
    ensures oids { OnOk result (oids.new.items ≡ oids.old.items ++ next.now.member.oid ∷ []) }
    ensures no_damage { IfErr result (λ fault. IsDamage fault → ⊥) }
    ensures cause { (before now : ℕ) → HasCause before now result }
{
    let mut rests = below(alloc, by_older, next)?;
    rests.reverse();
    if todo.extend_from_slice(&rests).is_err() {
        return Err(PortFault::Memory);
    }
    match oids.push(next.member.oid) {
        Ok(()) => Ok(()),
        Err(_) => Err(PortFault::Memory),
    }
}

/// The versions of the object of one, among all versions of its file. It takes n log n steps.
pub(crate) fn list_members(
    alloc: Global,
    members: &[Member],
    member: Member,
) -> Result<Vec<Oid>, PortFault>
    ensures oids { IfOk result (λ oids. oids.items
        ≡ map (λ (m : Member). m.oid) (listed members.now member)) }
    ensures no_damage { IfErr result (λ fault. IsDamage fault → ⊥) }
    ensures cause { (before now : ℕ) → HasCause before now result }
{
    let places = in_order(alloc, members, Order::ByPlace)?;
    let olders = in_order(alloc, members, Order::ByOlder)?;
    let mut oids = Vec::new(alloc);
    let mut todo = Vec::new(alloc);
    let all = Rest {
        member: first_from(&places, member),
        levels: members.len(),
    };
    if todo.push(all).is_err() {
        return Err(PortFault::Memory);
    }
    'rests: while let Some(next) = todo.pop() {
        match list_next(alloc, &olders, &next, &mut todo, &mut oids) {
            Ok(()) => {}
            Err(fault) => return Err(fault),
        }
    }
    Ok(oids)
}
