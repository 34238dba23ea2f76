//! Whether a volume may decide so, and the step with what it decides.

ghost use Rattle.std.specs.Prelude.{◌≡◌, IfOk, IfSome, IsTrue, None, Ok, flat_map, is_some};
ghost use Rattle.std.specs.List.{list_any};
ghost use Rattle.table_model.specs.Tables.{versions_in};
ghost use Rattle.table_model.specs.Machines.{IsMachine};
ghost use Rattle.table_model.specs.Requests.{request_of, is_request};
ghost use Rattle.table_model.specs.Needs.{need, charge, pages_need};
ghost use Rattle.table_model.specs.Steps.{Allows, Step};
ghost use Rattle.table_picks.specs.Picks.{lies_at, is_vacant, takes_none, asks, within_need, is_allowed};

use ex_base::{Area, Geometry, Place, delete_need, growth_need, replace_need};
use std::alloc::{AllocError, Global};
use table_lists::given_count;
use table_model::{Command, Machine, Object, Pick, Reply, TableFile, Version};
use table_reference::{
    EDIT_CHARGE, FILE_CHARGE, FILE_PAGES, RECORD_CHARGE, RECORD_PAGES, edit_need, shown, step_plain,
};

fn lies_among(versions: &[Version], place: &Place) -> bool
    ensures { result ≡ list_any (lies_at place.now) versions.now }
{
    for version in versions {
        if version.oid.page.0 == place.page.0 && version.oid.slot == place.slot {
            return true;
        }
    }
    false
}

fn lies_in_objects(objects: &[Object], place: &Place) -> bool
    ensures { result ≡ list_any (lies_at place.now) (flat_map (λ o. o.versions) objects.now) }
{
    for object in objects {
        if lies_among(object.versions.as_slice(), place) {
            return true;
        }
    }
    false
}

fn lies_in_files(files: &[TableFile], place: &Place) -> bool
    ensures { result ≡ list_any (lies_at place.now) (flat_map versions_in files.now) }
{
    for file in files {
        if lies_in_objects(file.objects.as_slice(), place) {
            return true;
        }
    }
    false
}

fn is_vacant(machine: &Machine, pick: &Pick) -> bool
    ensures { result ≡ is_vacant machine.now pick.now }
{
    !lies_in_files(shown(machine).files.as_slice(), &pick.place)
}

fn takes_none(machine: &Machine, pick: &Pick) -> bool
    ensures { result ≡ takes_none machine.now pick.now }
{
    let pages = pick.pages <= machine.pages_used;
    let segs = pick.segs <= machine.segs_used;
    pages && segs
}

/// What is asked of some commands.
fn asks(machine: &Machine, command: &Command, pick: &Pick) -> bool
    ensures { result ≡ asks machine.now (request_of command.now) pick.now }
{
    match command {
        Command::Commit | Command::Abort | Command::Close { .. } => takes_none(machine, pick),
        Command::Create { .. } | Command::Freeze { .. } | Command::Derive { .. } => {
            is_vacant(machine, pick)
        }
        Command::Begin
        | Command::Checkpoint
        | Command::Log
        | Command::Files
        | Command::Space
        | Command::File { .. }
        | Command::Unfile { .. }
        | Command::List { .. }
        | Command::Destroy { .. }
        | Command::Size { .. }
        | Command::Stat { .. }
        | Command::Digest { .. }
        | Command::Versions { .. }
        | Command::DropVersion { .. }
        | Command::Read { .. }
        | Command::Insert { .. }
        | Command::Append { .. }
        | Command::Replace { .. }
        | Command::Delete { .. }
        | Command::Group { .. }
        | Command::Scan { .. }
        | Command::Next { .. } => true,
    }
}

/// So many pages and no segment unit.
fn pages_need(pages: u64, area: Area) -> u64
    ensures { result ≡ pages_need pages area }
{
    match area {
        Area::Page => pages,
        Area::Segment => 0,
    }
}

/// The units of the area that the command takes at most.
fn need_of(
    alloc: Global,
    geometry: &Geometry,
    command: &Command,
    pick: &Pick,
    area: Area,
) -> Result<u64, AllocError>
    requires { IsTrue (is_request (request_of command.now)) }
    ensures { IfOk result (λ n. n ≡ need geometry.now (request_of command.now) pick.now area) }
{
    match command {
        Command::Insert { given, .. } => {
            let n = given_count(alloc, given)?;
            let most = growth_need(geometry, n, pick.height, area);
            Ok(edit_need(n, pick, most))
        }
        Command::Append { given, .. } => {
            let n = given_count(alloc, given)?;
            let most = growth_need(geometry, n, pick.height, area);
            Ok(edit_need(n, pick, most))
        }
        Command::Replace { given, .. } => {
            let n = given_count(alloc, given)?;
            let most = replace_need(geometry, n, pick.height, area);
            Ok(edit_need(n, pick, most))
        }
        Command::Delete { len, .. } => Ok(edit_need(*len, pick, delete_need(pick.height, area))),
        Command::Create { .. } | Command::Freeze { .. } | Command::Derive { .. } => {
            Ok(pages_need(RECORD_PAGES, area))
        }
        Command::File { .. } => Ok(pages_need(FILE_PAGES, area)),
        Command::Begin
        | Command::Commit
        | Command::Abort
        | Command::Checkpoint
        | Command::Log
        | Command::Files
        | Command::Space
        | Command::Unfile { .. }
        | Command::List { .. }
        | Command::Destroy { .. }
        | Command::Size { .. }
        | Command::Stat { .. }
        | Command::Digest { .. }
        | Command::Versions { .. }
        | Command::DropVersion { .. }
        | Command::Read { .. }
        | Command::Group { .. }
        | Command::Scan { .. }
        | Command::Next { .. }
        | Command::Close { .. } => Ok(0),
    }
}

/// The logged pages that the command touches at most.
fn charge_of(command: &Command) -> u32
    ensures { result ≡ charge (request_of command.now) }
{
    match command {
        Command::Insert { .. }
        | Command::Append { .. }
        | Command::Replace { .. }
        | Command::Delete { .. } => EDIT_CHARGE,
        Command::Create { .. }
        | Command::Freeze { .. }
        | Command::Derive { .. }
        | Command::Destroy { .. }
        | Command::DropVersion { .. } => RECORD_CHARGE,
        Command::File { .. } | Command::Unfile { .. } => FILE_CHARGE,
        Command::Begin
        | Command::Commit
        | Command::Abort
        | Command::Checkpoint
        | Command::Log
        | Command::Files
        | Command::Space
        | Command::List { .. }
        | Command::Size { .. }
        | Command::Stat { .. }
        | Command::Digest { .. }
        | Command::Versions { .. }
        | Command::Read { .. }
        | Command::Group { .. }
        | Command::Scan { .. }
        | Command::Next { .. }
        | Command::Close { .. } => 0,
    }
}

fn within_need(
    alloc: Global,
    machine: &Machine,
    command: &Command,
    pick: &Pick,
) -> Result<bool, AllocError>
    requires { IsTrue (is_request (request_of command.now)) }
    ensures { IfOk result
        (λ holds. holds ≡ within_need machine.now (request_of command.now) pick.now) }
{
    let geometry = &machine.geometry;
    let pages = need_of(alloc, geometry, command, pick, Area::Page)?;
    let segs = need_of(alloc, geometry, command, pick, Area::Segment)?;
    let charge = charge_of(command);
    let few_pages = u128::from(pick.pages) <= u128::from(machine.pages_used) + u128::from(pages);
    let few_segs = u128::from(pick.segs) <= u128::from(machine.segs_used) + u128::from(segs);
    let few_touched = u64::from(pick.touched) <= u64::from(machine.touched) + u64::from(charge);
    Ok(few_pages && few_segs && few_touched)
}

/// The test of a decision.
fn test_of(
    alloc: Global,
    machine: &Machine,
    command: &Command,
    pick: &Pick,
) -> Result<bool, AllocError>
    requires { IsTrue (is_request (request_of command.now)) }
    ensures { IfOk result
        (λ holds. holds ≡ is_allowed machine.now (request_of command.now) pick.now) }
{
    let within = within_need(alloc, machine, command, pick)?;
    let asked = asks(machine, command, pick);
    Ok(asked && (charge_of(command) == 0 || within))
}

/// Whether a volume may decide so at the command. Where it says so, the step may be taken.
fn is_allowed(
    alloc: Global,
    machine: &Machine,
    command: &Command,
    pick: &Pick,
) -> Result<bool, AllocError>
    requires { IsTrue (is_request (request_of command.now)) }
    ensures test { IfOk result (λ holds. holds
        ≡ is_allowed machine.now (request_of command.now) pick.now) }
    ensures allows { IfOk result (λ holds. IsTrue holds
        → Allows machine.now (request_of command.now) pick.now) }
{
    test_of(alloc, machine, command, pick)
}

/// Steps the slow reference on the command, with what the volume decides; nothing happens, and it answers None, where no volume may decide so.
pub fn step_decided(
    alloc: Global,
    machine: &mut Machine,
    command: &Command,
    pick: &Pick,
) -> Result<Option<Reply>, AllocError>
    requires form { IsTrue (is_request (request_of command.now)) }
    requires machine { IsMachine machine.old }
    ensures decides { IfOk result (λ told. is_some told
        ≡ is_allowed machine.old (request_of command.now) pick.now) }
    ensures step { IfOk result (λ told. IfSome told
        (λ reply. Step machine.old (request_of command.now) pick.now reply machine.new)) }
    ensures refused { result ≡ Ok None → machine.new ≡ machine.old }
    ensures rules { IsMachine machine.new }
{
    if !is_allowed(alloc, machine, command, pick)? {
        return Ok(None);
    }
    let reply = step_plain(alloc, machine, command, pick)?;
    Ok(Some(reply))
}
