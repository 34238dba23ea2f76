//! What the words of a command line ask for, and on which volume.
ghost use Rattle.std.specs.Prelude.{◌≡◌, ◌^◌, ◌≤◌, IfOk, MatchOption, unwrap_or};
ghost use Rattle.command_words.specs.Wishes.{texts, AsksOn, Asks, IsOutside, Means, MeansNothing, NamesFile, IsGeometryOf, bytes_made};

use crate::commands::CommandWord;
use crate::parse::{Given, given_by};
use crate::wish::Wish;
use ex_base::{Geometry, fan_max};
use std::alloc::{AllocError, Global};

/// The bytes of a page where `format` isn't told another number.
pub const PAGE_SIZE: u32 = 4096;

/// The pages, the units and the pages of a unit where `format` isn't told other ones.
const PAGES: u32 = 4096;

const SEGS: u32 = 16_384;

const SEG_LEN: u32 = 1;

/// The least fan.
pub const FAN_LEAST: u32 = 2;

/// The most bytes of a script or a schedule where `run` or `clients` isn't told another limit.
const SCRIPT_MOST: u64 = 1_099_511_627_776;

/// The most commands that `gen` makes.
pub const COUNT_MOST: u64 = 1_000_000;

/// What the words of a command line ask for, and on which volume.
#[derive(Clone, Copy, Debug)]
pub struct Request<'a> {
    /// What they ask for.
    pub wish: Wish,
    /// The word that names the volume.
    pub volume: &'a str,
}

/// The file that a command line names.
#[derive(Clone, Copy, Debug)]
pub struct NamedFile<'a> {
    /// The word that names it.
    pub path: &'a str,
    /// The bytes of the volume that is to be made, or none where it is to be there.
    pub make: Option<u64>,
}

/// What the words ask for, or none where they are no command line.
pub fn wish_of(alloc: Global, words: &[String]) -> Result<Option<Wish>, AllocError>
    ensures { IfOk result (λ o. MatchOption o (IsOutside (texts words.now))
        (λ wish. Asks (texts words.now) wish)) }
{
    match request_of(alloc, words)? {
        Some(request) => Ok(Some(request.wish)),
        None => Ok(None),
    }
}

/// The file that the words name, or none where they are no command line.
pub fn file_of<'a>(alloc: Global, words: &'a [String]) -> Result<Option<NamedFile<'a>>, AllocError>
    ensures { IfOk result (λ o. MatchOption o (IsOutside (texts words.entry.now))
        (λ file. NamesFile (texts words.entry.now) file.path.now file.make)) }
{
    match request_of(alloc, words)? {
        Some(request) => Ok(Some(NamedFile {
            path: request.volume,
            make: bytes_made(request.wish),
        })),
        None => Ok(None),
    }
}

// The bytes of the volume that a wish makes.
fn bytes_made(wish: Wish) -> Option<u64>
    ensures { result ≡ bytes_made wish }
{
    match wish {
        Wish::Format(geometry) => Some(geometry.volume_bytes()),
        Wish::Run { .. } | Wish::Check | Wish::Gen { .. } | Wish::Clients { .. } => None,
        Wish::Dump | Wish::Load | Wish::Pack => None,
    }
}

/// What the words ask for and on which volume, or none where they are no command line.
pub fn request_of<'a>(alloc: Global, words: &'a [String]) -> Result<Option<Request<'a>>, AllocError>
    ensures { IfOk result (λ o. MatchOption o (IsOutside (texts words.entry.now))
        (λ request. AsksOn (texts words.entry.now) request.wish request.volume.now)) }
{
    let Some((first, rest)) = words.split_first() else {
        return Ok(None);
    };
    let Some(command) = CommandWord::named(first.as_str()) else {
        return Ok(None);
    };
    let Some(Given { volume, numbers }) = given_by(alloc, command, rest)? else {
        return Ok(None);
    };
    match wish_by(command, numbers.as_slice()) {
        Some(wish) => Ok(Some(Request { wish, volume })),
        None => Ok(None),
    }
}

// What a command with these numbers for its options asks for.
fn wish_by(command: CommandWord, numbers: &[Option<u64>]) -> Option<Wish>
    ensures { MatchOption result (MeansNothing command numbers.now)
        (λ wish. Means command numbers.now wish) }
{
    match command {
        CommandWord::Format => format_by(numbers),
        CommandWord::Run => run_by(numbers),
        CommandWord::Check => Some(Wish::Check),
        CommandWord::Gen => gen_by(numbers),
        CommandWord::Clients => clients_by(numbers),
        CommandWord::Dump => Some(Wish::Dump),
        CommandWord::Load => Some(Wish::Load),
        CommandWord::Pack => Some(Wish::Pack),
    }
}

fn format_by(numbers: &[Option<u64>]) -> Option<Wish>
    ensures { MatchOption result (MeansNothing CommandWord.Format numbers.now)
        (λ wish. Means CommandWord.Format numbers.now wish) }
{
    let [page_size, pages, segs, seg_len, fan] = numbers else {
        return None;
    };
    match geometry_of(*page_size, *pages, *segs, *seg_len, *fan) {
        Some(geometry) => Some(Wish::Format(geometry)),
        None => None,
    }
}

fn run_by(numbers: &[Option<u64>]) -> Option<Wish>
    ensures { MatchOption result (MeansNothing CommandWord.Run numbers.now)
        (λ wish. Means CommandWord.Run numbers.now wish) }
{
    match numbers {
        [most] => Some(Wish::Run {
            most: most.unwrap_or(SCRIPT_MOST),
        }),
        _ => None,
    }
}

fn clients_by(numbers: &[Option<u64>]) -> Option<Wish>
    ensures { MatchOption result (MeansNothing CommandWord.Clients numbers.now)
        (λ wish. Means CommandWord.Clients numbers.now wish) }
{
    match numbers {
        [most] => Some(Wish::Clients {
            most: most.unwrap_or(SCRIPT_MOST),
        }),
        _ => None,
    }
}

fn gen_by(numbers: &[Option<u64>]) -> Option<Wish>
    ensures { MatchOption result (MeansNothing CommandWord.Gen numbers.now)
        (λ wish. Means CommandWord.Gen numbers.now wish) }
{
    let [Some(seed), Some(count)] = numbers else {
        return None;
    };
    if *count < 1 || *count > COUNT_MOST {
        return None;
    }
    Some(Wish::Gen {
        seed: *seed,
        count: *count as u32,
    })
}

// The geometry of these sizes, or of their defaults. By default the fan is the largest of the page size.
fn geometry_of(
    page_size: Option<u64>,
    pages: Option<u64>,
    segs: Option<u64>,
    seg_len: Option<u64>,
    fan: Option<u64>,
) -> Option<Geometry>
    ensures { MatchOption result
        ((g : Geometry) → IsGeometryOf page_size pages segs seg_len fan g → ⊥)
        (λ g. IsGeometryOf page_size pages segs seg_len fan g) }
{
    let page_size = size_or(page_size, PAGE_SIZE)?;
    let pages = size_or(pages, PAGES)?;
    let segs = size_or(segs, SEGS)?;
    let seg_len = size_or(seg_len, SEG_LEN)?;
    let Ok(narrow) = Geometry::make(page_size, pages, segs, seg_len, FAN_LEAST) else {
        return None;
    };
    let fan = size_or(fan, fan_max(narrow.page_size))?;
    match Geometry::make(page_size, pages, segs, seg_len, fan) {
        Ok(geometry) => Some(geometry),
        Err(_) => None,
    }
}

// A size as it is given, or its default.
fn size_or(given: Option<u64>, default: u32) -> Option<u32>
    ensures { MatchOption result (2 ^ 32 ≤ unwrap_or given default)
        (λ size. size ≡ unwrap_or given default) }
{
    match given {
        Some(size) => u32::try_from(size).ok(),
        None => Some(default),
    }
}
