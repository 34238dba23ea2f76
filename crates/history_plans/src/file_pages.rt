// How many pages of files records may need.
ghost use Rattle.std.specs.Prelude.{◌≡◌, ◌-◌, ◌+◌, ◌/◌, ◌<◌, ◌≤◌, length, map, IfSome, IfNone};
ghost use Rattle.history_model.specs.FilePages.{pages_filled};
ghost use Rattle.history_plans.specs.Plans.{len_listed};

use record_lists::Listed;

/// The bytes of the head of a file's page.
const HEAD_LEN: usize = 16;

/// The bytes that tell of a record on its page.
const SLOT_LEN: usize = 4;

/// How many pages of a file an index page may have room for, with room to spare.
const INDEXED: u64 = 16;

/// How many pages a file needs at least for an index, and in which to begin.
const SPARE: u64 = 4;

/// What is left of the room of a page behind a record of so many bytes, where it fits.
fn room_left(room: usize, len: usize) -> Option<usize>
    ensures some { IfSome result (λ left. (len + 4 ≤ room) × (left ≡ room - (len + 4))) }
    ensures none { IfNone result (room < len + 4) }
{
    if room < SLOT_LEN || room - SLOT_LEN < len {
        return None;
    }
    Some(room - SLOT_LEN - len)
}

/// How many pages the records fill.
fn pages_filled(page_size: u32, records: &[Listed]) -> usize
    ensures filled { result ≡ pages_filled page_size 0 (map len_listed records.now) }
    ensures few { result ≤ length records.now }
{
    let mut room = 0;
    let mut pages = 0;
    for listed in records {
        match room_left(room, listed.len) {
            Some(left) => room = left,
            None => {
                pages += 1;
                room = (page_size as usize)
                    .saturating_sub(HEAD_LEN + SLOT_LEN)
                    .saturating_sub(listed.len);
            }
        }
    }
    pages
}

/// How many pages a file of these records may need, with those of its index.
pub(crate) fn pages_for(page_size: u32, records: &[Listed]) -> u64
    ensures { result ≡ pages_filled page_size 0 (map len_listed records.now)
        + pages_filled page_size 0 (map len_listed records.now) / 16 + 4 }
{
    let filled = pages_filled(page_size, records) as u64;
    filled + filled / INDEXED + SPARE
}
