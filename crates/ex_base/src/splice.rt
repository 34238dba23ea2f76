//! Bytes of a page that are replaced by others, with those behind them moved.
ghost use Rattle.std.specs.Prelude.{◌≡◌, ◌+◌, ◌-◌, ◌≤◌, ◌++◌, length, take, drop};
ghost use Rattle.ex_base.specs.Bytes.{bytes_at, written};
ghost use Rattle.ex_base.specs.Fields.{zeros};

use crate::fields::put_bytes;

/// Copies bytes of the page to another place of it.
fn move_bytes(image: &mut [u8], from: usize, end: usize, to: usize)
    requires inside { from ≤ end }
    requires source { end ≤ length image.old }
    requires target { to + (end - from) ≤ length image.old }
    ensures { image.new ≡ written image.old to (bytes_at image.old from (end - from)) }
{
    image.copy_within(from..end, to);
}

/// Makes bytes of the page zero.
fn clear_bytes(image: &mut [u8], from: usize, end: usize)
    requires inside { from ≤ end }
    requires room { end ≤ length image.old }
    ensures { image.new ≡ written image.old from (zeros (end - from)) }
{
    image[from..end].fill(0);
}

/// Puts bytes in the place of those from start to old_end, moves those up to end behind them, and zeros up to the limit.
pub fn replace_bytes(
    image: &mut [u8],
    start: usize,
    old_end: usize,
    end: usize,
    body: &[u8],
    limit: usize,
)
    requires old { start ≤ old_end }
    requires tail { old_end ≤ end }
    requires fits { start + length body.now + (end - old_end) ≤ limit }
    requires end { end ≤ limit }
    requires room { limit ≤ length image.old }
    ensures { image.new ≡ take start image.old ++ body.now
        ++ bytes_at image.old old_end (end - old_end)
        ++ zeros (limit - (start + length body.now + (end - old_end))) ++ drop limit image.old }
{
    let behind = start + body.len();
    move_bytes(image, old_end, end, behind);
    put_bytes(image, start, body);
    clear_bytes(image, behind + (end - old_end), limit);
}
