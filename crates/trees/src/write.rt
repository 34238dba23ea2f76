ghost use Rattle.std.specs.Prelude.{◌≡◌, ◌+◌, ◌*◌, ◌≤◌, ◌<◌, ◌^◌, ◌++◌, length, drop};
ghost use Rattle.ex_base.specs.Bytes.{written};
ghost use Rattle.trees.specs.Node.{head_of, pair_bytes, node_page};
ghost use Rattle.trees.specs.Rows.{row_size, pairs_of};
ghost use Rattle.trees.specs.declared.width.Width.TheVariants.{Wide};

use crate::rows::Part;
use crate::width::Width;
use crate::{GAP_AT, LEN_AT, LEVEL_AT, PAIRS_AT, Pair};
use ex_base::{clear_from, put_u16, put_u32, put_u64};

/// Writes the head of a node: its kind, its level, the number of its pairs, and four bytes of zero.
fn write_head(level: u8, pairs: u16, out: &mut [u8])
    requires { 8 ≤ length out.old }
    ensures { out.new ≡ head_of Wide level pairs ++ drop 8 out.old }
{
    out[0] = Width::Wide.kind();
    out[LEVEL_AT] = level;
    put_u16(out, LEN_AT, pairs);
    put_u32(out, GAP_AT, 0);
}

/// Writes a pair.
fn write_pair(pair: &Pair, out: &mut [u8], at: usize)
    requires { at + 12 ≤ length out.old }
    ensures { out.new ≡ written out.old at (pair_bytes Wide pair.now) }
{
    put_u64(out, at, pair.count);
    put_u32(out, at + Width::Wide.count_len(), pair.page.0);
}

/// Writes the page of a node of a level over these trees, with counts of eight bytes, and gives the bytes of all of them.
pub fn write_node(level: u8, row: &[Part], out: &mut [u8]) -> u64
    requires room { 8 + 12 * length row.now ≤ length out.old }
    requires page { length out.old ≤ 8192 }
    requires limit { row_size row.now < 2 ^ 64 }
    ensures page { out.new ≡ node_page (length out.old) level (pairs_of 0 row.now) }
    ensures size { result ≡ row_size row.now }
{
    write_head(level, row.len() as u16, out);
    let mut count = 0;
    let mut at = PAIRS_AT;
    for part in row {
        count += part.size;
        let pair = Pair {
            count,
            page: part.page,
        };
        write_pair(&pair, out, at);
        at += Width::Wide.pair_len();
    }
    clear_from(out, at);
    count
}
