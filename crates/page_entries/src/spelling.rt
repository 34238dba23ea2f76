// Fields that are written one behind the other.
ghost use Rattle.std.specs.Prelude.{◌≡◌, ◌++◌, OnOk};
ghost use Rattle.ex_base.specs.Fields.{two_bytes, four_bytes, eight_bytes};

use ex_base::{put_u16, put_u32, put_u64};
use std::alloc::AllocError;

/// Writes a number of two bytes.
pub fn push_two(bytes: &mut Vec<u8>, value: u16) -> Result<(), AllocError>
    ensures { OnOk result (bytes.new.items ≡ bytes.old.items ++ two_bytes value) }
{
    let mut field = [0; 2];
    put_u16(&mut field, 0, value);
    bytes.extend_from_slice(&field)?;
    Ok(())
}

/// Writes a number of four bytes.
pub fn push_four(bytes: &mut Vec<u8>, value: u32) -> Result<(), AllocError>
    ensures { OnOk result (bytes.new.items ≡ bytes.old.items ++ four_bytes value) }
{
    let mut field = [0; 4];
    put_u32(&mut field, 0, value);
    bytes.extend_from_slice(&field)?;
    Ok(())
}

/// Writes a number of eight bytes.
pub fn push_eight(bytes: &mut Vec<u8>, value: u64) -> Result<(), AllocError>
    ensures { OnOk result (bytes.new.items ≡ bytes.old.items ++ eight_bytes value) }
{
    let mut field = [0; 8];
    put_u64(&mut field, 0, value);
    bytes.extend_from_slice(&field)?;
    Ok(())
}
