ghost use Rattle.std.specs.Prelude.{◌≡◌, ◌+◌, ◌≤◌, length};
ghost use Rattle.pur_base.specs.Bytes.{u8, u16, u32, u64};
ghost use Rattle.boot_codec.specs.Writing.{IsWritten};

/// Writes bytes at a place, and returns where they end.
pub fn put(into: &mut [u8], at: usize, text: &[u8]) -> usize
    requires { at + length text.now ≤ length into.old }
    ensures { IsWritten into.old into.new at result text.now }
{
    let end = at + text.len();
    into[at..end].copy_from_slice(text);
    end
}

pub fn put_u8(into: &mut [u8], at: usize, number: u8) -> usize
    requires { at + 1 ≤ length into.old }
    ensures { IsWritten into.old into.new at result (u8 number) }
{
    put(into, at, &[number])
}

pub fn put_u16(into: &mut [u8], at: usize, number: u16) -> usize
    requires { at + 2 ≤ length into.old }
    ensures { IsWritten into.old into.new at result (u16 number) }
{
    put(into, at, &number.to_be_bytes())
}

pub fn put_u32(into: &mut [u8], at: usize, number: u32) -> usize
    requires { at + 4 ≤ length into.old }
    ensures { IsWritten into.old into.new at result (u32 number) }
{
    put(into, at, &number.to_be_bytes())
}

pub fn put_u64(into: &mut [u8], at: usize, number: u64) -> usize
    requires { at + 8 ≤ length into.old }
    ensures { IsWritten into.old into.new at result (u64 number) }
{
    put(into, at, &number.to_be_bytes())
}
