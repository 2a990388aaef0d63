// Bytes.
ghost use Rattle.std.specs.Prelude.{◌≡◌, get_or};

pub fn byte(s: &[u8], i: usize) -> u32
    ensures { result ≡ get_or s.now i 0 }
{
    u32::from(s.get(i).copied().unwrap_or(0))
}
