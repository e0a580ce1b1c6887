// Space for what is read and written.
ghost use Rattle.std.specs.Prelude.{◌≡◌, length, All};

// No word that Linux hands over is longer where a page of memory has 4,096 bytes.
pub const WORD_SPACE: usize = 131072;

// One byte more than the longest trace has, so that a longer input shows its wrong length.
pub const TRACE_SPACE: usize = trace::BYTE_LIMIT + 1;

// The longest text or image that is read. No image this long holds a pool, but the reader names what is wrong with it.
pub const INPUT_LIMIT: usize = 1048576;

// One byte more, so that a longer one shows.
pub const INPUT_SPACE: usize = INPUT_LIMIT + 1;

// So many bytes, each 0. The length is promised, since it may be too great to be found by counting.
pub fn zeros<const N: usize>() -> [u8; N]
    ensures length { N ≡ length result }
    ensures zero { All (λ byte. byte ≡ 0) result }
{
    [0; N]
}
