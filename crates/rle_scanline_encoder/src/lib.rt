// Packs one row from its coded values (FORMAT 5.1 to 5.3; MS-RDPEGDI 3.1.9.2). A crate of its own, so that it is proved again in seconds.
#![tactic(auto)]

mod row;
pub mod segment;

ghost use Rattle.std.specs.Prelude.{◌≡◌, length};
ghost use Rattle.rle_format.specs.Answer.{to_answer};
ghost use Rattle.rle_format.specs.Slice.{overwrite};
ghost use Rattle.rle_format.specs.Pack.{row_segments, write_segments};

use rle_format::Refusal;
use row::encode_row;

// Packs a row into the first bytes of dst, and returns the number of bytes written; or refusal 12, after the segments that fit were written.
// An empty row has no segments.
pub fn encode_scanline(codes: &[u8], dst: &mut [u8]) -> Result<usize, Refusal>
    ensures answer { to_answer result ≡ (write_segments (row_segments codes.now) (length dst.old)).answer }
    ensures slice { dst.new ≡ overwrite dst.old (write_segments (row_segments codes.now) (length dst.old)).written }
{
    if codes.is_empty() {
        return Ok(0);
    }
    encode_row(codes, dst)
}
