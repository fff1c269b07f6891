// Packs one row by way of an array with room for it, whatever its values are: no segment is tested for room, and the row reaches the destination
// with one copy. A row that does not fit is packed again by rle_scanline_encoder, which writes the segments that fit. So is a short row: that is
// faster than to make its flags.
ghost use Rattle.std.specs.Prelude.{◌≡◌, ◌+◌, ◌/◌, ◌≤◌, length, take, drop};
ghost use Rattle.rle_format.specs.Answer.{to_answer};
ghost use Rattle.rle_format.specs.Segment.{segments_bytes};
ghost use Rattle.rle_format.specs.Pack.{row_segments};
ghost use Rattle.rle_format.specs.Written.{answer_at, slice_at};
ghost use Rattle.rle_encoder.specs.RunFlags.{Flagged, Bits};
ghost use Rattle.rle_encoder.specs.Put.{Put};

use crate::row_packer::RowPacker;
use crate::runs::{flag_runs, next_other};
use crate::segment::put_segment;
use rle_format::Refusal;
use rle_scanline_encoder::encode_scanline;

// The width up to which a row is packed segment by segment.
const SHORT_ROW: usize = 32;

// Packs a row into dst from index `at` on, segment by segment, and returns the index behind it.
// Destination and index stay two parameters: `answer_at` and `slice_at` have both.
fn encode_by_segments(codes: &[u8], dst: &mut [u8], at: usize) -> Result<usize, Refusal>
    requires { at ≤ length dst.old }
    ensures answer { to_answer result ≡ answer_at (row_segments codes.now) dst.old at }
    ensures slice { dst.new ≡ slice_at (row_segments codes.now) dst.old at }
{
    let bytes = encode_scanline(codes, &mut dst[at..])?;
    Ok(at + bytes)
}

impl RowPacker<'_> {
    // The index in the array where the flags of the row begin. The segments of the first i values, the last with a run, take at most i + i / 15
    // bytes. So they, and the 16 bytes behind them, end before flag i: no flag is overwritten before it is read.
    fn flags_start(&self) -> usize
        ensures { result ≡ self.now.width / 15 + 16 }
    {
        self.width / 15 + 16
    }

    // Writes the segments of the row to the start of the array. The loop is a `while`, since it goes from one run to the next: a run is a value
    // with 3 or more repeats, and the values before it are raw.
    fn put_row(&mut self) -> usize
        requires { Flagged self.old.codes.now (drop (self.old.width / 15 + 16) self.old.packed.now) 0 self.old.width × Bits (drop (self.old.width / 15 + 16) self.old.packed.now) 0 (self.old.width + 8) }
        ensures { Put (row_segments (take self.old.width self.old.codes.now)) self.old.packed.now self.new.packed.now 0 result }
    {
        let flags = self.flags_start();
        let codes = self.codes;
        let width = self.width;
        let packed = &mut *self.packed;
        let mut i = 0;
        let mut to = 0;
        while i < width {
            let run = next_other::<0>(&packed[flags..], i, width);
            if width <= run + 3 {
                return put_segment(&codes[i..], width - i, 0, packed, to);
            }
            let end = (next_other::<1>(&packed[flags..], run, width) + 3).min(width);
            to = put_segment(&codes[i..], run + 1 - i, end - run - 1, packed, to);
            i = end;
        }
        to
    }

    // Writes the segments of the row to the start of the array, and returns the number of bytes.
    fn encode(&mut self) -> usize
        ensures bytes { result ≡ length (segments_bytes (row_segments (take self.old.width self.old.codes.now))) }
        ensures written { take result self.new.packed.now ≡ segments_bytes (row_segments (take self.old.width self.old.codes.now)) }
    {
        let flags = self.flags_start();
        flag_runs(self.codes, self.width, &mut self.packed[flags..]);
        self.put_row()
    }

    // Packs the row into dst from index `at` on, and returns the index behind it; or refusal 12, after the segments that fit were written.
    pub(crate) fn encode_to(&mut self, dst: &mut [u8], at: usize) -> Result<usize, Refusal>
        requires { at ≤ length dst.old }
        ensures answer { to_answer result ≡ answer_at (row_segments (take self.old.width self.old.codes.now)) dst.old at }
        ensures slice { dst.new ≡ slice_at (row_segments (take self.old.width self.old.codes.now)) dst.old at }
    {
        let codes = self.codes;
        let width = self.width;
        if SHORT_ROW < width {
            let bytes = self.encode();
            if bytes <= dst.len() - at {
                dst[at..at + bytes].copy_from_slice(&self.packed[..bytes]);
                return Ok(at + bytes);
            }
        }
        encode_by_segments(&codes[..width], dst, at)
    }
}
