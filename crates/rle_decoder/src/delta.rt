// Undoing the delta code of a row (FORMAT 4.3).
ghost use Rattle.std.specs.Prelude.{◌≡◌, ◌+◌, ◌<◌, ◌≤◌, length, take};
ghost use Rattle.rle_format.specs.Delta.{difference_from_code, undo_delta, zip_with, restore_row_of};
ghost use Rattle.rle_format.specs.Slice.{write_at};
ghost use Rattle.rle_decoder.specs.Rows.{row_above};

// The difference of a code. Both cases start from the half, so that the compiler can vectorise the loop below.
fn transformed_delta(delta: u8) -> u8
    ensures { result ≡ difference_from_code delta }
{
    let half = delta / 2;
    if delta % 2 == 0 { half } else { 255 - half }
}

// The first bytes of rows, as many as there are codes, are samples, and the codes are the delta codes of the row below: writes that row's samples
// behind the first row. The two rows are one slice, so that no slice has to be split.
fn resolve_scanline_delta(codes: &[u8], rows: &mut [u8])
    requires { length codes.now + length codes.now ≤ length rows.old }
    ensures { rows.new ≡ write_at rows.old (length codes.now) (zip_with undo_delta (take (length codes.now) rows.old) codes.now) }
{
    let width = codes.len();
    for i in 0..width {
        rows[width + i] = rows[i].wrapping_add(transformed_delta(codes[i]));
    }
}

// Writes the samples of the row that begins at index `start` of dst, from its codes and the row above. The first row has none above it, and its
// codes are the samples.
// Slice and index stay two parameters: the row above is read from the same slice.
pub(crate) fn restore_row(codes: &[u8], dst: &mut [u8], start: usize)
    requires { (start + length codes.now ≤ length dst.old) × ((0 < start) → length codes.now ≤ start) }
    ensures { dst.new ≡ write_at dst.old start (restore_row_of (row_above dst.old start (length codes.now)) codes.now) }
{
    if start == 0 {
        dst[..codes.len()].copy_from_slice(codes);
        return;
    }
    let above = start - codes.len();
    resolve_scanline_delta(codes, &mut dst[above..]);
}
