// The coded values of a row (FORMAT 4.2). If a slice has the samples of one plane, the row above is read from the slice. The samples of a channel
// in pixels are copied to an array once, and kept there for the row below.
// The loops over a row go by an index. With `iter_mut` zipped the proof did not close: of what it wrote only the length is known. With the two rows
// that are read zipped, and an index for the third, `delta_below` took 0.8 % more instructions and 30 more lines of answers; with `iter_mut` and
// `enumerate` `delta_row` took up to 0.5 % more, and still had an index for the row above. The slices of a row and of the row above it stay two
// parameters: the callers have them in different places. That `codes` is as long as the row stays a fact of three contracts: it is lent to be
// written, and a struct of it would have to say that it keeps its length.
ghost use Rattle.std.specs.Prelude.{◌≡◌, ◌+◌, ◌*◌, length};
ghost use Rattle.rle_format.specs.Delta.{delta_code, zip_with};
ghost use Rattle.rle_format.specs.Pack.{codes_at};
ghost use Rattle.pixel_format.specs.Samples.{samples_in};
ghost use Rattle.rle_encoder.specs.CodeRow.{code_row_of, HasRowAbove, KeepsRowAbove};

use crate::plane_row::PlaneRow;
use pixel_format::Layout;

// The code of the sample `next` below the sample `prev`: a small difference, up or down, has a small code. For a fall it is 2 × (255 − d) + 1,
// which is 255 − 2 × d modulo 256: this form needs fewer vector instructions.
fn delta_value(prev: u8, next: u8) -> u8
    ensures { result ≡ delta_code prev next }
{
    let d = next.wrapping_sub(prev);
    let twice = d.wrapping_add(d);
    if d < 128 { twice } else { 255 - twice }
}

// Delta codes a row. Each sample replaces the one above it, which is not needed any more.
fn delta_row(above: &mut [u8], codes: &mut [u8])
    requires { length above.old ≡ length codes.old }
    ensures codes { codes.new ≡ zip_with delta_code above.old codes.old }
    ensures above { above.new ≡ codes.old }
{
    for i in 0..codes.len() {
        let sample = codes[i];
        codes[i] = delta_value(above[i], sample);
        above[i] = sample;
    }
}

// On entry `codes` has the samples of row r, and `above` those of the row above, which row 0 does not read. On return `codes` has the coded
// values of row r, and `above` its samples.
fn code_scanline(r: usize, above: &mut [u8], codes: &mut [u8])
    requires { length above.old ≡ length codes.old }
    ensures codes { codes.new ≡ code_row_of r above.old codes.old }
    ensures above { above.new ≡ codes.old }
{
    if r == 0 {
        above.copy_from_slice(codes);
    } else {
        delta_row(above, codes);
    }
}

// The coded values of a row below another.
fn delta_below(above: &[u8], row: &[u8], codes: &mut [u8])
    requires { (length above.now ≡ length codes.old) × (length row.now ≡ length codes.old) }
    ensures { codes.new ≡ zip_with delta_code above.now row.now }
{
    for i in 0..codes.len() {
        codes[i] = delta_value(above[i], row[i]);
    }
}

// The coded values of a row whose plane has a slice of its own.
fn code_plane_row(row: PlaneRow, codes: &mut [u8])
    requires { (row.samples.layout ≡ Layout.Planar) × (length codes.old ≡ row.width) }
    ensures { codes.new ≡ codes_at row.entry.width (samples_in row.entry.samples) row.entry.r }
{
    let PlaneRow { samples, r, width } = row;
    let start = r * width;
    if r == 0 {
        codes.copy_from_slice(&samples.src[..width]);
        return;
    }
    let above = (r - 1) * width;
    delta_below(
        &samples.src[above..above + width],
        &samples.src[start..start + width],
        codes,
    );
}

// The coded values of a row of a channel in pixels. On entry `above` has the samples of the row above, on return those of the row.
fn code_pixel_row(row: PlaneRow, above: &mut [u8], codes: &mut [u8])
    requires { (length above.old ≡ row.width) × (length codes.old ≡ row.width) × HasRowAbove row.width (samples_in row.samples) row.r above.old }
    ensures codes { codes.new ≡ codes_at row.entry.width (samples_in row.entry.samples) row.entry.r }
    ensures above { HasRowAbove row.entry.width (samples_in row.entry.samples) (row.entry.r + 1) above.new }
{
    row.samples.read(row.r * row.width, codes);
    code_scanline(row.r, above, codes);
}

// The coded values of a row of a channel, in either layout.
pub(crate) fn code_row(row: PlaneRow, above: &mut [u8], codes: &mut [u8])
    requires { (length above.old ≡ row.width) × (length codes.old ≡ row.width) × KeepsRowAbove row.samples.layout row.width (samples_in row.samples) row.r above.old }
    ensures codes { codes.new ≡ codes_at row.entry.width (samples_in row.entry.samples) row.entry.r }
    ensures above { KeepsRowAbove row.entry.samples.layout row.entry.width (samples_in row.entry.samples) (row.entry.r + 1) above.new }
{
    match row.samples.layout {
        Layout::Planar => code_plane_row(row, codes),
        Layout::Pixels(_) => code_pixel_row(row, above, codes),
    }
}
