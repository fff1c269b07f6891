// A row of a channel's plane.
ghost use Rattle.std.specs.Prelude.{◌+◌, ◌*◌, ◌≤◌, length};
ghost use Rattle.pixel_format.specs.Samples.{samples_in};

use pixel_format::Samples;

// Row r, which is among the samples; the first is row 0.
#[derive(Clone, Copy)]
pub(crate) struct PlaneRow<'a> {
    pub samples: Samples<'a>,
    pub r: usize,
    pub width: usize,
    pub ghost low: { r ≤ 8192 },
    pub ghost narrow: { width ≤ 8192 },
    pub ghost within: { r * width + width ≤ length (samples_in samples) },
}
