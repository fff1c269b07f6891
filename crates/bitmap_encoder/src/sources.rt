// The planes of a picture in the order in which they are packed (FORMAT 7.2), as samples of slices that all have the same layout. If that is pixels,
// the same slice is passed for each channel.
ghost use Rattle.std.specs.Prelude.{◌≡◌, map};
ghost use Rattle.pixel_format.specs.Samples.{samples_in};
ghost use Rattle.bitmap_encoder.specs.Sources.{three_channels, four_channels};

use pixel_format::{Channel, Layout, Samples};

// R, G, B.
pub(crate) fn colors<'a>(r: &'a [u8], g: &'a [u8], b: &'a [u8], layout: Layout) -> [Samples<'a>; 3]
    ensures { map samples_in result ≡ three_channels layout r.now g.now b.now }
{
    [
        Samples {
            src: r,
            layout,
            channel: Channel::R,
        },
        Samples {
            src: g,
            layout,
            channel: Channel::G,
        },
        Samples {
            src: b,
            layout,
            channel: Channel::B,
        },
    ]
}

// A, R, G, B.
pub(crate) fn alpha_and_colors<'a>(
    r: &'a [u8],
    g: &'a [u8],
    b: &'a [u8],
    a: &'a [u8],
    layout: Layout,
) -> [Samples<'a>; 4]
    ensures { map samples_in result ≡ four_channels layout r.now g.now b.now a.now }
{
    let [red, green, blue] = colors(r, g, b, layout);
    [
        Samples {
            src: a,
            layout,
            channel: Channel::A,
        },
        red,
        green,
        blue,
    ]
}
