// The header byte of a stream (FORMAT 1.2; MS-RDPEGDI 2.2.2.5.1), read and written.
ghost use Rattle.std.specs.Prelude.{◌≡◌, ◌+◌, ◌≤◌, eqb};
ghost use Rattle.rle_format.specs.Choice.{choose};
ghost use Rattle.bitmap_format.specs.HeaderByte.{definition_from_byte_of, header_from_byte_of, definition_bits_of, header_to_byte_of};

use bitmap_format::{BitmapStreamHeader, ColorPlaneDefinition};

// The plane definition, from a header byte.
fn definition_from_byte(byte: u8) -> ColorPlaneDefinition
    ensures { result ≡ definition_from_byte_of byte }
{
    let level = byte % 8;
    if level == 0 {
        return ColorPlaneDefinition::Argb;
    }
    ColorPlaneDefinition::AYCoCg {
        color_loss_level: level,
        use_chroma_subsampling: byte / 8 % 2 == 1,
    }
}

// The header record, from a header byte.
pub(crate) fn header_from_byte(byte: u8) -> BitmapStreamHeader
    ensures { result ≡ header_from_byte_of byte }
{
    let definition = definition_from_byte(byte);
    let no_alpha = byte / 32 % 2 == 1;
    BitmapStreamHeader {
        enable_rle_compression: byte / 16 % 2 == 1,
        use_alpha: !no_alpha,
        color_plane_definition: definition,
    }
}

// Bits 0 to 3 of a header byte, from the low bits of a loss level. Level 0 is read as ARGB, for which bit 3 is written 0.
fn level_bits(low: u8, subsampling: bool) -> u8
    requires { low ≤ 7 }
    ensures { (result ≡ choose (eqb low 0) 0 (low + choose subsampling 8 0)) × (result ≤ 15) }
{
    if low == 0 {
        return 0;
    }
    low + flag(subsampling, 8)
}

// Bits 0 to 3 of a header byte. Of a loss level over 7 only the low bits are written.
fn definition_bits(definition: ColorPlaneDefinition) -> u8
    ensures { (result ≡ definition_bits_of definition) × (result ≤ 15) }
{
    match definition {
        ColorPlaneDefinition::Argb => 0,
        ColorPlaneDefinition::AYCoCg {
            color_loss_level,
            use_chroma_subsampling,
        } => level_bits(color_loss_level % 8, use_chroma_subsampling),
    }
}

// A bit with this value, or 0.
fn flag(set: bool, value: u8) -> u8
    ensures { (result ≡ choose set value 0) × (result ≤ value) }
{
    if set {
        return value;
    }
    0
}

// The header byte, from a header record.
pub(crate) fn header_to_byte(header: BitmapStreamHeader) -> u8
    ensures { result ≡ header_to_byte_of header }
{
    let definition = header.color_plane_definition;
    let no_alpha = !header.use_alpha;
    definition_bits(definition) + flag(header.enable_rle_compression, 16) + flag(no_alpha, 32)
}
