// A row of coded values, and the array that it is packed by way of.
ghost use Rattle.std.specs.Prelude.{◌+◌, ◌/◌, ◌≤◌, length};

// The first `width` values of `codes` are the row; a copy of 16 bytes may read those behind it. `packed` is lent, so that it is made once for all
// rows. It has the row's segments, and its flags behind them; its bytes do not matter, before and after.
#[derive(Drop)]
pub(crate) struct RowPacker<'a> {
    pub codes: &'a [u8],
    pub width: usize,
    pub packed: &'a mut [u8],
    pub ghost narrow: { width ≤ 8192 },
    pub ghost codes_room: { width + 15 ≤ length codes.now },
    pub ghost packed_room: { width + width / 15 + 24 ≤ length packed.now },
}
