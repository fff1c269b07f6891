// A row while it is read: how far it is, the segment that it reads next, and where it stopped (FORMAT 4.1).
ghost use Rattle.std.specs.Prelude.{◌≡◌, ◌+◌, ◌^◌, ◌<◌, ◌≤◌, IfOk, IfErr};

use rle_format::Refusal;

// The index of src at which the next segment begins, the number of coded values that were read, and the last byte.
#[derive(Clone, Copy)]
pub(crate) struct RowSoFar {
    pub(crate) at: usize,
    pub(crate) column: usize,
    pub(crate) last: u8,
}

// A segment that was read: the number of its raw bytes, its run, and the last byte after it.
#[derive(Clone, Copy)]
pub(crate) struct Segment {
    pub(crate) raw: usize,
    pub(crate) run: usize,
    pub(crate) last: u8,
    pub(crate) ghost short: { raw + run ≤ 47 },
}

// A row that was refused: the number of coded values that were read before, and why.
#[derive(Clone, Copy)]
pub(crate) struct StoppedRow {
    pub(crate) column: usize,
    pub(crate) reason: Refusal,
}

impl RowSoFar {
    pub(crate) fn stopped(self, reason: Refusal) -> StoppedRow
        ensures { (result.column ≡ self.column) × (result.reason ≡ reason) }
    {
        StoppedRow {
            column: self.column,
            reason,
        }
    }

    // The row behind a segment that was read at its end, or the refusal of a segment that overruns the row.
    pub(crate) fn after(self, segment: Segment, width: usize) -> Result<RowSoFar, StoppedRow>
        requires { (self.at + 1 + segment.raw < 2 ^ 64) × (self.column + 47 < 2 ^ 64) }
        ensures fits { IfOk result (λ row. (row.at ≡ self.at + 1 + segment.raw) × (row.column ≡ self.column + segment.raw + segment.run) × (row.last ≡ segment.last) × (row.column ≤ width)) }
        ensures overruns { IfErr result (λ stop. (stop.column ≡ self.column) × (stop.reason ≡ Refusal.SegmentDoNotFitScanline) × (width < self.column + segment.raw + segment.run)) }
    {
        let column = self.column + segment.raw + segment.run;
        if width < column {
            return Err(self.stopped(Refusal::SegmentDoNotFitScanline));
        }
        Ok(RowSoFar {
            at: self.at + 1 + segment.raw,
            column,
            last: segment.last,
        })
    }
}
