// Replays the stored cases of packing pictures, the files in data/, and prints, for each file, how many gave the stored result. A
// function that gives another result, or a damaged data file, changes what is printed.
#![tactic(auto)]

mod encode;

use case_lines::file::replay_file;
use encode::{CaseKind, ResultKind, SourceKind};

// The four kinds of files.
const CHANNELS: CaseKind = CaseKind {
    source: SourceKind::Channels,
    result: ResultKind::Body,
};

const BITMAP: CaseKind = CaseKind {
    source: SourceKind::Pixels,
    result: ResultKind::Body,
};

const STREAM_CHANNELS: CaseKind = CaseKind {
    source: SourceKind::Channels,
    result: ResultKind::Stream,
};

const STREAM_BITMAP: CaseKind = CaseKind {
    source: SourceKind::Pixels,
    result: ResultKind::Stream,
};

fn main(rt: HostRuntime) {
    replay_file(&rt, b"examples-channels.txt", &CHANNELS);
    replay_file(&rt, b"examples-bitmap.txt", &BITMAP);
    replay_file(&rt, b"examples-stream-channels.txt", &STREAM_CHANNELS);
    replay_file(&rt, b"examples-stream-bitmap.txt", &STREAM_BITMAP);
    replay_file(&rt, b"refusals-channels.txt", &CHANNELS);
    replay_file(&rt, b"refusals-bitmap.txt", &BITMAP);
    replay_file(&rt, b"refusals-stream-channels.txt", &STREAM_CHANNELS);
    replay_file(&rt, b"refusals-stream-bitmap.txt", &STREAM_BITMAP);
    replay_file(&rt, b"channels-pack.txt", &CHANNELS);
    replay_file(&rt, b"bitmap-pack.txt", &BITMAP);
    replay_file(&rt, b"stream-channels-pack.txt", &STREAM_CHANNELS);
    replay_file(&rt, b"stream-bitmap-pack.txt", &STREAM_BITMAP);
}
